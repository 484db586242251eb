// Worked examples of what the libraries answer, and of every refusal, as tests.
#![tactic(auto)]

#[cfg(test)]
mod echoes;
#[cfg(test)]
mod group_making;
#[cfg(test)]
mod seals;
#[cfg(test)]
mod shared;
#[cfg(test)]
mod shots;
#[cfg(test)]
mod values_and_lists;
