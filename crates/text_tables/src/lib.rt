// Campaign texts that are taken and that are refused, each with its line, layer and number, as tests.
#![tactic(auto)]

#[cfg(test)]
mod cases;
#[cfg(test)]
mod header_lines;
#[cfg(test)]
mod lines;
#[cfg(test)]
mod whole;
