// The seal carriage: a triple travels under its origin's seal, which nobody can forge for a correct controller. Whoever
// hears a seal accepts the triple and passes the seal on.
#![tactic(auto)]

mod cells;
mod sealing;

pub use sealing::Seal;
