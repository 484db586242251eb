// The bench: it runs shots over any carriage, which it knows by its contracts alone, and keeps every correct
// controller's extracted set and register.
#![tactic(auto)]

mod charging;
mod moments;
mod offers;
mod places;
mod rounds;
mod shots;
mod state;
mod tallies;

pub use state::{Bench, Unopened};
