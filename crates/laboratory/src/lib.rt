// What a laboratory can do with a bench over any carriage and any kind of value. That correct controllers agree here
// follows from the contracts of the bench's calls alone.
#![tactic(auto)]

mod passes;
mod readings;

pub use passes::Order;
pub use readings::{Passage, Passages, Readings, three_shots, two_readings};
