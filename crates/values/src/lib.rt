// Kinds of value: which values are the same and which block one charges. Two kinds are here, notices and pulse reports.
#![tactic(auto)]

mod blocks;
mod kinds;
mod notices;
mod pulses;

pub use blocks::Block;
pub use faults::{Fault, Layer, ListFault, ValueFault};
pub use kinds::Kind;
pub use notices::{Notice, Outcome, UnknownLetter};
pub use pulses::PulseReport;
