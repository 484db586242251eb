// Values of campaign texts: how the fields of each kind are read and written, and what a form of lines is.
#![tactic(auto)]

mod forms;
mod kinds;
mod notices;
mod pulses;

pub use cuts::{cut, is_dash, keyed_line, number};
pub use forms::Form;
pub use kinds::{ValueKind, Written};
