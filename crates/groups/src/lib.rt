// Groups of controllers: how many there are, how many may be marked, and which are.
#![tactic(auto)]

mod members;

pub use members::{Group, Marks};
