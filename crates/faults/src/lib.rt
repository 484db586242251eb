// Faults: each has a number, the layer that returns it, and its cause in words. Here are those of values, value lists, groups
// and carriages; the faults of benches and of texts wrap them and keep number and layer.
#![tactic(auto)]

mod causes;
mod layers;

pub use causes::{CarriageFault, GroupFault, ListFault, ValueFault};
pub use layers::{Fault, Layer};
