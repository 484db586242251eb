// What a carriage means: triples, frames, and the trait that every carriage keeps. No carriage is written here, but
// what carriages share: the stage that they are at, and a table with a cell for each triple.
#![tactic(auto)]

mod checks;
mod frames;
mod meaning;
mod stage;
mod table;
mod timing;

pub use checks::{check_ends, check_offer, check_range, check_read, relay_holds};
pub use faults::{CarriageFault, GroupFault};
pub use frames::{Frame, Triple};
pub use groups::{Group, Marks};
pub use meaning::Carriage;
pub use stage::Stage;
pub use table::Table;
pub use timing::Timing;
