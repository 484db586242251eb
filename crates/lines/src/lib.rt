// What a report of a campaign says, and the lines that it is printed as.
#![tactic(auto)]

mod happenings;
mod printing;

pub use happenings::{Happening, Report};
pub use printing::printed;
