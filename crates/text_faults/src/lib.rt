// Faults of campaign texts: each names its line, and keeps the number and layer of what it wraps.
#![tactic(auto)]

mod causes;
mod errors;
mod lines;
mod texts;
mod wraps;
mod writes;

pub use causes::TextCause;
pub use errors::ReadError;
pub use lines::LineFault;
pub use texts::TextFault;
pub use writes::{WriteError, WriteFault};
