// What a bench keeps.
use crate::places::Extracted;
use crate::shots::Progress;
use crate::tallies::Registers;

mod acts;
mod checks;
mod opening;
mod reads;

pub use opening::Unopened;

// A bench over a carriage of any make.
#[derive(Drop)]
pub struct Bench<C> {
    carriage: C,
    progress: Progress,
    extracted: Extracted,
    registers: Registers,
}
