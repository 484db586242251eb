// The header of a campaign text.
#![tactic(auto)]

use fields::ValueKind;
use groups::Group;

mod carriages;
mod forms;
mod joins;

pub use carriages::CarriageKind;
pub use forms::{BenchLine, CarriageLine, CountLine, KindLine, MarksLine, NumberLine};
pub use joins::Listed;

// What the seven header lines say; `count` values follow.
#[derive(Clone, Copy)]
pub struct Header {
    pub group: Group,
    pub carriage: CarriageKind,
    pub kind: ValueKind,
    pub count: u16,
}
