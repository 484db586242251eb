// A whole campaign.
use acts::Act;
use groups::Group;
use headers::CarriageKind;

mod parts;
mod whole;
mod writes;

pub use whole::read;
pub use writes::{rendered, write};

// A group, the carriage that it runs over, the value list and the acts.
#[derive(Drop)]
pub struct Campaign<K> {
    pub group: Group,
    pub carriage: CarriageKind,
    pub values: Vec<K>,
    pub acts: Vec<Act<K>>,
}
