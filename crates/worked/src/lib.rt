// Worked cases: a proved table of what the definitions say of small examples, and a shot of a marked sender that tells
// two stories, played and proved call by call.
#![tactic(auto)]

mod four_group;
mod stories;

pub use four_group::four_controllers;
pub use stories::two_stories;
