// The echo carriage: a triple travels without seals. Correct controllers that hear an offer from its origin become
// witnesses and echo it; t + 1 echoes from different controllers make a witness, n − t make an acceptance.
#![tactic(auto)]

mod carrier;
mod cells;

pub use carrier::Echo;
