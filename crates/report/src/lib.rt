// Runs a campaign text over a bench and reports what came of it.
#![tactic(auto)]

mod acting;
mod courses;
mod pool;
mod whole;

pub use whole::report;
