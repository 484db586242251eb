// The words of a bench and the law of agreement: the moments of a shot, the acts that fit them, verdicts and faults,
// and, in specs/ and proofs/, what each call of a bench does and what holds after any sequence of calls. Nothing here
// knows a carriage but by the meaning that every carriage keeps.
#![tactic(auto)]

mod bench_faults;
mod moments;

pub use bench_faults::BenchFault;
pub use moments::{Act, Moment, Verdict};
