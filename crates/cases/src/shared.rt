// What the tests share: groups, triples, and the number that a call answers.
use carriage::Triple;
use faults::Fault;
use groups::{Group, Marks};
use std::test::Fail;

// n controllers of which those from `first` on are marked.
pub fn group_of(n: u16, t: u16, first: u16) -> Result<Group, Fail> {
    let mut marks = Marks::none();
    // a loop, since a mark may be refused
    for q in first..n {
        marks = marks.with(q)?;
    }
    Ok(Group::new(n, t, marks)?)
}

// Four controllers of which 3 is marked.
pub fn four() -> Result<Group, Fail> {
    group_of(4, 1, 3)
}

pub fn triple(origin: u16, place: u16, round: u16) -> Triple {
    Triple {
        origin,
        place,
        round,
    }
}

// 0 where the call is taken, else the number of the fault.
pub fn answer<T: Drop, E: Fault + Drop>(r: Result<T, E>) -> u16 {
    match r {
        Ok(_) => 0,
        Err(fault) => fault.number(),
    }
}
