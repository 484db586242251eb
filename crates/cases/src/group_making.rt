// Marks and groups: what is taken, and each refusal by its number.
use crate::shared::answer;
use faults::{Fault, ValueFault};
use groups::{Group, Marks};
use std::test::Fail;

fn marks_of(first: u16, second: Option<u16>) -> Result<Marks, ValueFault> {
    let marks = Marks::none().with(first)?;
    match second {
        Some(number) => marks.with(number),
        None => Ok(marks),
    }
}

// 0 where the group is made, else the number of the fault.
fn group_answer(n: u16, t: u16, first: u16, second: Option<u16>) -> u16 {
    match marks_of(first, second) {
        Err(fault) => fault.number(),
        Ok(marks) => answer(Group::new(n, t, marks)),
    }
}

#[test]
fn groups_are_made_or_refused(rt: HostRuntime) {
    assert_eq!(rt; group_answer(4, 1, 3, None), 0);
    assert_eq!(rt; group_answer(16, 5, 15, Some(0)), 0);
    assert_eq!(rt; group_answer(17, 0, 0, None), 4);
    assert_eq!(rt; group_answer(0, 0, 0, None), 4);
    assert_eq!(rt; group_answer(65535, 65535, 0, None), 4);
    assert_eq!(rt; group_answer(3, 1, 0, None), 5);
    assert_eq!(rt; group_answer(16, 65535, 0, None), 5);
    assert_eq!(rt; group_answer(4, 1, 2, Some(3)), 6);
    assert_eq!(rt; group_answer(4, 1, 4, None), 6);
    assert_eq!(rt; group_answer(4, 0, 3, None), 6);
    assert_eq!(rt; group_answer(4, 1, 16, None), 3);
    assert_eq!(rt; group_answer(4, 1, 3, Some(65535)), 3);
}

#[test]
fn the_lowest_correct_controller(rt: HostRuntime) -> Result<(), Fail> {
    let group = Group::new(7, 2, marks_of(0, Some(1))?)?;
    assert_eq!(rt; group.lowest_correct(), 2);
    assert!(rt; !group.is_correct(0) && group.is_correct(6) && !group.is_correct(7));
    assert!(rt; group.is_marked(1) && !group.is_marked(65535));
    Ok(())
}
