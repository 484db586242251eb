// Values and lists: sameness, charges, places, and each refusal by its number.
use crate::shared::answer;
use lists::{check_list, place};
use std::test::Fail;
use values::{Kind, Notice, Outcome, PulseReport};

#[test]
fn notices_are_the_same_whatever_their_tick(rt: HostRuntime) -> Result<(), Fail> {
    let early = Notice::new(Outcome::Failed, 5, 0)?;
    let late = Notice::new(Outcome::Failed, 5, 65535)?;
    let passed = Notice::new(Outcome::Passed, 5, 0)?;
    assert!(rt; early.is_same(&late) && !early.is_same(&passed));
    assert_eq!(rt; late.charged_block(), Some(5));
    assert_eq!(rt; passed.charged_block(), None);
    assert!(rt; passed.letter() == 'P' && late.tick() == 65535);
    assert!(rt;
        Notice::new(Outcome::Failed, 64, 0).is_err()
            && Notice::new(Outcome::Passed, 65535, 0).is_err()
    );
    Ok(())
}

#[test]
fn eight_pulses_charge(rt: HostRuntime) -> Result<(), Fail> {
    assert_eq!(rt; PulseReport::new(63, 8)?.charged_block(), Some(63));
    assert_eq!(rt; PulseReport::new(63, 7)?.charged_block(), None);
    assert_eq!(rt; answer(PulseReport::new(64, 8)), 3);
    assert_eq!(rt; answer(PulseReport::new(0, 0)), 3);
    assert_eq!(rt; answer(PulseReport::new(0, 9)), 3);
    assert_eq!(rt; answer(PulseReport::new(65535, 65535)), 3);
    Ok(())
}

fn list_answer(values: &[Notice]) -> u16 {
    answer(check_list(values))
}

#[test]
fn lists_hold_one_to_four_values(rt: HostRuntime) -> Result<(), Fail> {
    let a = Notice::new(Outcome::Failed, 5, 0)?;
    let b = Notice::new(Outcome::Failed, 9, 0)?;
    let c = Notice::new(Outcome::Passed, 5, 0)?;
    let d = Notice::new(Outcome::Passed, 9, 0)?;
    let again = Notice::new(Outcome::Failed, 9, 7)?;
    assert_eq!(rt; list_answer(&[a, b, c, d]), 0);
    assert_eq!(rt; list_answer(&[]), 7);
    assert_eq!(rt; list_answer(&[a, b, c, d, again]), 7);
    assert_eq!(rt; list_answer(&[a, b, again]), 8);
    assert_eq!(rt; place(&[a, b, again], &again), Some(1));
    assert_eq!(rt; place(&[a, c], &again), None);
    Ok(())
}
