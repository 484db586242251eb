// The seal carriage: each refusal by its number, and that a refusal changes nothing.
use crate::shared::{answer, four, triple};
use carriage::{Carriage, CarriageFault, Frame};
use seal::Seal;
use std::test::Fail;

#[test]
fn frames_are_refused_for_the_first_cause(rt: HostRuntime) -> Result<(), Fail> {
    let group = four()?;
    let mut seal = Seal::new(group, 2)?;
    let own = triple(3, 1, 1);
    assert_eq!(rt;
        answer(seal.inject(Frame::new(2, 3, b'x', triple(9, 9, 9)))),
        14
    );
    assert_eq!(rt; answer(seal.inject(Frame::new(65535, 0, b's', own))), 14);
    assert_eq!(rt;
        answer(seal.inject(Frame::new(3, 3, b'x', triple(9, 9, 9)))),
        15
    );
    assert_eq!(rt; answer(seal.inject(Frame::new(3, 65535, b's', own))), 15);
    assert_eq!(rt;
        answer(seal.inject(Frame::new(3, 0, b'e', triple(9, 9, 9)))),
        16
    );
    assert_eq!(rt; answer(seal.inject(Frame::new(3, 0, 255, own))), 16);
    assert_eq!(rt;
        answer(seal.inject(Frame::new(3, 0, b's', triple(0, 2, 1)))),
        17
    );
    assert_eq!(rt;
        answer(seal.inject(Frame::new(3, 0, b's', triple(3, 0, 3)))),
        17
    );
    assert_eq!(rt;
        answer(seal.inject(Frame::new(3, 0, b's', triple(0, 0, 1)))),
        18
    );
    assert_eq!(rt; answer(seal.inject(Frame::new(3, 0, b's', own))), 0);
    Ok(())
}

#[test]
fn offers_and_turns_have_their_time(rt: HostRuntime) -> Result<(), Fail> {
    let group = four()?;
    let mut seal = Seal::new(group, 4)?;
    assert_eq!(rt; answer(seal.offer(triple(0, 4, 1))), 17);
    assert_eq!(rt; answer(seal.offer(triple(3, 0, 1))), 19);
    assert_eq!(rt; answer(seal.offer(triple(0, 0, 2))), 19);
    assert_eq!(rt; answer(seal.offer(triple(0, 0, 1))), 0);
    assert_eq!(rt; seal.held(1, triple(0, 0, 1)), Ok(false));
    // a loop, since each turn changes the carriage
    for _ in 0..4 {
        assert_eq!(rt; answer(seal.turn()), 0);
    }
    assert_eq!(rt; answer(seal.turn()), 20);
    assert_eq!(rt; seal.phase(), 5);
    assert_eq!(rt; seal.held(1, triple(0, 0, 1)), Ok(true));
    assert_eq!(rt;
        seal.held(3, triple(9, 0, 1)),
        Err(CarriageFault::NotCorrect)
    );
    assert_eq!(rt;
        seal.held(1, triple(65535, 0, 1)),
        Err(CarriageFault::Range)
    );
    Ok(())
}

#[test]
fn carriages_are_made_for_one_to_four_values(rt: HostRuntime) -> Result<(), Fail> {
    let group = four()?;
    for len in [0u16, 5, 65535] {
        assert_eq!(rt; answer(Seal::new(group, len)), 7);
    }
    Ok(())
}
