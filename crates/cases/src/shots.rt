// Whole shots over both carriages: a sender that is believed, a marked sender that tells two stories, a block that
// retires at its third charge, and the refusals of a bench by their numbers.
use crate::shared::{answer, four, triple};
use agreement::{BenchFault, Verdict};
use bench::Bench;
use benches::{open_echo, open_seal};
use carriage::{Carriage, Frame};
use echo::Echo;
use laboratory::{Order, three_shots, two_readings};
use seal::Seal;
use std::test::Fail;
use values::{Notice, Outcome, PulseReport};

// Controller 3 sends with one letter the first value to controller 0 and the second to controllers 1 and 2.
fn tell_two_stories<C: Carriage>(bench: &mut Bench<C>, letter: u8) -> Result<(), BenchFault> {
    bench.inject(Frame::new(3, 0, letter, triple(3, 0, 1)))?;
    bench.inject(Frame::new(3, 1, letter, triple(3, 1, 1)))?;
    bench.inject(Frame::new(3, 2, letter, triple(3, 1, 1)))?;
    bench.turn(1)
}

#[test]
fn two_stories_over_echo(rt: HostRuntime) -> Result<(), Fail> {
    let group = four()?;
    let list = [
        Notice::new(Outcome::Failed, 5, 0)?,
        Notice::new(Outcome::Failed, 9, 0)?,
    ];
    let mut bench = open_echo(group, &list)?;
    let order = Order {
        sender: 3,
        value: None,
        frames: &[],
    };
    bench.begin(&list, order.sender, order.value)?;
    tell_two_stories(&mut bench, b'i')?;
    bench.inject(Frame::new(3, 0, b'e', triple(3, 1, 1)))?;
    // a loop, since each turn changes the bench
    for phase in 2..5u16 {
        bench.turn(phase)?;
    }
    // a loop, since a verdict may be refused
    for q in 0..3u16 {
        assert_eq!(rt; bench.verdict(q)?, Verdict::Place(1));
    }
    bench.close(&list, 1)?;
    assert_eq!(rt; bench.tally(0, 9)?, 1);
    assert_eq!(rt; bench.tally(2, 5)?, 0);
    Ok(())
}

#[test]
fn two_stories_over_seal(rt: HostRuntime) -> Result<(), Fail> {
    let group = four()?;
    let list = [PulseReport::new(5, 8)?, PulseReport::new(9, 3)?];
    let mut bench = open_seal(group, &list)?;
    let order = Order {
        sender: 3,
        value: None,
        frames: &[],
    };
    bench.begin(&list, order.sender, order.value)?;
    tell_two_stories(&mut bench, b's')?;
    // a loop, since each turn changes the bench
    for phase in 2..5u16 {
        bench.turn(phase)?;
    }
    // a loop, since a verdict may be refused
    for q in 0..3u16 {
        assert_eq!(rt; bench.verdict(q)?, Verdict::SenderFaulty);
    }
    bench.close(&list, 1)?;
    assert_eq!(rt; bench.tally(1, 5)?, 0);
    Ok(())
}

#[test]
fn a_bench_refuses_by_number(rt: HostRuntime) -> Result<(), Fail> {
    let group = four()?;
    let a = Notice::new(Outcome::Failed, 5, 0)?;
    let b = Notice::new(Outcome::Passed, 5, 0)?;
    let mut bench = open_echo(group, &[a])?;
    assert_eq!(rt; answer(bench.turn(1)), 9);
    assert_eq!(rt; answer(bench.close(&[a], 1)), 9);
    assert_eq!(rt; bench.verdict(0), Err(BenchFault::Moment));
    assert_eq!(rt; answer(bench.begin(&[a, b], 0, Some(&a))), 7);
    assert_eq!(rt; answer(bench.begin(&[a], 65535, Some(&b))), 10);
    assert_eq!(rt; answer(bench.begin(&[a], 3, Some(&a))), 11);
    assert_eq!(rt; answer(bench.begin(&[a], 0, Some(&b))), 12);
    assert_eq!(rt; answer(bench.begin(&[a], 0, Some(&a))), 0);
    assert_eq!(rt; answer(bench.begin(&[a, b], 9, Some(&a))), 9);
    assert_eq!(rt; answer(bench.turn(2)), 9);
    assert_eq!(rt;
        answer(bench.inject(Frame::new(1, 0, b'e', triple(3, 0, 1)))),
        14
    );
    assert_eq!(rt;
        bench.tally(3, 64).is_err() && bench.tally(3, 0).is_err(),
        true
    );
    Ok(())
}

#[test]
fn a_block_retires_at_its_third_charge(rt: HostRuntime) -> Result<(), Fail> {
    let group = four()?;
    let list = [PulseReport::new(63, 8)?];
    let carriage = Echo::new(group, 1)?;
    let order = Order {
        sender: 0,
        value: Some(&list[0]),
        frames: &[],
    };
    let passages = three_shots(carriage, &list, &order, 1, 63)?;
    assert_eq!(rt; passages.second.tally, 2);
    assert_eq!(rt; passages.third.tally, 3);
    Ok(())
}

#[test]
fn two_controllers_read_the_same(rt: HostRuntime) -> Result<(), Fail> {
    let group = four()?;
    let list = [Notice::new(Outcome::Failed, 5, 0)?];
    let carriage = Seal::new(group, 1)?;
    let order = Order {
        sender: 3,
        value: None,
        frames: &[Frame::new(3, 1, b's', triple(3, 0, 1))],
    };
    let readings = two_readings(carriage, &list, &order, 0, 2, 5)?;
    assert_eq!(rt; readings.first, Verdict::Place(0));
    assert_eq!(rt; readings.second_tally, 1);
    Ok(())
}
