// What correct controllers read is the same, and a block is out of the pool at the third shot that charges it.
ghost use Rattle.agreement.specs.Refusals.{first, begin_fault};
ghost use Rattle.agreement.specs.Views.{rules_of, model_of};
ghost use Rattle.bench.specs.Views.{view_of};
ghost use Rattle.laboratory.specs.Passing.{read_fault, reader_at, shot_fault};
ghost use Rattle.laboratory.specs.Retiring.{PassedOnce, Retires};
ghost use Rattle.std.specs.Option.{option_map};
ghost use Rattle.std.specs.Prelude.{◌≡◌, IfOk};
ghost use Rattle.std.specs.Result.{result_err};

use crate::passes::{Order, play};
use agreement::{BenchFault, Verdict};
use bench::Bench;
use carriage::Carriage;
use values::Kind;

// What two controllers showed of one shot: their verdicts before its close, and their tallies of one block after it.
#[derive(Clone, Copy, Debug, PartialEq, Eq)]
pub struct Readings {
    pub first: Verdict,
    pub second: Verdict,
    pub first_tally: u16,
    pub second_tally: u16,
}

// Runs one shot on a bench of its own, and reads controllers q and r: what they show is equal. Refused as the opening, the
// begin and the reads are.
pub fn two_readings<C: Carriage + Drop, K: Kind>(
    carriage: C,
    list: &[K],
    order: &Order<'_, K>,
    q: u16,
    r: u16,
    block: u16,
) -> Result<Readings, BenchFault>
    ensures refusal { result_err result ≡ first (shot_fault C.Carriage (rules_of K.Kind.same K.Kind.charge list.now) carriage order.now.sender (option_map (λ x. x.now) order.now.value)) (first (reader_at (C.Carriage.model carriage) q) (read_fault (C.Carriage.model carriage) r block)) }
    ensures same { IfOk result (λ x. (x.first ≡ x.second) × (x.first_tally ≡ x.second_tally)) }
{
    let mut bench = Bench::open(carriage, list)?;
    play(&mut bench, list, order)?;
    let first = bench.verdict(q)?;
    let second = bench.verdict(r)?;
    bench.close(list, 1).unwrap();
    let first_tally = bench.tally(q, block)?;
    let second_tally = bench.tally(r, block)?;
    Ok(Readings {
        first,
        second,
        first_tally,
        second_tally,
    })
}

// What a controller showed of a shot, and its tally of one block after the close.
#[derive(Clone, Copy, Debug, PartialEq, Eq)]
pub struct Passage {
    pub verdict: Verdict,
    pub tally: u16,
}

// Plays and closes one shot of the bench; refused as the begin and the reads are. No struct has (list, order, q, block):
// it would be made once for each of the two functions that use it.
fn pass_once<C: Carriage, K: Kind>(
    bench: &mut Bench<C>,
    list: &[K],
    order: &Order<'_, K>,
    q: u16,
    block: u16,
) -> Result<Passage, BenchFault>
    ensures refusal { result_err result ≡ first (begin_fault C.Carriage (rules_of K.Kind.same K.Kind.charge list.now) (view_of bench.old) order.now.sender (option_map (λ x. x.now) order.now.value)) (read_fault (model_of C.Carriage (view_of bench.old)) q block) }
    ensures passed { IfOk result (λ p. PassedOnce C.Carriage (rules_of K.Kind.same K.Kind.charge list.now) q block p (view_of bench.old) (view_of bench.new)) }
{
    play(bench, list, order)?;
    let verdict = bench.verdict(q)?;
    let shot = bench.closed() + 1;
    bench.close(list, shot).unwrap();
    let tally = bench.tally(q, block)?;
    Ok(Passage { verdict, tally })
}

// Three passages, in their order.
#[derive(Clone, Copy, Debug, PartialEq, Eq)]
pub struct Passages {
    pub first: Passage,
    pub second: Passage,
    pub third: Passage,
}

// Runs three shots of one order on a bench of its own. A tally counts the shots whose verdict charged the block, up to 3:
// where all three charge it, it is out of the pool after the third and not after the second.
pub fn three_shots<C: Carriage + Drop, K: Kind>(
    carriage: C,
    list: &[K],
    order: &Order<'_, K>,
    q: u16,
    block: u16,
) -> Result<Passages, BenchFault>
    ensures refusal { result_err result ≡ first (shot_fault C.Carriage (rules_of K.Kind.same K.Kind.charge list.now) carriage order.now.sender (option_map (λ x. x.now) order.now.value)) (read_fault (C.Carriage.model carriage) q block) }
    ensures retires { IfOk result (λ x. Retires (rules_of K.Kind.same K.Kind.charge list.now) block x) }
{
    let mut bench = Bench::open(carriage, list)?;
    let first = pass_once(&mut bench, list, order, q, block)?;
    let second = pass_once(&mut bench, list, order, q, block).unwrap();
    let third = pass_once(&mut bench, list, order, q, block).unwrap();
    Ok(Passages {
        first,
        second,
        third,
    })
}
