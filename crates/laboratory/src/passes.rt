// A whole shot: begun, its frames injected, every phase turned.
ghost use Rattle.agreement.specs.Refusals.{begin_fault};
ghost use Rattle.agreement.specs.Views.{rules_of};
ghost use Rattle.bench.specs.Views.{view_of};
ghost use Rattle.laboratory.specs.Passing.{Passed, Turnable, Played};
ghost use Rattle.std.specs.Option.{option_map};
ghost use Rattle.std.specs.Prelude.{◌≡◌, OnOk};
ghost use Rattle.std.specs.Result.{result_err};

use agreement::BenchFault;
use bench::Bench;
use carriage::{Carriage, Frame};
use values::Kind;

// What a shot is begun with, and the frames that the laboratory writes for its first phase.
#[derive(Drop)]
pub struct Order<'a, K> {
    pub sender: u16,
    pub value: Option<&'a K>,
    pub frames: &'a [Frame],
}

// Injects what is taken of the frames.
fn inject_all<C: Carriage>(bench: &mut Bench<C>, frames: &[Frame])
    ensures { Passed C.Carriage (view_of bench.old) 0 (view_of bench.new) }
{
    for frame in frames {
        let _ = bench.inject(*frame);
    }
}

// Turns the first phases of a shot just begun. None of these turns is refused.
fn turn_all<C: Carriage>(bench: &mut Bench<C>, count: u16)
    requires { Turnable C.Carriage (view_of bench.old) count }
    ensures { Passed C.Carriage (view_of bench.old) count (view_of bench.new) }
{
    // a loop, since each turn changes the bench
    for phase in 1..count + 1 {
        bench.turn(phase).unwrap();
    }
}

// Begins the shot, injects its frames and turns all its phases. Only the begin can be refused.
pub(crate) fn play<C: Carriage, K: Kind>(
    bench: &mut Bench<C>,
    list: &[K],
    order: &Order<'_, K>,
) -> Result<(), BenchFault>
    ensures refusal { result_err result ≡ begin_fault C.Carriage (rules_of K.Kind.same K.Kind.charge list.now) (view_of bench.old) order.now.sender (option_map (λ x. x.now) order.now.value) }
    ensures played { OnOk result (Played C.Carriage (rules_of K.Kind.same K.Kind.charge list.now) order.now.sender (option_map (λ x. x.now) order.now.value) (view_of bench.old) (view_of bench.new)) }
{
    bench.begin(list, order.sender, order.value)?;
    inject_all(bench, order.frames);
    let turns = 2 * (bench.group().t() + 1);
    turn_all(bench, turns);
    Ok(())
}
