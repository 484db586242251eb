// A marked sender sends one value to controller 0 and another to the rest: the correct controllers agree all the same.
ghost use Rattle.agreement.specs.Law.{opened};
ghost use Rattle.agreement.specs.Refusals.{inject_refusal, turn_refusal, verdict_answer};
ghost use Rattle.agreement.specs.Runs.{Run};
ghost use Rattle.agreement.specs.Steps.{Injected, TurnTaken};
ghost use Rattle.agreement.specs.Views.{rules_of};
ghost use Rattle.agreement.specs.declared.bench_faults.BenchFault.TheVariants.{List};
ghost use Rattle.agreement.specs.declared.moments.Verdict.TheVariants.{Place};
ghost use Rattle.bench.specs.Views.{view_of};
ghost use Rattle.echo.specs.Echoes.{echo_account};
ghost use Rattle.std.specs.Option.{option_map};
ghost use Rattle.std.specs.Prelude.{◌≡◌, true, [], ◌∷◌, length, is_ok, IfOk, None, Ok, OnOk};
ghost use Rattle.std.specs.Result.{result_err};
ghost use Rattle.worked.specs.Stories.{MadeForFour, TwoStories, pair_fault, story_told_to, both_stories};

use crate::four_group::four_controllers;
use agreement::{BenchFault, Verdict};
use bench::Bench;
use carriage::{Carriage, Frame, Triple};
use echo::Echo;
use values::Kind;

// Controller 3 vouches, to one controller, for the value at a place.
fn told_to(to: u16, letter: u8, place: u16) -> Frame
    ensures { result ≡ story_told_to to letter place }
{
    let triple = Triple {
        origin: 3,
        place,
        round: 1,
    };
    Frame::new(3, to, letter, triple)
}

// Such a frame, at a moment when it is taken.
fn tell(bench: &mut Bench<Echo>, to: u16, letter: u8, place: u16)
    requires { inject_refusal echo_account (view_of bench.old) (story_told_to to letter place) ≡ None }
    ensures { Injected echo_account (story_told_to to letter place) (view_of bench.old) (view_of bench.new) }
{
    bench.inject(told_to(to, letter, place)).unwrap();
}

// The turn of the current phase.
fn turn_on(bench: &mut Bench<Echo>, phase: u16)
    requires { turn_refusal echo_account (view_of bench.old) phase ≡ None }
    ensures { TurnTaken echo_account (view_of bench.old) (view_of bench.new) }
{
    bench.turn(phase).unwrap();
}

// A marked sender is given no value of the list.
fn no_value<K>(_list: &[K]) -> Option<&K>
    ensures { option_map (λ x. x.now) result ≡ None }
{
    None
}

// Controller 3 tells its two stories, and all phases are turned.
fn play<K: Kind>(bench: &mut Bench<Echo>, list: &[K])
    requires fresh { view_of bench.old ≡ opened (view_of bench.old).carriage }
    requires four { MadeForFour (view_of bench.old).carriage }
    requires two { length list.now ≡ 2 }
    ensures { Run echo_account (rules_of K.Kind.same K.Kind.charge list.now) (view_of bench.old) both_stories (view_of bench.new) }
{
    bench.begin(list, 3, no_value(list)).unwrap();
    tell(bench, 0, b'i', 0);
    tell(bench, 1, b'i', 1);
    tell(bench, 2, b'i', 1);
    turn_on(bench, 1);
    tell(bench, 0, b'e', 1);
    turn_on(bench, 2);
    turn_on(bench, 3);
    turn_on(bench, 4);
}

// What a controller shows, at a moment when it may be asked.
fn shown_by(bench: &Bench<Echo>, q: u16) -> Verdict
    requires { is_ok (verdict_answer echo_account (view_of bench.now) q) ≡ true }
    ensures { verdict_answer echo_account (view_of bench.now) q ≡ Ok result }
{
    bench.verdict(q).unwrap()
}

// Plays and closes one shot over the echo carriage with this list of two values: controller 3 is marked and sends the
// first value to controller 0, the second to 1 and 2. Answers what 0, 1 and 2 show before the close: all the second value.
pub fn two_stories<K: Kind>(list: &[K]) -> Result<[Verdict; 3], BenchFault>
    ensures refusal { result_err result ≡ option_map List (pair_fault K.Kind.same list.now) }
    ensures shown { IfOk result (λ verdicts. verdicts ≡ Place 1 ∷ Place 1 ∷ Place 1 ∷ []) }
    ensures run { OnOk result (TwoStories (rules_of K.Kind.same K.Kind.charge list.now)) }
{
    let carriage = Echo::new(four_controllers(), 2).unwrap();
    let mut bench = Bench::open(carriage, list)?;
    play(&mut bench, list);
    let verdicts = [
        shown_by(&bench, 0),
        shown_by(&bench, 1),
        shown_by(&bench, 2),
    ];
    bench.close(list, 1).unwrap();
    Ok(verdicts)
}
