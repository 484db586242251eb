// The acts of a campaign on a bench.
ghost use Rattle.agreement.specs.Steps.{fault_of, Does, close as closing};
ghost use Rattle.agreement.specs.Views.{rules_of};
ghost use Rattle.bench.specs.Views.{view_of};
ghost use Rattle.report.specs.Courses.{call_of, Tells, Closes};
ghost use Rattle.std.specs.Result.{result_err};
ghost use Rattle.std.specs.Prelude.{◌≡◌, MatchResult};

use agreement::BenchFault;
use bench::Bench;
use carriage::Carriage;
use lines::Happening;
use text::Act;
use values::Kind;

// Closes a shot and tells its sender and the verdict that the lowest correct controller showed before.
fn close<C: Carriage, K: Kind>(
    bench: &mut Bench<C>,
    list: &[K],
    shot: u16,
) -> Result<Happening, BenchFault>
    ensures refusal { result_err result ≡ fault_of C.Carriage (rules_of K.Kind.same K.Kind.charge list.now) (view_of bench.old) (closing shot) }
    ensures does { MatchResult result (λ h. Does C.Carriage (rules_of K.Kind.same K.Kind.charge list.now) (view_of bench.old) (closing shot) (view_of bench.new) × Closes C.Carriage (view_of bench.old) shot h) (λ _. bench.new ≡ bench.old) }
{
    let lowest = bench.group().lowest_correct();
    let shown = bench.verdict(lowest);
    let sent = bench.sender();
    bench.close(list, shot)?;
    Ok(Happening::Shot {
        shot,
        sender: sent.unwrap(),
        verdict: shown.unwrap(),
    })
}

// Does what the act says; only a close is told.
pub(crate) fn perform<C: Carriage, K: Kind>(
    bench: &mut Bench<C>,
    list: &[K],
    act: &Act<K>,
) -> Result<Option<Happening>, BenchFault>
    ensures refusal { result_err result ≡ fault_of C.Carriage (rules_of K.Kind.same K.Kind.charge list.now) (view_of bench.old) (call_of act.now) }
    ensures does { MatchResult result (λ h. Does C.Carriage (rules_of K.Kind.same K.Kind.charge list.now) (view_of bench.old) (call_of act.now) (view_of bench.new) × Tells C.Carriage (view_of bench.old) (call_of act.now) h) (λ _. bench.new ≡ bench.old) }
{
    match act {
        Act::Begin { sender, value } => {
            bench.begin(list, *sender, value.as_ref())?;
            Ok(None)
        }
        Act::Inject(injection) => {
            bench.inject(injection.into())?;
            Ok(None)
        }
        Act::Turn(phase) => {
            bench.turn(*phase)?;
            Ok(None)
        }
        Act::Close(shot) => Ok(Some(close(bench, list, *shot)?)),
    }
}
