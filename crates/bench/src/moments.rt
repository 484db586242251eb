// Which act fits which moment.
ghost use Rattle.agreement.specs.Views.{fits};
ghost use Rattle.std.specs.Prelude.{◌≡◌};

use agreement::{Act, Moment};

// A turn names the current phase, a close the current shot: one more than are closed.
pub(crate) fn act_fits(moment: Moment, closed: u16, act: Act) -> bool
    ensures { result ≡ fits moment closed act }
{
    match (moment, act) {
        (Moment::Idle, Act::Begin) => true,
        (Moment::Running(_), Act::Inject) => true,
        (Moment::Running(current), Act::Turn(phase)) => phase == current,
        (Moment::Ended, Act::Verdict) => true,
        (Moment::Ended, Act::Close(shot)) => shot as u32 == closed as u32 + 1,
        _ => false,
    }
}
