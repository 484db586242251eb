// Checks that every carriage makes, in whatever form it keeps its group, list length and phase, and one that a laboratory
// can run on any carriage.
ghost use Rattle.carriage.specs.Checks.{Went, before_turn, relay_fault};
ghost use Rattle.carriage.specs.Model.{frame_cause, offer_cause, range_cause, read_answer};
ghost use Rattle.std.specs.Prelude.{◌≡◌, true, IfOk, None};
ghost use Rattle.std.specs.Result.{result_err};

use crate::frames::{Frame, Triple};
use crate::meaning::Carriage;
use crate::timing::Timing;
use faults::CarriageFault;
use groups::Group;

// Refuses a triple that the group does not know.
pub fn check_range(group: &Group, len: u16, x: Triple) -> Result<(), CarriageFault>
    ensures { result_err result ≡ range_cause group.now len x }
{
    if !x.in_range(group, len) {
        return Err(CarriageFault::Range);
    }
    Ok(())
}

// Refuses an offer of a triple out of range, then one by a marked controller or in a wrong phase.
pub fn check_offer(group: &Group, len: u16, phase: u16, x: Triple) -> Result<(), CarriageFault>
    ensures { result_err result ≡ offer_cause group.now len phase x }
{
    check_range(group, len, x)?;
    let round = x.round;
    let now = Timing { phase, round };
    if !group.is_correct(x.origin) || !now.is_first() {
        return Err(CarriageFault::Offer);
    }
    Ok(())
}

// Refuses a frame that is not from a marked controller, then one that is not to a correct one.
pub fn check_ends(group: &Group, f: Frame) -> Result<(), CarriageFault>
    ensures { result_err result ≡ frame_cause group.now f None }
{
    if !group.is_marked(f.from) {
        return Err(CarriageFault::From);
    }
    if !group.is_correct(f.to) {
        return Err(CarriageFault::NotCorrect);
    }
    Ok(())
}

// What a correct controller knows of a triple in range; refuses any other controller, then any other triple.
pub fn check_read(
    group: &Group,
    len: u16,
    q: u16,
    x: Triple,
    known: bool,
) -> Result<bool, CarriageFault>
    ensures { result ≡ read_answer group.now len q x known }
{
    if !group.is_correct(q) {
        return Err(CarriageFault::NotCorrect);
    }
    check_range(group, len, x)?;
    Ok(known)
}

// Takes a turn, and says whether `r` then holds the triple if `q` held it before: it always does.
pub fn relay_holds<C: Carriage>(c: &mut C, q: u16, r: u16, x: Triple) -> Result<bool, CarriageFault>
    ensures refusal { result_err result ≡ relay_fault (C.Carriage.model c.old) q r x }
    ensures does { Went (before_turn (C.Carriage.model c.old) q x) (C.Carriage.turns c.old c.new) (c.new ≡ c.old) }
    ensures holds { IfOk result (λ holds. holds ≡ true) }
{
    let before = c.held(q, x)?;
    c.turn()?;
    let after = c.held(r, x)?;
    Ok(!before || after)
}
