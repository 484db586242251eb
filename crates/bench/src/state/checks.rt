// What a bench looks at before it takes a call.
ghost use Rattle.std.specs.Prelude.{◌≡◌, ◌≤◌, length, IfOk};
ghost use Rattle.agreement.specs.Refusals.{moment_fault, length_cause, reader_fault, shots_fault, sender_fault, value_fault, given, begin_fault};
ghost use Rattle.agreement.specs.Views.{moment_of, rules_of};
ghost use Rattle.bench.specs.Views.{view_of};
ghost use Rattle.std.specs.Option.{option_map};
ghost use Rattle.std.specs.Result.{result_err};

use super::Bench;
use crate::moments::act_fits;
use agreement::{Act, BenchFault, Moment};
use carriage::Carriage;
use faults::{CarriageFault, ListFault};
use groups::Group;
use lists::place;
use values::Kind;

// The list is as long as the carriage says.
pub(super) fn check_length<C: Carriage, K: Kind>(carriage: &C, list: &[K]) -> Result<(), ListFault>
    ensures { result_err result ≡ length_cause (C.Carriage.model carriage.now) list.now }
{
    if list.len() != carriage.list_len() as usize {
        return Err(ListFault::Length);
    }
    Ok(())
}

// The place of the value that a sender is given.
fn find_given<K: Kind>(list: &[K], value: Option<&K>) -> Result<Option<u16>, BenchFault>
    requires { length list.now ≤ 4 }
    ensures refusal { result_err result ≡ value_fault (rules_of K.Kind.same K.Kind.charge list.now) (option_map (λ x. x.now) value.entry) }
    ensures place { IfOk result (λ p. p ≡ given (rules_of K.Kind.same K.Kind.charge list.now) (option_map (λ x. x.now) value.entry)) }
{
    let Some(wanted) = value else {
        return Ok(None);
    };
    let p = place(list, wanted).ok_or(BenchFault::NotListed)?;
    Ok(Some(p as u16))
}

// The sender is in the group, and a marked one is given no value.
fn check_sender(group: &Group, sender: u16, given: bool) -> Result<(), BenchFault>
    ensures { result_err result ≡ sender_fault group.now sender given }
{
    if sender >= group.n() {
        return Err(BenchFault::Sender);
    }
    if group.is_marked(sender) && given {
        return Err(BenchFault::MarkedSender);
    }
    Ok(())
}

impl<C: Carriage> Bench<C> {
    // Where the bench stands.
    pub fn moment(&self) -> Moment
        ensures { result ≡ moment_of C.Carriage (view_of self.now) }
    {
        if !self.progress.shot.is_running() {
            return Moment::Idle;
        }
        let phase = self.carriage.phase();
        let group = self.carriage.group();
        if phase == 2 * group.t() + 3 {
            Moment::Ended
        } else {
            Moment::Running(phase)
        }
    }

    // The act is one of this moment.
    pub(super) fn check_moment(&self, act: Act) -> Result<(), BenchFault>
        ensures { result_err result ≡ moment_fault C.Carriage (view_of self.now) act }
    {
        if !act_fits(self.moment(), self.progress.closed, act) {
            return Err(BenchFault::Moment);
        }
        Ok(())
    }

    // Only a correct controller is read.
    pub(super) fn check_reader(&self, q: u16) -> Result<(), BenchFault>
        ensures { result_err result ≡ reader_fault C.Carriage (view_of self.now) q }
    {
        if !self.carriage.group().is_correct(q) {
            return Err(BenchFault::Carriage(CarriageFault::NotCorrect));
        }
        Ok(())
    }

    // A shot may still be begun.
    fn check_shots(&self) -> Result<(), BenchFault>
        ensures { result_err result ≡ shots_fault self.now.progress.closed }
    {
        if self.progress.closed >= 999 {
            return Err(BenchFault::Shots);
        }
        Ok(())
    }

    // All that a begin looks at, in its order; then the place of the value given, if one was.
    pub(super) fn check_begin<K: Kind>(
        &self,
        list: &[K],
        sender: u16,
        value: Option<&K>,
    ) -> Result<Option<u16>, BenchFault>
        ensures refusal { result_err result ≡ begin_fault C.Carriage (rules_of K.Kind.same K.Kind.charge list.now) (view_of self.now) sender (option_map (λ x. x.now) value.entry) }
        ensures place { IfOk result (λ p. p ≡ given (rules_of K.Kind.same K.Kind.charge list.now) (option_map (λ x. x.now) value.entry)) }
    {
        self.check_moment(Act::Begin)?;
        check_length(&self.carriage, list)?;
        self.check_shots()?;
        check_sender(&self.carriage.group(), sender, value.is_some())?;
        find_given(list, value)
    }
}
