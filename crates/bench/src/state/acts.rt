// The calls that change a bench: begin, inject, turn and close. A refused call changes nothing.
ghost use Rattle.std.specs.Prelude.{◌≡◌, ◌<◌, MatchResult};
ghost use Rattle.agreement.specs.Refusals.{given, begin_fault, inject_refusal, turn_refusal, close_fault};
ghost use Rattle.agreement.specs.Steps.{Begun, Injected, TurnTaken, after_close};
ghost use Rattle.agreement.specs.Views.{rules_of};
ghost use Rattle.bench.specs.Inner.{Startable};
ghost use Rattle.bench.specs.Views.{view_of};
ghost use Rattle.std.specs.Option.{option_map};
ghost use Rattle.std.specs.Result.{result_err};

use super::Bench;
use super::checks::check_length;
use crate::charging::charge_all;
use crate::offers::{offer_next, start_shot};
use crate::places::Extracted;
use crate::rounds::Round;
use crate::shots::{Progress, Shot};
use agreement::{Act, BenchFault};
use carriage::{Carriage, Frame};
use values::Kind;

impl<C: Carriage> Bench<C> {
    // Begins a shot of this sender, which is given a value of the list or none.
    pub fn begin<K: Kind>(
        &mut self,
        list: &[K],
        sender: u16,
        value: Option<&K>,
    ) -> Result<(), BenchFault>
        ensures refusal { result_err result ≡ begin_fault C.Carriage (rules_of K.Kind.same K.Kind.charge list.now) (view_of self.old) sender (option_map (λ x. x.now) value.entry) }
        ensures does { MatchResult result (λ _. Begun C.Carriage sender (given (rules_of K.Kind.same K.Kind.charge list.now) (option_map (λ x. x.now) value.entry)) (view_of self.old) (view_of self.new)) (λ _. self.new ≡ self.old) }
    {
        let place = self.check_begin(list, sender, value)?;
        self.start(sender, place);
        Ok(())
    }

    fn start(&mut self, sender: u16, place: Option<u16>)
        requires { (self.old.progress.closed < 999) × (Startable (C.Carriage.model self.old.carriage) sender place) }
        ensures { Begun C.Carriage sender place (view_of self.old) (view_of self.new) }
    {
        start_shot(&mut self.carriage, sender, place);
        self.extracted = Extracted::first(sender, place);
        self.progress = Progress {
            shot: Shot::Running(sender),
            closed: self.progress.closed,
        };
    }

    // A frame of a marked controller, as the laboratory writes it.
    pub fn inject(&mut self, frame: Frame) -> Result<(), BenchFault>
        ensures refusal { result_err result ≡ inject_refusal C.Carriage (view_of self.old) frame }
        ensures does { MatchResult result (λ _. Injected C.Carriage frame (view_of self.old) (view_of self.new)) (λ _. self.new ≡ self.old) }
    {
        self.check_moment(Act::Inject)?;
        self.carriage.inject(frame)?;
        Ok(())
    }

    // Ends the current phase, which the caller names.
    pub fn turn(&mut self, phase: u16) -> Result<(), BenchFault>
        ensures refusal { result_err result ≡ turn_refusal C.Carriage (view_of self.old) phase }
        ensures does { MatchResult result (λ _. TurnTaken C.Carriage (view_of self.old) (view_of self.new)) (λ _. self.new ≡ self.old) }
    {
        self.check_moment(Act::Turn(phase))?;
        self.carriage.turn().unwrap();
        if phase % 2 == 0 {
            let round = Round {
                carriage: &self.carriage,
                sender: self.progress.shot.sender(),
                before: &self.extracted,
                number: phase / 2,
            };
            let news = round.new_places();
            self.extracted.add(&news);
            offer_next(&mut self.carriage, &news, phase / 2);
        }
        Ok(())
    }

    // Closes the current shot, which the caller names: every correct controller charges by its own verdict.
    pub fn close<K: Kind>(&mut self, list: &[K], shot: u16) -> Result<(), BenchFault>
        ensures refusal { result_err result ≡ close_fault C.Carriage (rules_of K.Kind.same K.Kind.charge list.now) (view_of self.old) shot }
        ensures does { MatchResult result (λ _. view_of self.new ≡ after_close C.Carriage (rules_of K.Kind.same K.Kind.charge list.now) (view_of self.old)) (λ _. self.new ≡ self.old) }
    {
        self.check_moment(Act::Close(shot))?;
        check_length(&self.carriage, list)?;
        let group = self.carriage.group();
        charge_all(&mut self.registers, &group, &self.extracted, list);
        self.progress = Progress {
            shot: Shot::Closed(self.progress.shot.sender()),
            closed: self.progress.closed + 1,
        };
        Ok(())
    }
}
