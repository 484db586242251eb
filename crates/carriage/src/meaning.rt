// The trait of a carriage: what it stands for, its laws, and exact contracts on its calls.
//
// Three things are free for a carriage of somebody else's, and nothing else:
// - which triples its correct controllers accept, and at which turn, within the laws: nothing accepted is lost, what
//   one correct controller had accepted before a turn all have accepted after it, a triple of a correct origin is
//   accepted only if it was offered, and an offered triple of round i is accepted by all once phase 2i is turned;
// - `reads_letter`, its rule for the letters that it refuses with fault 16;
// - `knows_seal`, its rule for the seals that it refuses with fault 18.
//
// `starts`, `offers`, `injects` and `turns` are the carriage's own account of each taken call. They may say more than
// the model does; each keeps the meaning by a law.
ghost use Rattle.carriage.specs.Model.{Model, Lawful, Turned, afresh, offer_fault, after_offer, inject_fault, turn_fault, held_answer};
ghost use Rattle.carriage.specs.declared.frames.Frame.{Frame};
ghost use Rattle.carriage.specs.declared.frames.Triple.{Triple};
ghost use Rattle.std.specs.Result.{result_err};
ghost use Rattle.std.specs.Prelude.{◌≡◌, Bool, MatchResult};

use crate::frames::{Frame, Triple};
use faults::CarriageFault;
use groups::Group;

pub trait Carriage {
    ghost model: { Self → Model };

    ghost reads_letter: { Self → Frame → Bool };

    ghost knows_seal: { Self → Frame → Bool };

    ghost starts: { Self → Self → Type 0 };

    ghost offers: { Self → Triple → Self → Type 0 };

    ghost injects: { Self → Frame → Self → Type 0 };

    ghost turns: { Self → Self → Type 0 };

    // Begins anew, in phase 1, with nothing offered and nothing accepted.
    fn start(&mut self)
        ensures { starts self.old self.new };

    // A correct controller sends a triple of its own, in the first phase of the triple's round.
    fn offer(&mut self, x: Triple) -> Result<(), CarriageFault>
        ensures refusal { result_err result ≡ offer_fault (model self.old) x }
        ensures does { MatchResult result (λ _. offers self.old x self.new) (λ _. self.new ≡ self.old) };

    // A marked controller's frame, written by the laboratory, heard in the current phase.
    fn inject(&mut self, f: Frame) -> Result<(), CarriageFault>
        ensures refusal { result_err result ≡ inject_fault (reads_letter self.old f) (knows_seal self.old f) (model self.old) f }
        ensures does { MatchResult result (λ _. injects self.old f self.new) (λ _. self.new ≡ self.old) };

    // Ends the current phase: every correct controller takes its step.
    fn turn(&mut self) -> Result<(), CarriageFault>
        ensures refusal { result_err result ≡ turn_fault (model self.old) }
        ensures does { MatchResult result (λ _. turns self.old self.new) (λ _. self.new ≡ self.old) };

    // Whether the correct controller `q` has accepted the triple.
    fn held(&self, q: u16, x: Triple) -> Result<bool, CarriageFault>
        ensures { result ≡ held_answer (model self.now) q x };

    fn group(&self) -> Group
        ensures { result ≡ (model self.now).group };

    fn list_len(&self) -> u16
        ensures { result ≡ (model self.now).len };

    fn phase(&self) -> u16
        ensures { result ≡ (model self.now).phase };

    ghost lawful: { (c : Self) → Lawful (model c) };

    ghost starts_afresh: { (c d : Self) → starts c d → model d ≡ afresh (model c) };

    ghost offers_one: { (c : Self) (x : Triple) (d : Self) → offers c x d → model d ≡ after_offer (model c) x };

    ghost injects_nothing: { (c : Self) (f : Frame) (d : Self) → injects c f d → model d ≡ model c };

    ghost turns_on: { (c d : Self) → turns c d → Turned (model c) (model d) };
}
