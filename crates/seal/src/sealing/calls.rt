// How a seal carriage is made, and its calls.
ghost use Rattle.carriage.specs.Model.{inject_fault, Turned};
ghost use Rattle.seal.specs.Seals.{is_seal, known_seal, seal_account, seal_fault, seal_model, state_of};
ghost use Rattle.seal.specs.State.{fresh_state, model_of};
ghost use Rattle.seal.specs.Story.{TellsTheRun};
ghost use Rattle.std.specs.Prelude.{◌≡◌, IfOk};
ghost use Rattle.std.specs.Result.{result_err};
ghost use Rattle.lists.specs.Lists.{length_fault};
ghost use Rattle.std.proofs.Common.{ap, sym, subst};
ghost use Rattle.std.proofs.Math.Logic.{∥∥₁_elim};
ghost use Rattle.carriage.proofs.Props.{lawful_prop};
ghost use Rattle.seal.specs.Kept;
ghost use Rattle.seal.specs.Kept.{turns_on_lem};

use super::Seal;
use crate::cells::Cell;
use carriage::{Carriage, Frame, Stage, Table, Timing, Triple};
use faults::{CarriageFault, ListFault};
use groups::Group;

impl Seal {
    // A carriage for a group and lists of `len` values, as after a start.
    pub fn new(group: Group, len: u16) -> Result<Seal, ListFault>
        ensures refusal { result_err result ≡ length_fault len }
        ensures value { IfOk result (λ c. state_of c ≡ fresh_state group len) }
        ensures runs { IfOk result TellsTheRun }
    {
        Ok(Seal {
            stage: Stage::new(group, len)?,
            table: Table::new(Cell::blank()),
        })
    }

    fn check_frame(&self, f: Frame) -> Result<(), CarriageFault>
        ensures { result_err result ≡ inject_fault (is_seal f) (known_seal (state_of self.now) f) (seal_model self.now) f }
    {
        self.stage.check_ends(f)?;
        // letters are kept as bytes, and matched as characters: any may stand in a frame
        match f.letter() {
            's' => self.check_seal(f.triple),
            _ => Err(CarriageFault::Letter),
        }
    }

    // A seal's triple is in range, and was offered if its origin is correct.
    fn check_seal(&self, x: Triple) -> Result<(), CarriageFault>
        ensures { result_err result ≡ seal_fault (state_of self.now) x }
    {
        self.stage.check_range(x)?;
        if self.stage.group().is_correct(x.origin) && !self.table.get(x).offered {
            return Err(CarriageFault::Seal);
        }
        Ok(())
    }
}

impl Carriage for Seal {
    ghost model = { seal_account.model };

    ghost reads_letter = { seal_account.reads_letter };

    ghost knows_seal = { seal_account.knows_seal };

    ghost starts = { seal_account.starts };

    ghost offers = { seal_account.offers };

    ghost injects = { seal_account.injects };

    ghost turns = { seal_account.turns };

    ghost lawful = { λ c. ∥∥₁_elim c.sound (lawful_prop (seal_model c)) (Kept.lawful (state_of c) c.stage.some c.stage.few c.stage.begun c.stage.ends) };

    ghost starts_afresh = { λ c d e. ap model_of e };

    ghost offers_one = { λ c x d e. ap model_of e.1 };

    ghost injects_nothing = { λ c f d e. ap model_of e.1 };

    ghost turns_on = { λ c d e. subst (λ s. Turned (seal_model c) (model_of s)) (sym e.1) (turns_on_lem (state_of c) c.sound) };

    fn start(&mut self) {
        self.stage.restart();
        self.table = Table::new(Cell::blank());
    }

    fn offer(&mut self, x: Triple) -> Result<(), CarriageFault> {
        self.stage.check_offer(x)?;
        self.table.update(
            x,
            |cell| Cell {
                offered: true,
                ..cell
            },
        );
        Ok(())
    }

    fn inject(&mut self, f: Frame) -> Result<(), CarriageFault> {
        self.check_frame(f)?;
        self.table.update(
            f.triple,
            |cell| Cell {
                told: cell.told.with(f.to),
                ..cell
            },
        );
        Ok(())
    }

    fn turn(&mut self) -> Result<(), CarriageFault> {
        let next = self.stage.next()?;
        let phase = self.stage.phase();
        let correct = self.stage.group().correct_ones();
        self.table.turn(|cell, round| cell.turned(Timing { phase, round }, correct));
        self.stage = next;
        Ok(())
    }

    fn held(&self, q: u16, x: Triple) -> Result<bool, CarriageFault> {
        let accepted = self.table.get(x).accepted.contains(q);
        self.stage.check_read(q, x, accepted)
    }

    fn group(&self) -> Group {
        self.stage.group()
    }

    fn list_len(&self) -> u16 {
        self.stage.list_len()
    }

    fn phase(&self) -> u16 {
        self.stage.phase()
    }
}
