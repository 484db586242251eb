// How an echo carriage is made, and its calls.
ghost use Rattle.carriage.specs.Model.{inject_fault, Turned};
ghost use Rattle.echo.specs.Echoes.{any_seal, echo_account, echo_model, is_echo_letter, state_of, witness_answer};
ghost use Rattle.echo.specs.State.{fresh_state, counts_as_init, counts_as_echo, model_of};
ghost use Rattle.echo.specs.Story.{TellsTheRun};
ghost use Rattle.std.specs.Prelude.{◌≡◌, IfOk};
ghost use Rattle.std.specs.Result.{result_err};
ghost use Rattle.lists.specs.Lists.{length_fault};
ghost use Rattle.std.proofs.Common.{ap, sym, subst};
ghost use Rattle.std.proofs.Math.Logic.{∥∥₁_elim};
ghost use Rattle.carriage.proofs.Props.{lawful_prop};
ghost use Rattle.echo.specs.Kept;
ghost use Rattle.echo.specs.Kept.{turns_on_lem};

use super::Echo;
use crate::cells::Cell;
use carriage::{Carriage, Frame, Stage, Table, Timing, Triple};
use faults::{CarriageFault, ListFault};
use groups::Group;

impl Echo {
    // A carriage for a group and lists of `len` values, as after a start.
    pub fn new(group: Group, len: u16) -> Result<Echo, ListFault>
        ensures refusal { result_err result ≡ length_fault len }
        ensures value { IfOk result (λ c. state_of c ≡ fresh_state group len) }
        ensures runs { IfOk result TellsTheRun }
    {
        Ok(Echo {
            stage: Stage::new(group, len)?,
            table: Table::new(Cell::blank()),
        })
    }

    // Whether the correct controller `q` is a witness of the triple.
    pub fn witness(&self, q: u16, x: Triple) -> Result<bool, CarriageFault>
        ensures { result ≡ witness_answer (state_of self.now) q x }
    {
        let witness = self.table.get(x).witness.contains(q);
        self.stage.check_read(q, x, witness)
    }

    fn check_frame(&self, f: Frame) -> Result<(), CarriageFault>
        ensures { result_err result ≡ inject_fault (is_echo_letter f) (any_seal f) (echo_model self.now) f }
    {
        self.stage.check_ends(f)?;
        // letters are kept as bytes, and matched as characters: any may stand in a frame
        match f.letter() {
            'i' | 'e' => self.stage.check_range(f.triple),
            _ => Err(CarriageFault::Letter),
        }
    }
}

impl Carriage for Echo {
    ghost model = { echo_account.model };

    ghost reads_letter = { echo_account.reads_letter };

    ghost knows_seal = { echo_account.knows_seal };

    ghost starts = { echo_account.starts };

    ghost offers = { echo_account.offers };

    ghost injects = { echo_account.injects };

    ghost turns = { echo_account.turns };

    ghost lawful = { λ c. ∥∥₁_elim c.consistent (lawful_prop (echo_model c)) (Kept.lawful (state_of c) c.stage.some c.stage.few c.stage.begun c.stage.ends) };

    ghost starts_afresh = { λ c d e. ap model_of e };

    ghost offers_one = { λ c x d e. ap model_of e.1 };

    ghost injects_nothing = { λ c f d e. ap model_of e.1 };

    ghost turns_on = { λ c d e. subst (λ s. Turned (echo_model c) (model_of s)) (sym e.1) (turns_on_lem (state_of c) c.consistent) };

    fn start(&mut self) {
        self.stage.restart();
        self.table = Table::new(Cell::blank());
    }

    fn offer(&mut self, x: Triple) -> Result<(), CarriageFault> {
        self.stage.check_offer(x)?;
        self.table.update(
            x,
            |cell| Cell {
                offered: true,
                ..cell
            },
        );
        Ok(())
    }

    fn inject(&mut self, f: Frame) -> Result<(), CarriageFault> {
        self.check_frame(f)?;
        let phase = self.stage.phase();
        self.table.update(f.triple, |cell| cell.hearing(f, phase));
        Ok(())
    }

    fn turn(&mut self) -> Result<(), CarriageFault> {
        let next = self.stage.next()?;
        let phase = self.stage.phase();
        let group = self.stage.group();
        self.table
            .turn(|cell, round| cell.turned(&group, Timing { phase, round }));
        self.stage = next;
        Ok(())
    }

    fn held(&self, q: u16, x: Triple) -> Result<bool, CarriageFault> {
        let accepted = self.table.get(x).accepted.contains(q);
        self.stage.check_read(q, x, accepted)
    }

    fn group(&self) -> Group {
        self.stage.group()
    }

    fn list_len(&self) -> u16 {
        self.stage.list_len()
    }

    fn phase(&self) -> u16 {
        self.stage.phase()
    }
}
