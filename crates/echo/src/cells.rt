// What the table keeps for one triple, and what a turn makes of it.
ghost use Rattle.std.specs.Prelude.{◌≡◌, ℕ, ◌<◌, ◌&&◌, nat_le};
ghost use Rattle.echo.specs.Cells.{Blank, CellHears, CellTurned, cell_accepts, cell_echoes, cell_init, cell_witness};
ghost use Rattle.echo.specs.State.{counts_as_init, counts_as_echo};
ghost use Rattle.groups.specs.Groups.{correct};
ghost use Rattle.sets.specs.Sets.{has, count};

use carriage::{Frame, Timing};
use groups::Group;
use sets::ControllerSet;

#[derive(Clone, Copy)]
pub struct Cell {
    // the origin offered the triple
    pub offered: bool,
    // those that heard the init frame from a marked origin itself, in the first phase of the round
    pub told: ControllerSet,
    pub witness: ControllerSet,
    pub accepted: ControllerSet,
    // for each controller, those whose injected echoes it has heard
    pub echoes: [ControllerSet; 16],
}

impl Cell {
    pub(crate) fn blank() -> Cell
        ensures { Blank result }
    {
        Cell {
            offered: false,
            told: ControllerSet::empty(),
            witness: ControllerSet::empty(),
            accepted: ControllerSet::empty(),
            echoes: [ControllerSet::empty(); 16],
        }
    }

    // Whether `q` has heard echoes from at least so many: from the witnesses, who sent theirs to all, and those injected.
    fn has_heard(&self, q: u16, least: u16) -> bool
        requires { q < 16 }
        ensures { result ≡ nat_le least (count 16 (cell_echoes self.now q)) }
    {
        self.witness.union(self.echoes[q as usize]).len() >= least
    }

    // The correct controllers that hear the init frame in this phase.
    fn hear_init(&self, group: &Group) -> ControllerSet
        ensures { (q : ℕ) → has result q ≡ (correct group.now q && cell_init self.now q) }
    {
        let correct = group.correct_ones();
        if self.offered {
            correct
        } else {
            self.told.intersection(correct)
        }
    }

    // The correct controllers that have heard echoes from at least so many.
    fn hear_echoes(&self, group: &Group, least: u16) -> ControllerSet
        ensures { (q : ℕ) → has result q ≡ (correct group.now q && nat_le least (count 16 (cell_echoes self.now q))) }
    {
        group.correct_ones().filter(|q| self.has_heard(q, least))
    }

    // The cell after a frame is heard in a phase: an init frame counts in the first phase of its round, from the origin
    // itself, and an e-frame from the second phase on.
    pub(crate) fn hearing(mut self, f: Frame, phase: u16) -> Cell
        requires { (f.from < 16) × (f.to < 16) }
        ensures { CellHears (counts_as_init phase f) (counts_as_echo phase f) f self result }
    {
        let now = Timing {
            phase,
            round: f.triple.round,
        };
        // a frame's letter is kept as a byte, and matched as a character
        match f.letter() {
            'i' if f.from == f.triple.origin && now.is_first() => {
                self.told = self.told.with(f.to);
            }
            'e' if now.is_past_first() => {
                let q = f.to as usize;
                self.echoes[q] = self.echoes[q].with(f.from);
            }
            _ => {}
        }
        self
    }

    // The controllers that become witnesses at the turn of a phase.
    fn joins(&self, group: &Group, now: Timing) -> ControllerSet
        ensures { (q : ℕ) → has result q ≡ cell_witness group.now now.phase now.round self.now q }
    {
        if now.is_first() {
            self.hear_init(group)
        } else if now.is_past_first() {
            self.hear_echoes(group, group.t() + 1)
        } else {
            ControllerSet::empty()
        }
    }

    // The controllers that accept at the turn of a phase.
    fn takes(&self, group: &Group, now: Timing) -> ControllerSet
        ensures { (q : ℕ) → has result q ≡ cell_accepts group.now now.phase now.round self.now q }
    {
        if now.is_past_first() {
            self.hear_echoes(group, group.n() - group.t())
        } else {
            ControllerSet::empty()
        }
    }

    // The cell after the turn of a phase: every correct controller takes its step.
    pub(crate) fn turned(&self, group: &Group, now: Timing) -> Cell
        ensures { CellTurned group.now now.phase now.round self.now result }
    {
        Cell {
            witness: self.witness.union(self.joins(group, now)),
            accepted: self.accepted.union(self.takes(group, now)),
            ..*self
        }
    }
}
