// What the table keeps for one triple, and what a turn makes of it.
ghost use Rattle.std.specs.Prelude.{◌≡◌, ℕ, ◌&&◌};
ghost use Rattle.seal.specs.Cells.{Blank, CellTurned, cell_hears};
ghost use Rattle.sets.specs.Sets.{has};

use carriage::Timing;
use sets::ControllerSet;

#[derive(Clone, Copy)]
pub struct Cell {
    // the origin offered the triple
    pub offered: bool,
    // the controllers that have accepted it
    pub accepted: ControllerSet,
    // those that accepted it at the last turn: their seals are on the way in this phase
    pub fresh: ControllerSet,
    // those that an injected seal reached in this phase
    pub told: ControllerSet,
}

impl Cell {
    pub(crate) fn blank() -> Cell
        ensures { Blank result }
    {
        Cell {
            offered: false,
            accepted: ControllerSet::empty(),
            fresh: ControllerSet::empty(),
            told: ControllerSet::empty(),
        }
    }

    // The controllers that hear the seal in this phase, of those in `correct`.
    fn hearers(self, now: Timing, correct: ControllerSet) -> ControllerSet
        ensures { (q : ℕ) → has result q ≡ (has correct q && cell_hears self now.phase now.round q) }
    {
        if self.offered && now.is_first() || !self.fresh.is_empty() {
            correct
        } else {
            self.told.intersection(correct)
        }
    }

    // The cell after the turn of a phase, where `correct` take their steps.
    pub(crate) fn turned(self, now: Timing, correct: ControllerSet) -> Cell
        ensures { CellTurned now.phase now.round correct self result }
    {
        let takers = if now.has_begun() {
            self.hearers(now, correct)
        } else {
            ControllerSet::empty()
        };
        Cell {
            offered: self.offered,
            accepted: self.accepted.union(takers),
            fresh: takers.without(self.accepted),
            told: ControllerSet::empty(),
        }
    }
}
