// A table with a cell for each triple that there can be.
ghost use Rattle.carriage.specs.Cells.{Makes};
ghost use Rattle.carriage.specs.Triples.{slot_of};
ghost use Rattle.std.specs.Prelude.{◌≡◌, ℕ, ◌+◌, ◌/◌, ◌<◌, ◌≤◌, length, slice_index_or, slice_set};

use crate::frames::Triple;

// 16 origins, 4 places, 6 rounds.
const SLOTS: usize = 384;

#[derive(Drop)]
pub struct Table<T> {
    cells: [T; SLOTS],
    ghost long: { length cells ≡ 384 },
}

impl<T: Copy> Table<T> {
    // Every cell is `cell`.
    pub fn new(cell: T) -> Table<T>
        ensures { (k : ℕ) (d : T) → k < 384 → slice_index_or result.cells k d ≡ cell }
    {
        Table {
            cells: [cell; SLOTS],
        }
    }

    // The triple's cell.
    pub fn get(&self, x: Triple) -> T
        ensures { (d : T) → result ≡ slice_index_or self.now.cells (slot_of x) d }
    {
        self.cells[x.slot()]
    }

    // Makes of the triple's cell what `change` says.
    pub fn update<F: FnOnce(T) -> T>(&mut self, x: Triple, change: F)
        requires { F.IsAlwaysCallable change }
        ensures { (d : T) → (c : T) × F.post change (slice_index_or self.old.cells (slot_of x) d) c × (self.new.cells ≡ slice_set self.old.cells (slot_of x) c) }
    {
        let k = x.slot();
        self.cells[k] = change(self.cells[k]);
    }

    // Makes of every cell what `step` says, by the round of its triple.
    pub fn turn<F: Fn(&T, u16) -> T>(&mut self, step: F)
        requires { F.IsAlwaysCallable step }
        ensures { (k : ℕ) (d : T) → k < 384 → Makes F.Fn step (slice_index_or self.old.cells k d) (k / 64 + 1) (slice_index_or self.new.cells k d) }
    {
        // a cell's number tells the round of its triple
        for (k, cell) in self.cells.iter_mut().enumerate() {
            let round = (k / 64 + 1) as u16;
            *cell = step(cell, round);
        }
    }
}
