// The carriage itself: the stage that it is at, and a cell for each triple.
ghost use Rattle.seal.specs.Sound.{Sound};
ghost use Rattle.seal.specs.View.{view_of};

use crate::cells::Cell;
use carriage::{Stage, Table};

mod calls;

#[derive(Drop)]
pub struct Seal {
    stage: Stage,
    table: Table<Cell>,
    ghost sound: { ∥ Sound (view_of stage.group stage.len stage.phase table.cells) ∥₁ },
}
