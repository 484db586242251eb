// The carriage itself: the stage that it is at, and a cell for each triple.
ghost use Rattle.echo.specs.Consistent.{Consistent};
ghost use Rattle.echo.specs.View.{view_of};

use crate::cells::Cell;
use carriage::{Stage, Table};

mod calls;

#[derive(Drop)]
pub struct Echo {
    stage: Stage,
    table: Table<Cell>,
    ghost consistent: { ∥ Consistent (view_of stage.group stage.len stage.phase table.cells) ∥₁ },
}
