// What is left of a floor that was closed.
ghost use Rattle.std.specs.Prelude.{◌≡◌, List as PlainList};
ghost use Rattle.bs_floor.specs.declared.cell.Cell.{Cell as CellValue};

use crate::cell::Cell;
use crate::station::Station;
use bs_tree::List;
use std::marker::Model;

/// The cells of a floor that was closed, in the order of the stations. Only `Floor::close` makes one.
/// Contracts see it as the list of its cells.
#[derive(Drop)]
pub struct Closed<S: Station> {
    pub(crate) cells: List<Cell<S>>,
}

impl<S: Station> Model for Closed<S> {
    ghost Value = { PlainList (CellValue S S.Job S.Item) };

    ghost view = { λ c. c.cells };
}

impl<S: Station> Closed<S> {
    /// The cells, in the order of the stations. It takes no memory.
    pub fn cells(&self) -> &[Cell<S>]
        ensures { result.now ≡ self.now }
    {
        self.cells.as_slice()
    }

    /// The same cells, in the same order. It takes no memory.
    pub fn into_cells(self) -> Vec<Cell<S>>
        ensures { result.items ≡ self }
    {
        let Closed { cells } = self;
        cells.into_vec()
    }
}
