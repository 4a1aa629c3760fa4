// What a list holds: two sizes, and then two blocks of numbers for each cell of a table of rows and columns.
ghost use Rattle.std.specs.Prelude.{◌≡◌, ◌*◌, ◌^◌, ◌<◌};
ghost use Rattle.lists.specs.Cells.{CellAmong};

use crate::counted::index_from_one;
use market::words::Layer;

/// So many numbers a cell, each from `low` to `high`, row after row and column after column.
#[derive(Clone, Copy, Debug, PartialEq, Eq)]
pub struct Block {
    pub per_cell: u8,
    pub low: i32,
    pub high: i32,
}

/// At most so many rows and columns, the two blocks, and the layer that refuses.
#[derive(Clone, Copy, Debug, PartialEq, Eq)]
pub struct Layout {
    pub layer: Layer,
    pub rows: u8,
    pub columns: u16,
    pub first: Block,
    pub second: Block,
}

/// The sizes of a list that passed its check; none of both where there is none.
#[derive(Clone, Copy, Debug, Default, PartialEq, Eq)]
pub struct Sizes {
    pub rows: u8,
    pub columns: u16,
}

impl Sizes {
    /// Rows × columns.
    pub fn cells(self) -> usize
        ensures value { result ≡ self.rows * self.columns }
        ensures bound { result < 2 ^ 24 }
    {
        usize::from(self.rows) * usize::from(self.columns)
    }

    /// The cell in a row and a column, both counted from 1, row after row; none outside.
    pub fn cell(self, row: i64, column: i64) -> Option<usize>
        ensures { CellAmong self.rows self.columns row column result }
    {
        let above = index_from_one(row, usize::from(self.rows))?;
        let before = index_from_one(column, usize::from(self.columns))?;
        Some(above * usize::from(self.columns) + before)
    }
}
