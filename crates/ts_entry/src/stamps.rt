// Where the stamps of cells come from.
ghost use Rattle.std.specs.Prelude.{◌≡◌, ℤ, ◌<◌, ◌≤◌, ◌^◌, Some, length, take, drop};
ghost use Rattle.ts_base.specs.Moment.{IsStamp};
ghost use Rattle.ts_cells.specs.IrregularPage.{stamp_bytes};
ghost use Rattle.ts_entry.specs.Stamps.{HasStamp, IsNear};

use ts_base::Stamp;
use ts_irregular::units_at;
use ts_offset::Grid;

/// The bytes before the row in a cell that has its stamp: a byte 1, and the stamp.
const FRONT: usize = 9;

/// The stamps of elements in cells that stand one behind the other.
#[derive(Drop)]
pub enum Stamps<'a> {
    /// Each in its cell, behind the first byte.
    InCells,
    /// The on starts of a grid, one a cell, from an offset on.
    OnGrid(&'a Grid<'a>, u64),
}

impl<'a> Stamps<'a> {
    /// The stamp of the element in a cell, which has this number, counted from 0. Of bytes that are no such cell's it
    /// may be any, or none.
    pub fn stamp(&self, number: usize, cell: &[u8]) -> Option<Stamp>
        requires near { IsNear self.now }
        requires number { number < 2 ^ 63 }
        ensures { (stamp : ℤ) → HasStamp self.now number cell.now stamp → result ≡ Some stamp }
    {
        match self {
            Stamps::InCells => stamp_in(cell),
            Stamps::OnGrid(grid, first) => grid.stamp_of(*first + number as u64),
        }
    }
}

// The stamp in a cell.
fn stamp_in(cell: &[u8]) -> Option<Stamp>
    ensures { (stamp : ℤ) → IsStamp stamp → take 8 (drop 1 cell.now) ≡ stamp_bytes stamp → result ≡ Some stamp }
{
    if cell.len() < FRONT {
        return None;
    }
    Stamp::of(units_at(cell, FRONT, 0))
}
