// A cell of a regular page: a byte 1 and a row, or zeros.
ghost use Rattle.std.specs.Prelude.{◌≡◌, ◌↔◌, ◌+◌, ◌*◌, ◌<◌, ◌≤◌, IsTrue, IfOk, IfSome, IfNone, Some, None, length};
ghost use Rattle.std.specs.Prelude.{slice_index, is_some};
ghost use Rattle.ts_row.specs.Row.{Row as TheRow, fits, marked};
ghost use Rattle.ts_regular.specs.RegularPage.{Cell, FitsCell, cell_bytes, cell_size, regular_room, base_of};

use std::alloc::AllocError;
use ts_row::{Row, RowType, is_zero};

/// The bytes of a page behind its head.
const CELLS: usize = 4064;

/// How many bytes a cell has.
pub(crate) fn cell_size(kind: &RowType) -> usize
    ensures value { result ≡ cell_size kind.now.columns }
    ensures bound { result ≤ 1001 }
{
    kind.width() + 1
}

/// How many cells a regular page of this row type has: one for each of so many offsets in a row.
pub fn regular_room(kind: &RowType) -> usize
    ensures value { result ≡ regular_room kind.now.columns }
    ensures some { 1 ≤ result }
    ensures bound { result ≤ 4064 }
{
    CELLS / cell_size(kind)
}

/// The offset of the first cell of the page that an offset belongs to.
pub fn base_of(kind: &RowType, offset: u64) -> u64
    ensures value { result ≡ base_of kind.now.columns offset }
    ensures low { result ≤ offset }
    ensures high { offset < result + regular_room kind.now.columns }
{
    let room = regular_room(kind) as u64;
    offset / room * room
}

/// Whether a cell has an element; none where its bytes are those of no cell.
pub(crate) fn is_filled_cell(kind: &RowType, cell: &[u8]) -> Option<bool>
    requires { length cell.now ≡ cell_size kind.now.columns }
    ensures found { IfSome result (λ filled. (c : Cell) × FitsCell kind.now.columns c
        × (cell.now ≡ cell_bytes kind.now.columns c) × (is_some c ≡ filled)) }
    ensures none { IfNone result ((c : Cell) → FitsCell kind.now.columns c → cell.now ≡ cell_bytes kind.now.columns c
        → ⊥) }
{
    match cell[0] {
        0 if is_zero(&cell[1..]) => Some(false),
        1 if kind.is_row(&cell[1..]) => Some(true),
        _ => None,
    }
}

/// Whether the element of a cell is hidden.
pub(crate) fn is_hidden_cell(kind: &RowType, cell: &[u8]) -> bool
    requires { length cell.now ≡ cell_size kind.now.columns }
    ensures { (row : TheRow) → IsTrue (fits kind.now.columns row) → cell.now ≡ cell_bytes kind.now.columns (Some row)
        → result ≡ row.hidden }
{
    kind.is_hidden(&cell[1..])
}

/// Whether a cell has an element, by its first byte alone.
pub(crate) fn has_element(cell: &[u8]) -> bool
    requires { 1 ≤ length cell.now }
    ensures { IsTrue result ↔ (slice_index cell.now 0 ≡ 1) }
{
    cell[0] == 1
}

/// The row in a cell, if it has one.
pub(crate) fn row_in_cell(kind: &RowType, cell: &[u8]) -> Result<Option<Row>, AllocError>
    requires { length cell.now ≡ cell_size kind.now.columns }
    ensures found { IfOk result (λ found. (c : Cell) → FitsCell kind.now.columns c
        → cell.now ≡ cell_bytes kind.now.columns c → found ≡ c) }
    ensures fits { IfOk result (λ found. IfSome found (λ row. IsTrue (fits kind.now.columns row))) }
{
    if !has_element(cell) {
        return Ok(None);
    }
    kind.decode(&cell[1..])
}

/// Writes the cell of an element.
pub(crate) fn write_cell(kind: &RowType, row: &Row, into: &mut [u8])
    requires fits { IsTrue (fits kind.now.columns row.now) }
    requires room { length into.old ≡ cell_size kind.now.columns }
    ensures { into.new ≡ cell_bytes kind.now.columns (Some row.now) }
{
    into[0] = 1;
    kind.encode(row, &mut into[1..]);
}

/// Writes the cell of no element.
pub(crate) fn clear_cell(kind: &RowType, into: &mut [u8])
    requires { length into.old ≡ cell_size kind.now.columns }
    ensures { into.new ≡ cell_bytes kind.now.columns None }
{
    into.fill(0);
}

/// From the cell of an element to that of the same element, hidden or visible.
pub(crate) fn mark_cell(kind: &RowType, hidden: bool, cell: &mut [u8])
    requires { length cell.old ≡ cell_size kind.now.columns }
    ensures { (row : TheRow) → IsTrue (fits kind.now.columns row) → cell.old ≡ cell_bytes kind.now.columns (Some row)
        → cell.new ≡ cell_bytes kind.now.columns (Some (marked hidden row)) }
{
    kind.mark(hidden, &mut cell[1..]);
}
