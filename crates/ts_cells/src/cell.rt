// A cell: a byte 1, the stamp and the row of an element.
ghost use Rattle.std.specs.Prelude.{◌≡◌, ◌≢◌, ◌+◌, ◌≤◌, IsTrue, IfSome, IfNone, length, ◌∷◌};
ghost use Rattle.std.specs.Int.{w64, from_be_bytes, cast_signed};
ghost use Rattle.ts_row.specs.Row.{width_of, Row as TheRow, fits, marked};
ghost use Rattle.ts_cells.specs.IrregularPage.{Element, IsElement, stamp_bytes, cell_bytes, cell_size, page_room};

use ts_base::Stamp;
use ts_row::{Row, RowType};

/// What a cell has before its row: a byte 1 and a stamp.
const FRONT: usize = 9;

/// The bytes of a page behind its head.
const CELLS: usize = 4064;

/// How many bytes a cell has.
pub fn cell_size(kind: &RowType) -> usize
    ensures value { result ≡ cell_size kind.now.columns }
    ensures bound { result ≤ 1009 }
{
    kind.width() + FRONT
}

/// How many cells a page has room for.
pub fn page_room(kind: &RowType) -> usize
    ensures value { result ≡ page_room kind.now.columns }
    ensures bound { result ≤ 451 }
{
    CELLS / cell_size(kind)
}

/// The stamp of a cell, where its bytes are those of an element.
pub fn stamp_of_cell(kind: &RowType, cell: &[u8]) -> Option<Stamp>
    requires { length cell.now ≡ cell_size kind.now.columns }
    ensures found { IfSome result (λ stamp. (row : TheRow) × IsElement kind.now.columns (stamp, row)
        × (cell.now ≡ cell_bytes kind.now.columns (stamp, row))) }
    ensures none { IfNone result ((e : Element) → IsElement kind.now.columns e
        → cell.now ≢ cell_bytes kind.now.columns e) }
{
    if cell[0] != 1 || !kind.is_row(&cell[FRONT..]) {
        return None;
    }
    Stamp::of(units_in(&cell[1..FRONT]))
}

/// Whether the element of a cell is hidden.
pub fn is_hidden_cell(kind: &RowType, cell: &[u8]) -> bool
    requires { length cell.now ≡ cell_size kind.now.columns }
    ensures { (e : Element) → IsElement kind.now.columns e → cell.now ≡ cell_bytes kind.now.columns e
        → result ≡ e.1.hidden }
{
    kind.is_hidden(&cell[FRONT..])
}

/// From the cell of an element to that of the same element, hidden or visible. As many bytes stay, whatever they are.
pub fn mark_cell(kind: &RowType, hidden: bool, cell: &mut [u8])
    requires { length cell.old ≡ cell_size kind.now.columns }
    ensures size { length cell.new ≡ length cell.old }
    ensures marked { (e : Element) → IsElement kind.now.columns e → cell.old ≡ cell_bytes kind.now.columns e
        → cell.new ≡ cell_bytes kind.now.columns (e.0, marked hidden e.1) }
{
    kind.mark(hidden, &mut cell[FRONT..]);
}

/// Writes the cell of an element.
pub fn write_cell(kind: &RowType, stamp: Stamp, row: &Row, into: &mut [u8])
    requires fits { IsTrue (fits kind.now.columns row.now) }
    requires room { length into.old ≡ cell_size kind.now.columns }
    ensures { into.new ≡ cell_bytes kind.now.columns (stamp, row.now) }
{
    let (front, behind) = into.split_at_mut(FRONT);
    write_front(stamp, front);
    kind.encode(row, behind);
}

// Writes what stands before the row.
fn write_front(stamp: Stamp, into: &mut [u8])
    requires { length into.old ≡ 9 }
    ensures { into.new ≡ 1 ∷ stamp_bytes stamp }
{
    let bytes = stamp.units().to_be_bytes();
    into.copy_from_slice(&[
        1, bytes[0], bytes[1], bytes[2], bytes[3], bytes[4], bytes[5], bytes[6], bytes[7],
    ]);
}

// The units of a stamp in eight bytes.
fn units_in(bytes: &[u8]) -> i64
    requires { length bytes.now ≡ 8 }
    ensures { result ≡ cast_signed w64 (from_be_bytes w64 bytes.now) }
{
    i64::from_be_bytes([
        bytes[0], bytes[1], bytes[2], bytes[3], bytes[4], bytes[5], bytes[6], bytes[7],
    ])
}
