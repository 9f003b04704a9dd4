// The place of a stamp among the cells of a page.
ghost use Rattle.std.specs.Prelude.{◌≡◌, ◌+◌, ◌*◌, ◌<◌, ◌≤◌, IfOk, IfErr, List, length, take, drop};
ghost use Rattle.std.specs.Int.{w64, from_be_bytes, cast_signed};
ghost use Rattle.ts_row.specs.Row.{Element};
ghost use Rattle.ts_cells.specs.IrregularPage.{page_room, AreInOrder, behind_head};
ghost use Rattle.ts_irregular.specs.Edit.{rank_of, search_of};

use ts_base::Stamp;
use ts_cells::cell_size;
use ts_row::RowType;

/// The index of the cell of the element at a stamp, among so many behind the head of a page; where none is there, that
/// of the first later one.
pub fn search(kind: &RowType, behind: &[u8], count: usize, stamp: Stamp) -> Result<usize, usize>
    requires size { length behind.now ≡ 4064 }
    requires room { count ≤ page_room kind.now.columns }
    ensures ok { (es : List Element) → AreInOrder kind.now.columns es → length es ≡ count
        → behind.now ≡ behind_head kind.now.columns es
        → result ≡ search_of stamp es }
    ensures there { IfOk result (λ index. index < count) }
    ensures within { IfErr result (λ index. index ≤ count) }
{
    let rank = rank(kind, behind, count, stamp);
    if rank < count && units_at(behind, cell_size(kind), rank) == stamp.units() {
        Ok(rank)
    } else {
        Err(rank)
    }
}

// How many of so many elements are earlier than a stamp.
fn rank(kind: &RowType, behind: &[u8], count: usize, stamp: Stamp) -> usize
    requires size { length behind.now ≡ 4064 }
    requires room { count ≤ page_room kind.now.columns }
    ensures ok { (es : List Element) → AreInOrder kind.now.columns es → length es ≡ count
        → behind.now ≡ behind_head kind.now.columns es
        → result ≡ rank_of stamp es }
    ensures within { result ≤ count }
{
    let size = cell_size(kind);
    let at = stamp.units();
    let mut low = 0;
    let mut high = count;
    while low < high {
        let middle = low + (high - low) / 2;
        if units_at(behind, size, middle) < at {
            low = middle + 1;
        } else {
            high = middle;
        }
    }
    low
}

/// The units of the stamp in a cell.
pub fn units_at(behind: &[u8], size: usize, index: usize) -> i64
    requires within { size * index + size ≤ length behind.now }
    requires size { 9 ≤ size }
    ensures { result ≡ cast_signed w64 (from_be_bytes w64 (take 8 (drop (size * index + 1) behind.now))) }
{
    let at = size * index + 1;
    units_in(&behind[at..at + 8])
}

/// The units of a stamp in eight bytes.
pub(crate) fn units_in(bytes: &[u8]) -> i64
    requires { length bytes.now ≡ 8 }
    ensures { result ≡ cast_signed w64 (from_be_bytes w64 bytes.now) }
{
    let mut units = [0; 8];
    units.copy_from_slice(bytes);
    i64::from_be_bytes(units)
}
