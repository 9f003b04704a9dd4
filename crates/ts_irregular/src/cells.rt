// The cells behind the head of a page, edited.
ghost use Rattle.std.specs.Prelude.{◌≡◌, ◌+◌, ◌*◌, ◌<◌, ◌≤◌, IsTrue, List, ◌∷◌, ◌++◌, length, take, drop, replicate};
ghost use Rattle.ts_row.specs.Row.{fits, Element};
ghost use Rattle.ts_cells.specs.IrregularPage.{page_room, AreElements, AreInOrder, behind_head};
ghost use Rattle.ts_irregular.specs.Edit.{without_element};

use crate::stamps::search;
use ts_base::Stamp;
use ts_cells::{cell_size, page_room, write_cell};
use ts_row::{Row, RowType};

/// Takes away the element at a stamp, if one is there, and gives the number of elements then.
pub(crate) fn take_row(kind: &RowType, behind: &mut [u8], count: usize, stamp: Stamp) -> usize
    requires size { length behind.old ≡ 4064 }
    requires room { count ≤ page_room kind.now.columns }
    ensures count { (es : List Element) → AreInOrder kind.now.columns es → length es ≡ count
        → behind.old ≡ behind_head kind.now.columns es
        → length (without_element stamp es) ≡ result }
    ensures bytes { (es : List Element) → AreInOrder kind.now.columns es → length es ≡ count
        → behind.old ≡ behind_head kind.now.columns es
        → behind.new ≡ behind_head kind.now.columns (without_element stamp es) }
    ensures most { result ≤ count }
{
    match search(kind, behind, count, stamp) {
        Ok(index) => {
            remove_cell(kind, behind, count, index);
            count - 1
        }
        Err(_) => count,
    }
}

/// Puts an element before that of an index.
pub(crate) fn insert_cell(
    kind: &RowType,
    behind: &mut [u8],
    count: usize,
    index: usize,
    stamp: Stamp,
    row: &Row,
)
    requires size { length behind.old ≡ 4064 }
    requires room { count < page_room kind.now.columns }
    requires index { index ≤ count }
    requires fits { IsTrue (fits kind.now.columns row.now) }
    ensures { (es : List Element) → AreElements kind.now.columns es → length es ≡ count
        → behind.old ≡ behind_head kind.now.columns es
        → behind.new ≡ behind_head kind.now.columns (take index es ++ (stamp, row.now) ∷ drop index es) }
{
    let size = cell_size(kind);
    let at = size * index;
    behind.copy_within(at..size * count, at + size);
    write_cell(kind, stamp, row, &mut behind[at..at + size]);
}

/// Puts an element in place of that of an index.
pub(crate) fn replace_cell(kind: &RowType, behind: &mut [u8], index: usize, stamp: Stamp, row: &Row)
    requires size { length behind.old ≡ 4064 }
    requires index { index < page_room kind.now.columns }
    requires fits { IsTrue (fits kind.now.columns row.now) }
    ensures { (es : List Element) → AreElements kind.now.columns es → index < length es
        → behind.old ≡ behind_head kind.now.columns es
        → behind.new ≡ behind_head kind.now.columns (take index es ++ (stamp, row.now) ∷ drop (index + 1) es) }
{
    let size = cell_size(kind);
    let at = size * index;
    write_cell(kind, stamp, row, &mut behind[at..at + size]);
}

// Takes away the element of an index.
fn remove_cell(kind: &RowType, behind: &mut [u8], count: usize, index: usize)
    requires size { length behind.old ≡ 4064 }
    requires room { count ≤ page_room kind.now.columns }
    requires index { index < count }
    ensures { (es : List Element) → AreElements kind.now.columns es → length es ≡ count
        → behind.old ≡ behind_head kind.now.columns es
        → behind.new ≡ behind_head kind.now.columns (take index es ++ drop (index + 1) es) }
{
    let size = cell_size(kind);
    let at = size * index;
    let end = size * count;
    behind.copy_within(at + size..end, at);
    clear(&mut behind[end - size..end]);
}

fn clear(bytes: &mut [u8])
    ensures { bytes.new ≡ replicate (length bytes.old) 0 }
{
    bytes.fill(0);
}
