// The last element that isn't hidden.
ghost use Rattle.std.specs.Prelude.{◌≡◌, ◌<◌, ◌≤◌, IsTrue, IfOk, IfSome, List, length, slice_get, option_and_then};
ghost use Rattle.ts_row.specs.Row.{fits, Element};
ghost use Rattle.ts_cells.specs.IrregularPage.{page_room, AreElements, AreInOrder, behind_head};
ghost use Rattle.ts_irregular.specs.Edit.{last_seen};

use crate::cell::{is_hidden_at, row_at_index};
use crate::stamps::units_at;
use std::alloc::AllocError;
use ts_base::Stamp;
use ts_cells::cell_size;
use ts_row::{Row, RowType};

/// The last of the elements whose cells stand behind the head of a page, of those that aren't hidden.
pub fn last_among(
    kind: &RowType,
    behind: &[u8],
    count: usize,
) -> Result<Option<(Stamp, Row)>, AllocError>
    requires size { length behind.now ≡ 4064 }
    requires room { count ≤ page_room kind.now.columns }
    ensures last { IfOk result (λ last. (es : List Element) → AreInOrder kind.now.columns es → length es ≡ count
        → behind.now ≡ behind_head kind.now.columns es → last ≡ last_seen es) }
    ensures fits { IfOk result (λ last. IfSome last (λ e. IsTrue (fits kind.now.columns e.1))) }
{
    match index_of_last(kind, behind, count) {
        None => Ok(None),
        Some(index) => element_of(kind, behind, index),
    }
}

// The index of the last of so many elements that isn't hidden.
fn index_of_last(kind: &RowType, behind: &[u8], count: usize) -> Option<usize>
    requires size { length behind.now ≡ 4064 }
    requires room { count ≤ page_room kind.now.columns }
    ensures last { (es : List Element) → AreInOrder kind.now.columns es → length es ≡ count
        → behind.now ≡ behind_head kind.now.columns es
        → last_seen es ≡ option_and_then (slice_get es) result }
    ensures within { IfSome result (λ index. index < count) }
{
    let mut left = count;
    while left > 0 {
        if !is_hidden_at(kind, behind, left - 1) {
            return Some(left - 1);
        }
        left -= 1;
    }
    None
}

// The element of an index.
fn element_of(
    kind: &RowType,
    behind: &[u8],
    index: usize,
) -> Result<Option<(Stamp, Row)>, AllocError>
    requires size { length behind.now ≡ 4064 }
    requires index { index < page_room kind.now.columns }
    ensures found { IfOk result (λ found. (es : List Element) → AreElements kind.now.columns es → index < length es
        → behind.now ≡ behind_head kind.now.columns es → found ≡ slice_get es index) }
    ensures fits { IfOk result (λ found. IfSome found (λ e. IsTrue (fits kind.now.columns e.1))) }
{
    let Some(stamp) = Stamp::of(units_at(behind, cell_size(kind), index)) else {
        return Ok(None);
    };
    let Some(row) = row_at_index(kind, behind, index)? else {
        return Ok(None);
    };
    Ok(Some((stamp, row)))
}
