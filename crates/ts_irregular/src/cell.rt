// One cell behind the head of a page, by its index.
ghost use Rattle.std.specs.Prelude.{◌≡◌, ◌+◌, ◌<◌, IsTrue, IfOk, IfSome, Some, List, ◌∷◌, ◌++◌, length, take, drop};
ghost use Rattle.std.specs.Prelude.{slice_get, option_map};
ghost use Rattle.ts_row.specs.Row.{fits, marked, Element};
ghost use Rattle.ts_cells.specs.IrregularPage.{cell_bytes, cell_size, page_room, AreElements, behind_head};

use std::alloc::AllocError;
use ts_cells::{cell_size, is_hidden_cell, mark_cell};
use ts_row::{Row, RowType};

// The bytes of the cell of an index.
fn cell_at<'a>(kind: &RowType, behind: &'a [u8], index: usize) -> &'a [u8]
    requires size { length behind.now ≡ 4064 }
    requires index { index < page_room kind.now.columns }
    ensures bytes { (es : List Element) (e : Element) → AreElements kind.now.columns es → slice_get es index ≡ Some e
        → behind.now ≡ behind_head kind.now.columns es → result.now ≡ cell_bytes kind.now.columns e }
    ensures size { length result.now ≡ cell_size kind.now.columns }
{
    let size = cell_size(kind);
    let at = size * index;
    &behind[at..at + size]
}

/// The row of the element of an index.
pub(crate) fn row_at_index(
    kind: &RowType,
    behind: &[u8],
    index: usize,
) -> Result<Option<Row>, AllocError>
    requires size { length behind.now ≡ 4064 }
    requires index { index < page_room kind.now.columns }
    ensures found { IfOk result (λ found. (es : List Element) → AreElements kind.now.columns es → index < length es
        → behind.now ≡ behind_head kind.now.columns es → found ≡ option_map (λ e. e.1) (slice_get es index)) }
    ensures fits { IfOk result (λ found. IfSome found (λ row. IsTrue (fits kind.now.columns row))) }
{
    let cell = cell_at(kind, behind, index);
    kind.decode(&cell[cell.len() - kind.width()..])
}

/// Whether the element of an index is hidden.
pub(crate) fn is_hidden_at(kind: &RowType, behind: &[u8], index: usize) -> bool
    requires size { length behind.now ≡ 4064 }
    requires index { index < page_room kind.now.columns }
    ensures { (es : List Element) (e : Element) → AreElements kind.now.columns es → slice_get es index ≡ Some e
        → behind.now ≡ behind_head kind.now.columns es → result ≡ e.1.hidden }
{
    is_hidden_cell(kind, cell_at(kind, behind, index))
}

/// Hides the element of an index, or reveals it.
pub(crate) fn mark_at(kind: &RowType, behind: &mut [u8], index: usize, hidden: bool)
    requires size { length behind.old ≡ 4064 }
    requires index { index < page_room kind.now.columns }
    ensures { (es : List Element) (e : Element) → AreElements kind.now.columns es → slice_get es index ≡ Some e
        → behind.old ≡ behind_head kind.now.columns es
        → behind.new ≡ behind_head kind.now.columns (take index es ++ (e.0, marked hidden e.1) ∷ drop (index + 1) es) }
{
    let size = cell_size(kind);
    let at = size * index;
    mark_cell(kind, hidden, &mut behind[at..at + size]);
}
