// The row at a stamp.
ghost use Rattle.std.specs.Prelude.{◌≡◌, ◌<◌, ◌≤◌, IsTrue, IfOk, IfSome, List, length};
ghost use Rattle.ts_row.specs.Row.{fits, Element};
ghost use Rattle.ts_cells.specs.IrregularPage.{page_room, AreInOrder, behind_head};
ghost use Rattle.ts_irregular.specs.Edit.{element_at};

use crate::cell::row_at_index;
use crate::stamps::search;
use std::alloc::AllocError;
use ts_base::Stamp;
use ts_row::{Row, RowType};

/// The row at a stamp among the elements whose cells stand behind the head of a page.
pub fn row_at(
    kind: &RowType,
    behind: &[u8],
    count: usize,
    stamp: Stamp,
) -> Result<Option<Row>, AllocError>
    requires size { length behind.now ≡ 4064 }
    requires room { count ≤ page_room kind.now.columns }
    ensures found { IfOk result (λ row. (es : List Element) → AreInOrder kind.now.columns es → length es ≡ count
        → behind.now ≡ behind_head kind.now.columns es → row ≡ element_at stamp es) }
    ensures fits { IfOk result (λ found. IfSome found (λ row. IsTrue (fits kind.now.columns row))) }
{
    let Ok(index) = search(kind, behind, count, stamp) else {
        return Ok(None);
    };
    row_at_index(kind, behind, index)
}
