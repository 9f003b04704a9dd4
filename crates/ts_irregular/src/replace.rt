// A row is put at a stamp at which one is there.
ghost use Rattle.std.specs.Prelude.{◌+◌, ◌<◌, ◌≤◌, IsTrue, IfOk, OnErr, [], ◌∷◌};
ghost use Rattle.ts_row.specs.Row.{fits};
ghost use Rattle.ts_page.specs.Pages.{Answered};
ghost use Rattle.ts_irregular.specs.OnePage.{IsPlace};
ghost use Rattle.ts_irregular.specs.Call.{IsReplaced, AreLeft};

use crate::cells::replace_cell;
use crate::index::index_on;
use ts_base::{Stamp, StoreFault};
use ts_page::{HEAD, Page, Pages};
use ts_row::{Row, Shelf};
use ts_space::Place;

/// Puts a row, with its own mark, in place of that of the element at a stamp, and tells whether it did; where none
/// stands there all pages are as before. All places stay. The page isn't judged again: its head is compared with its
/// place, and the stamp is searched once; one that disagrees is taken as a page without elements. After an error all
/// pages are as before too. `page` is room to read one.
pub fn replace_on<P: Pages>(
    pages: &mut P,
    page: &mut Page,
    shelf: &Shelf,
    place: &Place,
    stamp: Stamp,
    row: &Row,
) -> Result<bool, StoreFault>
    requires place { IsPlace shelf.now.kind.now.columns (P.contents pages.old) place.now }
    requires fits { IsTrue (fits shelf.now.kind.now.columns row.now) }
    ensures ok { IfOk result (IsReplaced P.tells shelf.now.series shelf.now.kind.now.columns stamp row.now
        (place.now ∷ []) (P.contents pages.old) (P.contents pages.new)) }
    ensures err { OnErr result (AreLeft P.tells (P.contents pages.old) (P.contents pages.new)) }
    ensures call { Answered result (P.contents pages.old) (P.contents pages.new) }
    ensures change { (P.contents pages.new).change_bytes ≤ (P.contents pages.old).change_bytes + 4101 }
    ensures undisturbed { P.undisturbed pages.old pages.new }
{
    let Some(index) = index_on(pages, page, shelf, place, stamp)? else {
        return Ok(false);
    };
    replace_cell(shelf.kind, &mut page.bytes[HEAD..], index, stamp, row);
    pages.put(place.page, page)?;
    Ok(true)
}
