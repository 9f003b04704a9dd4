// A row is put at a stamp at which none is there.
ghost use Rattle.std.specs.Prelude.{◌+◌, ◌<◌, ◌≤◌, IsTrue, IfOk, OnErr, [], ◌∷◌, length};
ghost use Rattle.ts_row.specs.Row.{fits};
ghost use Rattle.ts_page.specs.Pages.{Answered};
ghost use Rattle.ts_irregular.specs.Edit.{with_element};
ghost use Rattle.ts_irregular.specs.Call.{ArePut, IsOneMore, AreLeft};

use crate::page::{insert_into, place_in};
use ts_base::{Stamp, StoreFault};
use ts_page::{Page, Pages};
use ts_row::{Row, Shelf};
use ts_space::Place;

/// Puts the first element of a series on a page that is taken, and gives the place of that.
pub fn put_alone<P: Pages>(
    pages: &mut P,
    page: &mut Page,
    shelf: &Shelf,
    stamp: Stamp,
    row: &Row,
) -> Result<Place, StoreFault>
    requires fits { IsTrue (fits shelf.now.kind.now.columns row.now) }
    requires spare { 0 < length (P.contents pages.old).free }
    ensures more { IfOk result (λ place. IsOneMore [] place (P.contents pages.old) (P.contents pages.new)) }
    ensures put { IfOk result (λ place. ArePut P.tells shelf.now.series shelf.now.kind.now.columns []
        (with_element stamp row.now [])
        (place ∷ []) (P.contents pages.old) (P.contents pages.new)) }
    ensures err { OnErr result (AreLeft P.tells (P.contents pages.old) (P.contents pages.new)) }
    ensures call { Answered result (P.contents pages.old) (P.contents pages.new) }
    ensures change { (P.contents pages.new).change_bytes ≤ (P.contents pages.old).change_bytes + 4101 }
    ensures undisturbed { P.undisturbed pages.old pages.new }
{
    // It lies in the range; and a row has at most 1000 bytes, so there is room for one.
    let _units = stamp.units();
    let _width = shelf.kind.width();
    *page = Page::zero();
    insert_into(shelf, page, 0, 0, stamp, row);
    let number = pages.take();
    pages.put(number, page)?;
    Ok(place_in(shelf, number, 1, page))
}
