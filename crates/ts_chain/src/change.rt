// The row of the element at a stamp is changed: another one is put in its place, or its mark is set.
ghost use Rattle.std.specs.Prelude.{◌+◌, ◌<◌, ◌≤◌, IsTrue, IfOk, OnErr};
ghost use Rattle.ts_row.specs.Row.{fits};
ghost use Rattle.ts_space.specs.Directory.{places_of};
ghost use Rattle.ts_page.specs.Pages.{Answered};
ghost use Rattle.ts_irregular.specs.Call.{AreLeft};
ghost use Rattle.ts_sheets.specs.Places.{ArePlaces};
ghost use Rattle.ts_chain.specs.Call.{IsReplaced, IsMarked};

use crate::find::holder;
use ts_base::{Stamp, StoreFault};
use ts_irregular::{mark_on, replace_on};
use ts_page::{Page, Pages};
use ts_row::{Row, Shelf};
use ts_space::Space;

/// Puts a row, with its own mark, in place of that of the element at a stamp, and tells whether it did; where none
/// stands there all pages are as before. All places stay. One page is read and written: that of the place which holds
/// the stamp. Its head is compared with the place; one that disagrees is taken as a page without elements. After an
/// error all pages are as before too. `page` is room to read one.
pub fn chain_replace<P: Pages>(
    pages: &mut P,
    page: &mut Page,
    space: &Space,
    shelf: &Shelf,
    stamp: Stamp,
    row: &Row,
) -> Result<bool, StoreFault>
    requires slot { shelf.now.series < 4096 }
    requires places { ArePlaces shelf.now.kind.now.columns (P.contents pages.old)
        (places_of shelf.now.series space.now) }
    requires fits { IsTrue (fits shelf.now.kind.now.columns row.now) }
    ensures ok { IfOk result (IsReplaced P.tells shelf.now.series shelf.now.kind.now.columns stamp row.now
        (places_of shelf.now.series space.now) (P.contents pages.old) (P.contents pages.new)) }
    ensures err { OnErr result (AreLeft P.tells (P.contents pages.old) (P.contents pages.new)) }
    ensures call { Answered result (P.contents pages.old) (P.contents pages.new) }
    ensures change { (P.contents pages.new).change_bytes ≤ (P.contents pages.old).change_bytes + 4101 }
    ensures undisturbed { P.undisturbed pages.old pages.new }
{
    let places = space.places(shelf.series);
    let Some(index) = holder(places, stamp) else {
        return Ok(false);
    };
    let place = &places[index];
    replace_on(pages, page, shelf, place, stamp, row)
}

/// Hides the element at a stamp, or reveals it, and tells whether one is there; where none stands there all pages are
/// as before. Its values and all places stay; setting a mark twice is no error. Pages are read and written as by
/// `chain_replace`.
pub fn chain_mark<P: Pages>(
    pages: &mut P,
    page: &mut Page,
    space: &Space,
    shelf: &Shelf,
    stamp: Stamp,
    hidden: bool,
) -> Result<bool, StoreFault>
    requires slot { shelf.now.series < 4096 }
    requires places { ArePlaces shelf.now.kind.now.columns (P.contents pages.old)
        (places_of shelf.now.series space.now) }
    ensures ok { IfOk result (IsMarked P.tells shelf.now.series shelf.now.kind.now.columns stamp hidden
        (places_of shelf.now.series space.now) (P.contents pages.old) (P.contents pages.new)) }
    ensures err { OnErr result (AreLeft P.tells (P.contents pages.old) (P.contents pages.new)) }
    ensures call { Answered result (P.contents pages.old) (P.contents pages.new) }
    ensures change { (P.contents pages.new).change_bytes ≤ (P.contents pages.old).change_bytes + 4101 }
    ensures undisturbed { P.undisturbed pages.old pages.new }
{
    let places = space.places(shelf.series);
    let Some(index) = holder(places, stamp) else {
        return Ok(false);
    };
    let place = &places[index];
    mark_on(pages, page, shelf, place, stamp, hidden)
}
