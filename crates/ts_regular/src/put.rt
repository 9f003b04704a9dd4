// A row is put at an offset.
ghost use Rattle.std.specs.Prelude.{◌≡◌, ◌+◌, ◌%◌, ◌<◌, ◌≤◌, ◌^◌, pos, IsTrue, IfOk, OnErr, None, length};
ghost use Rattle.ts_row.specs.Row.{fits};
ghost use Rattle.ts_space.specs.Place.{place_at};
ghost use Rattle.ts_space.specs.Moved.{moved_to};
ghost use Rattle.ts_space.specs.Directory.{places_of};
ghost use Rattle.ts_page.specs.Pages.{Answered};
ghost use Rattle.ts_regular.specs.RegularPage.{regular_room, base_of};
ghost use Rattle.ts_regular.specs.Places.{ArePlaces, IsPlace};
ghost use Rattle.ts_regular.specs.OnePage.{IsEditedOn, IsPutAlone, with_row};
ghost use Rattle.ts_regular.specs.Call.{IsPut, AreLeft};

use crate::cell::base_of;
use crate::find::holder;
use crate::page::{count_taken, put_into};
use ts_base::StoreFault;
use ts_page::{Page, Pages};
use ts_row::{Row, Shelf};
use ts_space::{Come, Moved, Place, Space};

/// Puts a row, with its own mark, at an offset of a series, in place of one that is there, and tells which place goes
/// and comes. The page whose cells the offset is among is read and written; where the series has no such, one is taken.
/// Its head is compared with its place; one that disagrees is taken as a page without elements. After an error all
/// pages are as before; one may be taken. `page` is room to read one.
pub fn regular_put<P: Pages>(
    pages: &mut P,
    page: &mut Page,
    space: &Space,
    shelf: &Shelf,
    offset: u64,
    row: &Row,
) -> Result<Moved, StoreFault>
    requires slot { shelf.now.series < 4096 }
    requires limit { offset < 2 ^ 63 }
    requires places { ArePlaces shelf.now.kind.now.columns (P.contents pages.old)
        (places_of shelf.now.series space.now) }
    requires fits { IsTrue (fits shelf.now.kind.now.columns row.now) }
    requires spare { place_at (pos (base_of shelf.now.kind.now.columns offset)) (places_of shelf.now.series space.now)
        ≡ None
        → 0 < length (P.contents pages.old).free }
    ensures ok { IfOk result (λ moved. IsPut P.tells shelf.now.series shelf.now.kind.now.columns offset row.now
        (places_of shelf.now.series space.now) (moved_to moved (places_of shelf.now.series space.now))
        (P.contents pages.old) (P.contents pages.new)) }
    ensures err { OnErr result (AreLeft P.tells (P.contents pages.old) (P.contents pages.new)) }
    ensures call { Answered result (P.contents pages.old) (P.contents pages.new) }
    ensures change { (P.contents pages.new).change_bytes ≤ (P.contents pages.old).change_bytes + 4101 }
    ensures taken { length (P.contents pages.old).free ≤ length (P.contents pages.new).free + 1 }
    ensures undisturbed { P.undisturbed pages.old pages.new }
{
    let base = base_of(shelf.kind, offset);
    let cell = (offset - base) as usize;
    let places = space.places(shelf.series);
    match holder(places, base) {
        Ok(index) => {
            let place = put_on(pages, page, shelf, &places[index], base, cell, row)?;
            Ok(Moved {
                index,
                gone: 1,
                come: Come::One(place),
            })
        }
        Err(index) => {
            let place = put_alone(pages, page, shelf, base, cell, row)?;
            Ok(Moved {
                index,
                gone: 0,
                come: Come::One(place),
            })
        }
    }
}

// Puts it on the page of a place.
fn put_on<P: Pages>(
    pages: &mut P,
    page: &mut Page,
    shelf: &Shelf,
    place: &Place,
    base: u64,
    index: usize,
    row: &Row,
) -> Result<Place, StoreFault>
    requires place { IsPlace shelf.now.kind.now.columns (P.contents pages.old) place.now }
    requires at { place.now.at ≡ pos base }
    requires index { index < regular_room shelf.now.kind.now.columns }
    requires fits { IsTrue (fits shelf.now.kind.now.columns row.now) }
    ensures ok { IfOk result (λ now. IsEditedOn P.tells shelf.now.series shelf.now.kind.now.columns
        (with_row index row.now)
        place.now now (P.contents pages.old) (P.contents pages.new)) }
    ensures more { IfOk result (λ now. now.count ≤ place.now.count + 1) }
    ensures err { OnErr result (AreLeft P.tells (P.contents pages.old) (P.contents pages.new)) }
    ensures call { Answered result (P.contents pages.old) (P.contents pages.new) }
    ensures change { (P.contents pages.new).change_bytes ≤ (P.contents pages.old).change_bytes + 4101 }
    ensures free { (P.contents pages.new).free ≡ (P.contents pages.old).free }
    ensures undisturbed { P.undisturbed pages.old pages.new }
{
    pages.get(place.page, page)?;
    let had = count_taken(shelf, place.count, base, page);
    let count = put_into(shelf, page, base, had, index, row);
    pages.put(place.page, page)?;
    Ok(Place {
        at: place.at,
        page: place.page,
        count,
    })
}

// Puts it alone on a page that is taken.
fn put_alone<P: Pages>(
    pages: &mut P,
    page: &mut Page,
    shelf: &Shelf,
    base: u64,
    index: usize,
    row: &Row,
) -> Result<Place, StoreFault>
    requires slot { shelf.now.series < 4096 }
    requires limit { base < 2 ^ 63 }
    requires whole { base % regular_room shelf.now.kind.now.columns ≡ 0 }
    requires index { index < regular_room shelf.now.kind.now.columns }
    requires fits { IsTrue (fits shelf.now.kind.now.columns row.now) }
    requires spare { 0 < length (P.contents pages.old).free }
    ensures ok { IfOk result (λ now. IsPutAlone P.tells shelf.now.series shelf.now.kind.now.columns base index row.now
        now (P.contents pages.old) (P.contents pages.new)) }
    ensures err { OnErr result (AreLeft P.tells (P.contents pages.old) (P.contents pages.new)) }
    ensures call { Answered result (P.contents pages.old) (P.contents pages.new) }
    ensures change { (P.contents pages.new).change_bytes ≤ (P.contents pages.old).change_bytes + 4101 }
    ensures taken { length (P.contents pages.old).free ≡ length (P.contents pages.new).free + 1 }
    ensures undisturbed { P.undisturbed pages.old pages.new }
{
    *page = Page::zero();
    let count = put_into(shelf, page, base, 0, index, row);
    let number = pages.take();
    pages.put(number, page)?;
    Ok(Place {
        at: base as i64,
        page: number,
        count,
    })
}
