// The mark of the element at an offset is set.
ghost use Rattle.std.specs.Prelude.{◌≡◌, ◌+◌, ◌<◌, ◌≤◌, ◌^◌, pos, IfOk, OnErr};
ghost use Rattle.ts_space.specs.Directory.{places_of};
ghost use Rattle.ts_page.specs.Pages.{Answered};
ghost use Rattle.ts_regular.specs.RegularPage.{regular_room};
ghost use Rattle.ts_regular.specs.Places.{ArePlaces, IsPlace};
ghost use Rattle.ts_regular.specs.OnePage.{IsMarkedOn, IsThereOn};
ghost use Rattle.ts_regular.specs.Call.{IsMarked, AreLeft, Reads};

use crate::cell::base_of;
use crate::find::holder;
use crate::page::{agrees, has_element_at, mark_at};
use ts_base::StoreFault;
use ts_page::{HEAD, Page, Pages};
use ts_row::Shelf;
use ts_space::{Place, Space};

/// Hides the element at an offset, or reveals it, and tells whether one is there; where none stands there all pages are
/// as before. Its values and all places stay; setting a mark twice is no error. The page whose cells the offset is
/// among is read and written. Its head is compared with its place; one that disagrees is taken as a page without
/// elements. After an error all pages are as before too. `page` is room to read one.
pub fn regular_mark<P: Pages>(
    pages: &mut P,
    page: &mut Page,
    space: &Space,
    shelf: &Shelf,
    offset: u64,
    hidden: bool,
) -> Result<bool, StoreFault>
    requires slot { shelf.now.series < 4096 }
    requires limit { offset < 2 ^ 63 }
    requires places { ArePlaces shelf.now.kind.now.columns (P.contents pages.old)
        (places_of shelf.now.series space.now) }
    ensures ok { IfOk result (IsMarked P.tells shelf.now.series shelf.now.kind.now.columns offset hidden
        (places_of shelf.now.series space.now)
        (P.contents pages.old) (P.contents pages.new)) }
    ensures err { OnErr result (AreLeft P.tells (P.contents pages.old) (P.contents pages.new)) }
    ensures call { Answered result (P.contents pages.old) (P.contents pages.new) }
    ensures change { (P.contents pages.new).change_bytes ≤ (P.contents pages.old).change_bytes + 4101 }
    ensures undisturbed { P.undisturbed pages.old pages.new }
{
    let base = base_of(shelf.kind, offset);
    let places = space.places(shelf.series);
    let Ok(index) = holder(places, base) else {
        return Ok(false);
    };
    let place = &places[index];
    mark_on(
        pages,
        page,
        shelf,
        place,
        base,
        (offset - base) as usize,
        hidden,
    )
}

// Sets it on the page of a place.
fn mark_on<P: Pages>(
    pages: &mut P,
    page: &mut Page,
    shelf: &Shelf,
    place: &Place,
    base: u64,
    index: usize,
    hidden: bool,
) -> Result<bool, StoreFault>
    requires place { IsPlace shelf.now.kind.now.columns (P.contents pages.old) place.now }
    requires at { place.now.at ≡ pos base }
    requires index { index < regular_room shelf.now.kind.now.columns }
    ensures ok { IfOk result (IsMarkedOn P.tells shelf.now.series shelf.now.kind.now.columns index hidden place.now
        (P.contents pages.old) (P.contents pages.new)) }
    ensures err { OnErr result (AreLeft P.tells (P.contents pages.old) (P.contents pages.new)) }
    ensures call { Answered result (P.contents pages.old) (P.contents pages.new) }
    ensures change { (P.contents pages.new).change_bytes ≤ (P.contents pages.old).change_bytes + 4101 }
    ensures undisturbed { P.undisturbed pages.old pages.new }
{
    if !is_there(pages, page, shelf, place, base, index)? {
        return Ok(false);
    }
    mark_at(shelf.kind, &mut page.bytes[HEAD..], index, hidden);
    pages.put(place.page, page)?;
    Ok(true)
}

// Reads the page of a place, and tells whether a cell has an element.
fn is_there<P: Pages>(
    pages: &mut P,
    page: &mut Page,
    shelf: &Shelf,
    place: &Place,
    base: u64,
    index: usize,
) -> Result<bool, StoreFault>
    requires place { IsPlace shelf.now.kind.now.columns (P.contents pages.old) place.now }
    requires at { place.now.at ≡ pos base }
    requires index { index < regular_room shelf.now.kind.now.columns }
    ensures there { IfOk result
        (IsThereOn P.tells shelf.now.series shelf.now.kind.now.columns index place.now page.new.bytes
        (P.contents pages.old)) }
    ensures call { Reads P.tells result (P.contents pages.old) (P.contents pages.new) }
    ensures undisturbed { P.undisturbed pages.old pages.new }
{
    pages.get(place.page, page)?;
    if !agrees(shelf, place.count, base, page) {
        return Ok(false);
    }
    Ok(has_element_at(shelf.kind, &page.bytes[HEAD..], index))
}
