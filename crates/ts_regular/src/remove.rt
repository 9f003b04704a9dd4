// The element at an offset is taken away.
ghost use Rattle.std.specs.Prelude.{◌≡◌, ◌+◌, ◌<◌, ◌≤◌, ◌^◌, pos, IfOk, OnErr, length};
ghost use Rattle.ts_space.specs.Directory.{places_of};
ghost use Rattle.ts_page.specs.Pages.{Answered};
ghost use Rattle.ts_regular.specs.RegularPage.{regular_room};
ghost use Rattle.ts_regular.specs.Places.{ArePlaces, IsPlace};
ghost use Rattle.ts_regular.specs.OnePage.{IsTakenOn};
ghost use Rattle.ts_regular.specs.Call.{IsRemoved, AreLeft};

use crate::cell::base_of;
use crate::find::holder;
use crate::page::{count_taken, take_out};
use ts_base::StoreFault;
use ts_page::{Page, Pages};
use ts_row::Shelf;
use ts_space::{Come, Moved, Place, Space};

/// Takes the element at an offset away, and tells which places go and come; where none stands there all pages are as
/// before. The page whose cells the offset is among is read and written; one that loses its last element is freed. Its
/// head is compared with its place; one that disagrees is taken as a page without elements. After an error all pages
/// are as before too. `page` is room to read one.
pub fn regular_remove<P: Pages>(
    pages: &mut P,
    page: &mut Page,
    space: &Space,
    shelf: &Shelf,
    offset: u64,
) -> Result<Option<Moved>, StoreFault>
    requires slot { shelf.now.series < 4096 }
    requires limit { offset < 2 ^ 63 }
    requires places { ArePlaces shelf.now.kind.now.columns (P.contents pages.old)
        (places_of shelf.now.series space.now) }
    ensures ok { IfOk result (IsRemoved P.tells shelf.now.series shelf.now.kind.now.columns offset
        (places_of shelf.now.series space.now)
        (P.contents pages.old) (P.contents pages.new)) }
    ensures err { OnErr result (AreLeft P.tells (P.contents pages.old) (P.contents pages.new)) }
    ensures call { Answered result (P.contents pages.old) (P.contents pages.new) }
    ensures change { (P.contents pages.new).change_bytes ≤ (P.contents pages.old).change_bytes + 4101 }
    ensures taken { length (P.contents pages.old).free ≤ length (P.contents pages.new).free }
    ensures undisturbed { P.undisturbed pages.old pages.new }
{
    let base = base_of(shelf.kind, offset);
    let places = space.places(shelf.series);
    let Ok(index) = holder(places, base) else {
        return Ok(None);
    };
    let place = &places[index];
    match take_on(pages, page, shelf, place, base, (offset - base) as usize)? {
        None => Ok(None),
        Some(come) => Ok(Some(Moved {
            index,
            gone: 1,
            come,
        })),
    }
}

// Takes it from the page of a place, and gives what comes in the stead of that.
fn take_on<P: Pages>(
    pages: &mut P,
    page: &mut Page,
    shelf: &Shelf,
    place: &Place,
    base: u64,
    index: usize,
) -> Result<Option<Come>, StoreFault>
    requires place { IsPlace shelf.now.kind.now.columns (P.contents pages.old) place.now }
    requires at { place.now.at ≡ pos base }
    requires index { index < regular_room shelf.now.kind.now.columns }
    ensures ok { IfOk result (IsTakenOn P.tells shelf.now.series shelf.now.kind.now.columns index place.now
        (P.contents pages.old) (P.contents pages.new)) }
    ensures err { OnErr result (AreLeft P.tells (P.contents pages.old) (P.contents pages.new)) }
    ensures call { Answered result (P.contents pages.old) (P.contents pages.new) }
    ensures change { (P.contents pages.new).change_bytes ≤ (P.contents pages.old).change_bytes + 4101 }
    ensures taken { length (P.contents pages.old).free ≤ length (P.contents pages.new).free }
    ensures undisturbed { P.undisturbed pages.old pages.new }
{
    pages.get(place.page, page)?;
    let had = count_taken(shelf, place.count, base, page);
    let count = take_out(shelf, page, base, had, index);
    if count == had {
        return Ok(None);
    }
    if count == 0 {
        pages.free(place.page)?;
        return Ok(Some(Come::Nothing));
    }
    pages.put(place.page, page)?;
    Ok(Some(Come::One(Place {
        at: place.at,
        page: place.page,
        count,
    })))
}
