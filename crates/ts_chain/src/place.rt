// The place of an element at a stamp that may be taken.
ghost use Rattle.std.specs.Prelude.{◌≡◌, ◌<◌, ◌≤◌, ◌≤ℤ◌, All, pos, ◌+ℤ◌, IfOk, IsTrue, List, length};
ghost use Rattle.std.specs.Option.{option_and_then};
ghost use Rattle.ts_base.specs.Moment.{IsStamp};
ghost use Rattle.ts_space.specs.Directory.{places_of};
ghost use Rattle.ts_row.specs.Row.{Element};
ghost use Rattle.ts_cells.specs.IrregularPage.{page_room, AreInOrder, behind_head};
ghost use Rattle.ts_irregular.specs.OnePage.{IsOn};
ghost use Rattle.ts_irregular.specs.Call.{Reads};
ghost use Rattle.ts_sheets.specs.Places.{CanBeRead};
ghost use Rattle.ts_sheets.specs.Stamped.{next_second, last_before, unit_after};
ghost use Rattle.ts_chain.specs.Call.{IsPlaceIn};

use crate::find::holder;
use ts_base::{Stamp, StoreFault};
use ts_cells::cell_size;
use ts_irregular::{count_told, search, units_at};
use ts_page::{HEAD, Page, Pages};
use ts_row::{RowType, Shelf};
use ts_space::{Place, Space};

/// The units of a second.
const SECOND: i64 = 100_000;

/// Where an element is put at a stamp: there, where none stands, hidden or not; else one unit behind the last one of
/// that second; none where that would be the next second. At most two pages are read: that of the place which holds the
/// stamp and, where one stands there, that which holds the last unit of its second. The head of each is compared with
/// its place; one that disagrees is taken as a page without elements. All pages stay; `page` is room to read one.
pub fn chain_place<P: Pages>(
    pages: &mut P,
    page: &mut Page,
    space: &Space,
    shelf: &Shelf,
    stamp: Stamp,
) -> Result<Option<Stamp>, StoreFault>
    requires slot { shelf.now.series < 4096 }
    requires readable { All (CanBeRead (P.contents pages.old)) (places_of shelf.now.series space.now) }
    ensures place { IfOk result (IsPlaceIn P.tells shelf.now.series shelf.now.kind.now.columns stamp
        (places_of shelf.now.series space.now)
        (P.contents pages.old)) }
    ensures call { Reads P.tells result (P.contents pages.old) (P.contents pages.new) }
    ensures undisturbed { P.undisturbed pages.old pages.new }
{
    let places = space.places(shelf.series);
    let Some(index) = holder(places, stamp) else {
        return Ok(Some(stamp));
    };
    let place = &places[index];
    let count = count_on(pages, page, shelf, place)?;
    let Ok(_) = search(shelf.kind, &page.bytes[HEAD..], count, stamp) else {
        return Ok(Some(stamp));
    };
    let end = last_unit(stamp);
    let Some(last) = holder(places, end) else {
        return Ok(None);
    };
    if last == index {
        return Ok(behind_last(shelf.kind, &page.bytes[HEAD..], count, end));
    }
    let place = &places[last];
    let count = count_on(pages, page, shelf, place)?;
    Ok(behind_last(shelf.kind, &page.bytes[HEAD..], count, end))
}

// Reads a page, and tells how many elements it has by its head; none where that disagrees with its place.
fn count_on<P: Pages>(
    pages: &mut P,
    page: &mut Page,
    shelf: &Shelf,
    place: &Place,
) -> Result<usize, StoreFault>
    requires readable { CanBeRead (P.contents pages.old) place.now }
    ensures told { IfOk result (λ count. IsTrue P.tells → (es : List Element)
        → IsOn shelf.now.series shelf.now.kind.now.columns ((P.contents pages.old).page place.now.page) place.now es
        → IsOn shelf.now.series shelf.now.kind.now.columns page.new.bytes place.now es × (length es ≡ count)) }
    ensures room { IfOk result (λ count. count ≤ page_room shelf.now.kind.now.columns) }
    ensures call { Reads P.tells result (P.contents pages.old) (P.contents pages.new) }
    ensures undisturbed { P.undisturbed pages.old pages.new }
{
    pages.get(place.page, page)?;
    Ok(count_told(shelf, place, page))
}

// One unit behind the last of the elements that are no later than the last unit of a second, if there is one; none
// where that is the next second.
fn behind_last(kind: &RowType, behind: &[u8], count: usize, end: Stamp) -> Option<Stamp>
    requires size { length behind.now ≡ 4064 }
    requires room { count ≤ page_room kind.now.columns }
    requires last { IsStamp end }
    ensures { (es : List Element) → AreInOrder kind.now.columns es → length es ≡ count
        → behind.now ≡ behind_head kind.now.columns es
        → result ≡ option_and_then (unit_after (end +ℤ pos 1)) (last_before (end +ℤ pos 1) es) }
{
    let Err(rank) = search(kind, behind, count, end) else {
        return None;
    };
    if rank == 0 {
        return None;
    }
    let last = Stamp::of(units_at(behind, cell_size(kind), rank - 1))?;
    Stamp::of(last.units() + 1)
}

// The last unit of the second of a stamp.
fn last_unit(stamp: Stamp) -> Stamp
    ensures next { result +ℤ pos 1 ≡ next_second stamp }
    ensures later { stamp ≤ℤ result }
    ensures within { IsStamp result }
{
    let units = stamp.units().div_euclid(SECOND) * SECOND + (SECOND - 1);
    match Stamp::of(units) {
        Some(end) => end,
        None => stamp,
    }
}
