// A row is put at a stamp at which none is there.
ghost use Rattle.std.specs.Prelude.{◌≡◌, ◌+◌, ◌*◌, ◌<◌, ◌≤◌, IsTrue, IfOk, None, length};
ghost use Rattle.std.specs.Int.{int_min};
ghost use Rattle.ts_space.specs.Place.{IsRising, count_of};
ghost use Rattle.ts_space.specs.Directory.{places_of};
ghost use Rattle.ts_space.specs.Charge.{irregular_charge};
ghost use Rattle.ts_page.specs.Pages.{Answered};
ghost use Rattle.ts_row.specs.Row.{fits};
ghost use Rattle.ts_cells.specs.IrregularPage.{page_room};
ghost use Rattle.ts_sheets.specs.Places.{ArePlaces, IsTarget};
ghost use Rattle.ts_chain.specs.Call.{IsInserted};

use crate::find::holder;
use crate::page::halve;
use crate::split::{Target, keep_halves};
use ts_base::{Stamp, StoreFault};
use ts_cells::page_room;
use ts_irregular::{count_taken, insert_into, put_alone, search};
use ts_page::{HEAD, Page, Pages};
use ts_row::{Row, Shelf};
use ts_space::{Come, Moved, Place, Space};

/// Puts a row at a stamp at which no element of a series stands, hidden or not, and tells which places go and come;
/// where one stands there it gives none, and all pages are as before. One page is read: that of the place which holds
/// the stamp, or the first where all begin later; its head is compared with its place, and one that disagrees is taken
/// as a page without elements. A full page is parted in two halves, each of which goes together with its neighbour,
/// which is read then, where they fit one page; so at most four pages are written, taken or freed. A series without
/// places takes a page. After an error pages may have changed in part. `page` is room to read one.
pub fn chain_insert<P: Pages>(
    pages: &mut P,
    page: &mut Page,
    space: &Space,
    shelf: &Shelf,
    stamp: Stamp,
    row: &Row,
) -> Result<Option<Moved>, StoreFault>
    requires slot { shelf.now.series < 4096 }
    requires places { ArePlaces shelf.now.kind.now.columns (P.contents pages.old)
        (places_of shelf.now.series space.now) }
    requires fits { IsTrue (fits shelf.now.kind.now.columns row.now) }
    requires room { irregular_charge (page_room shelf.now.kind.now.columns)
        (count_of (places_of shelf.now.series space.now) + 1)
        ≤ length (P.contents pages.old).free + length (places_of shelf.now.series space.now) }
    ensures ok { IfOk result (IsInserted P.tells shelf.now.series shelf.now.kind.now.columns stamp row.now
        (places_of shelf.now.series space.now)
        (P.contents pages.old) (P.contents pages.new)) }
    ensures call { Answered result (P.contents pages.old) (P.contents pages.new) }
    ensures grows { IfOk result (λ moved. (P.contents pages.new).change_bytes + 5 * length (P.contents pages.old).free
        ≤ (P.contents pages.old).change_bytes + 5 * length (P.contents pages.new).free + 8207) }
    ensures change { (P.contents pages.new).change_bytes ≤ (P.contents pages.old).change_bytes + 8207 }
    ensures undisturbed { P.undisturbed pages.old pages.new }
{
    let places = space.places(shelf.series);
    if places.is_empty() {
        let place = put_alone(pages, page, shelf, stamp, row)?;
        return Ok(Some(Moved {
            index: 0,
            gone: 0,
            come: Come::One(place),
        }));
    }
    let index = target(places, stamp);
    pages.get(places[index].page, page)?;
    insert_read(pages, page, shelf, places, Target { stamp, index }, row)
}

// The index of the place whose page a stamp is put on.
fn target(places: &[Place], stamp: Stamp) -> usize
    requires some { 0 < length places.now }
    requires rising { IsRising places.now }
    ensures { IsTarget stamp places.now result }
{
    match holder(places, stamp) {
        Some(index) => index,
        None => 0,
    }
}

// Puts the row on the page that was read.
fn insert_read<P: Pages>(
    pages: &mut P,
    page: &mut Page,
    shelf: &Shelf,
    places: &[Place],
    target: Target,
    row: &Row,
) -> Result<Option<Moved>, StoreFault>
    requires target { IsTarget target.stamp places.now target.index }
    requires rising { IsRising places.now }
    requires places { ArePlaces shelf.now.kind.now.columns (P.contents pages.old) places.now }
    requires fits { IsTrue (fits shelf.now.kind.now.columns row.now) }
    requires room { irregular_charge (page_room shelf.now.kind.now.columns) (count_of places.now + 1) ≤ length
        (P.contents pages.old).free + length places.now }
    requires read { (t : IsTarget target.stamp places.now target.index) → IsTrue P.tells
        → page.old.bytes ≡ (P.contents pages.old).page t.place.page }
    ensures ok { IfOk result
        (IsInserted P.tells shelf.now.series shelf.now.kind.now.columns target.stamp row.now places.now
        (P.contents pages.old) (P.contents pages.new)) }
    ensures call { Answered result (P.contents pages.old) (P.contents pages.new) }
    ensures grows { IfOk result (λ moved. (P.contents pages.new).change_bytes + 5 * length (P.contents pages.old).free
        ≤ (P.contents pages.old).change_bytes + 5 * length (P.contents pages.new).free + 8207) }
    ensures change { (P.contents pages.new).change_bytes ≤ (P.contents pages.old).change_bytes + 8207 }
    ensures undisturbed { P.undisturbed pages.old pages.new }
{
    // It lies in the range; and a row has at most 1000 bytes, so there is room for one.
    let _units = target.stamp.units();
    let _width = shelf.kind.width();
    let place = &places[target.index];
    let count = count_taken(shelf, place, page);
    let Err(at) = search(shelf.kind, &page.bytes[HEAD..], count, target.stamp) else {
        return Ok(None);
    };
    if count < page_room(shelf.kind) {
        insert_into(shelf, page, count, at, target.stamp, row);
        pages.put(place.page, page)?;
        return Ok(Some(Moved {
            index: target.index,
            gone: 1,
            come: Come::One(grown(place, target.stamp, count)),
        }));
    }
    let mut others = Page::zero();
    halve(shelf, page, &mut others, at, target.stamp, row);
    let moved = keep_halves(pages, page, &mut others, shelf, places, target)?;
    Ok(Some(moved))
}

// The place of a page that had so many elements and has one more: it begins where it did, or at the stamp that was put
// before all.
fn grown(place: &Place, stamp: Stamp, count: usize) -> Place
    requires { count < 65535 }
    ensures page { result.page ≡ place.now.page }
    ensures count { result.count ≡ count + 1 }
    ensures at { result.at ≡ int_min place.now.at stamp }
{
    Place {
        at: place.at.min(stamp.units()),
        page: place.page,
        count: (count + 1) as u16,
    }
}
