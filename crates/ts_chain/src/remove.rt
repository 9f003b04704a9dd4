// The element at a stamp is taken away.
ghost use Rattle.std.specs.Prelude.{◌≡◌, ◌+◌, ◌<◌, ◌≤◌, ◌<ℤ◌, ◌≤ℤ◌, IsTrue, IfOk, List, ◌∷◌, ◌++◌, length};
ghost use Rattle.ts_space.specs.declared.place.Place.{Place as ThePlace};
ghost use Rattle.ts_space.specs.Place.{IsRising};
ghost use Rattle.ts_space.specs.Directory.{places_of};
ghost use Rattle.ts_page.specs.Pages.{Answered};
ghost use Rattle.ts_cells.specs.IrregularPage.{page_room};
ghost use Rattle.ts_space.specs.Moved.{moved_to};
ghost use Rattle.ts_sheets.specs.Places.{ArePlaces, IsBeginning, IsHolder};
ghost use Rattle.ts_chain.specs.Call.{IsRemoved, IsTakenAway};
ghost use Rattle.ts_chain.specs.Window.{IsRestOf};

use crate::find::holder;
use crate::join::{fits_before, fits_behind};
use crate::merge::{merge_before, merge_behind};
use ts_base::{Stamp, StoreFault};
use ts_cells::page_room;
use ts_irregular::{count_taken, place_in, take_out};
use ts_page::{Page, Pages};
use ts_row::Shelf;
use ts_space::{Come, Moved, Place, Space};

/// Takes the element at a stamp away, and tells which places go and come; where none stands there all pages are as
/// before. The page that holds the stamp is read, its head compared with its place; one that disagrees is taken as a
/// page without elements. A page that loses its last element is freed; one that fits a page with the one before it, or
/// else with the one behind it, becomes one with that. After an error pages may have changed in part. `page` is room to
/// read one.
pub fn chain_remove<P: Pages>(
    pages: &mut P,
    page: &mut Page,
    space: &Space,
    shelf: &Shelf,
    stamp: Stamp,
) -> Result<Option<Moved>, StoreFault>
    requires slot { shelf.now.series < 4096 }
    requires places { ArePlaces shelf.now.kind.now.columns (P.contents pages.old)
        (places_of shelf.now.series space.now) }
    ensures ok { IfOk result (IsRemoved P.tells shelf.now.series shelf.now.kind.now.columns stamp
        (places_of shelf.now.series space.now)
        (P.contents pages.old) (P.contents pages.new)) }
    ensures call { Answered result (P.contents pages.old) (P.contents pages.new) }
    ensures change { (P.contents pages.new).change_bytes ≤ (P.contents pages.old).change_bytes + 4106 }
    ensures undisturbed { P.undisturbed pages.old pages.new }
{
    let places = space.places(shelf.series);
    let Some(index) = holder(places, stamp) else {
        return Ok(None);
    };
    pages.get(places[index].page, page)?;
    remove_read(pages, page, shelf, places, index, stamp)
}

// Takes it from the page that was read.
fn remove_read<P: Pages>(
    pages: &mut P,
    page: &mut Page,
    shelf: &Shelf,
    places: &[Place],
    index: usize,
    stamp: Stamp,
) -> Result<Option<Moved>, StoreFault>
    requires holder { IsHolder stamp places.now index }
    requires rising { IsRising places.now }
    requires places { ArePlaces shelf.now.kind.now.columns (P.contents pages.old) places.now }
    requires read { (h : IsHolder stamp places.now index) → IsTrue P.tells
        → page.old.bytes ≡ (P.contents pages.old).page h.place.page }
    ensures ok { IfOk result (IsRemoved P.tells shelf.now.series shelf.now.kind.now.columns stamp places.now
        (P.contents pages.old) (P.contents pages.new)) }
    ensures call { Answered result (P.contents pages.old) (P.contents pages.new) }
    ensures change { (P.contents pages.new).change_bytes ≤ (P.contents pages.old).change_bytes + 4106 }
    ensures undisturbed { P.undisturbed pages.old pages.new }
{
    let had = count_taken(shelf, &places[index], page);
    let count = take_out(shelf, page, had, stamp);
    if count == had {
        return Ok(None);
    }
    if count > 0 {
        return Ok(Some(keep_rest(pages, page, shelf, places, index, stamp, count)?));
    }
    pages.free(places[index].page)?;
    Ok(Some(Moved {
        index,
        gone: 1,
        come: Come::Nothing,
    }))
}

// Keeps the elements that are left, on that page or with those of a neighbour.
fn keep_rest<P: Pages>(
    pages: &mut P,
    page: &mut Page,
    shelf: &Shelf,
    places: &[Place],
    index: usize,
    stamp: Stamp,
    count: usize,
) -> Result<Moved, StoreFault>
    requires holder { IsHolder stamp places.now index }
    requires rising { IsRising places.now }
    requires places { ArePlaces shelf.now.kind.now.columns (P.contents pages.old) places.now }
    requires rest { (h : IsHolder stamp places.now index)
        → IsRestOf P.tells shelf.now.series shelf.now.kind.now.columns stamp h.place count page.old.bytes
        (P.contents pages.old) }
    requires some { 1 ≤ count }
    requires few { (h : IsHolder stamp places.now index) → count ≤ h.place.count }
    requires room { count ≤ page_room shelf.now.kind.now.columns }
    ensures ok { IfOk result (λ moved. IsTakenAway P.tells shelf.now.series shelf.now.kind.now.columns stamp places.now
        (moved_to moved places.now)
        (P.contents pages.old) (P.contents pages.new)) }
    ensures call { Answered result (P.contents pages.old) (P.contents pages.new) }
    ensures change { (P.contents pages.new).change_bytes ≤ (P.contents pages.old).change_bytes + 4106 }
    ensures undisturbed { P.undisturbed pages.old pages.new }
{
    let room = page_room(shelf.kind);
    let place = &places[index];
    if fits_before(places, index, count, room) {
        let before = &places[index - 1];
        let one = merge_before(pages, page, shelf, before, place, count)?;
        return Ok(Moved {
            index: index - 1,
            gone: 2,
            come: Come::One(one),
        });
    }
    let read = place_in(shelf, place.page, count, page);
    let left = left_of(places, index, &read);
    if fits_behind(places, index, count, room) {
        let behind = &places[index + 1];
        let one = merge_behind(pages, page, shelf, &left, behind, count)?;
        return Ok(Moved {
            index,
            gone: 2,
            come: Come::One(one),
        });
    }
    pages.put(place.page, page)?;
    Ok(Moved {
        index,
        gone: 1,
        come: Come::One(left),
    })
}

// The place of a page with what is left, as it was read there, kept in its room among the places.
fn left_of(places: &[Place], index: usize, read: &Place) -> Place
    requires index { index < length places.now }
    requires rising { IsRising places.now }
    ensures page { result.page ≡ read.now.page }
    ensures count { result.count ≡ read.now.count }
    ensures begins { (front : List ThePlace) (place : ThePlace) (back : List ThePlace) → places.now ≡ front ++ place
        ∷ back → length front ≡ index → IsBeginning read.now.at result.at place back }
{
    if index + 1 < places.len() {
        return left_below(&places[index], &places[index + 1], read);
    }
    left_alone(&places[index], read)
}

// It begins where it did or later.
fn left_alone(place: &Place, read: &Place) -> Place
    ensures page { result.page ≡ read.now.page }
    ensures count { result.count ≡ read.now.count }
    ensures low { place.now.at ≤ℤ result.at }
    ensures early { read.now.at <ℤ place.now.at → result.at ≡ place.now.at }
    ensures told { place.now.at ≤ℤ read.now.at → result.at ≡ read.now.at }
{
    let at = if read.at < place.at {
        place.at
    } else {
        read.at
    };
    Place {
        at,
        page: read.page,
        count: read.count,
    }
}

// And below the next place.
fn left_below(place: &Place, next: &Place, read: &Place) -> Place
    requires { place.now.at <ℤ next.now.at }
    ensures page { result.page ≡ read.now.page }
    ensures count { result.count ≡ read.now.count }
    ensures low { place.now.at ≤ℤ result.at }
    ensures below { result.at <ℤ next.now.at }
    ensures told { place.now.at ≤ℤ read.now.at → read.now.at <ℤ next.now.at → result.at ≡ read.now.at }
{
    if read.at < next.at {
        return left_alone(place, read);
    }
    Place {
        at: place.at,
        page: read.page,
        count: read.count,
    }
}
