// The pages at the two ends of a range, of which the elements before it and behind it are kept.
ghost use Rattle.std.specs.Prelude.{◌≡◌, ◌+◌, ◌≤◌, ◌≤ℤ◌, IsTrue, IfOk, List, length, take, drop};
ghost use Rattle.ts_space.specs.Place.{count_of};
ghost use Rattle.ts_row.specs.Row.{Element};
ghost use Rattle.ts_cells.specs.IrregularPage.{page_room, AreInOrder, behind_head};
ghost use Rattle.ts_irregular.specs.OnePage.{IsOn};
ghost use Rattle.ts_irregular.specs.Call.{Reads};
ghost use Rattle.ts_sheets.specs.Stamped.{earlier};
ghost use Rattle.ts_sheets.specs.Places.{CanBeRead};
ghost use Rattle.ts_series.specs.Ends.{later, EndsAt, OthersAreAbove, HasElements, AreEnds, AreEndsOf};
ghost use Rattle.std.specs.Prelude.{All};

use ts_base::{Stamp, StoreFault};
use ts_chain::{first_of, others_of};
use ts_irregular::{count_taken, search};
use ts_page::{HEAD, Page, Pages};
use ts_row::{RowType, Shelf};
use ts_space::Place;

/// How many elements are left at the two ends.
#[derive(Clone, Copy, Debug, PartialEq, Eq)]
pub(crate) struct Left {
    pub front: usize,
    pub back: usize,
}

/// Of the elements of some places side by side, keeps those that are earlier than a stamp on one page and those that
/// are later than another on a second. The pages at the two ends are read alone; one that disagrees with its place is
/// taken as a page without elements.
pub(crate) fn ends_of<P: Pages>(
    pages: &mut P,
    page: &mut Page,
    behind: &mut Page,
    shelf: &Shelf,
    places: &[Place],
    from: Stamp,
    to: Stamp,
) -> Result<Left, StoreFault>
    requires some { 1 ≤ length places.now }
    requires readable { All (CanBeRead (P.contents pages.old)) places.now }
    requires order { from ≤ℤ to }
    requires others { OthersAreAbove from places.now }
    requires ends { EndsAt to places.now }
    ensures told { IfOk result (λ left. AreEndsOf P.tells shelf.now.series shelf.now.kind.now.columns from to places.now
        (P.contents pages.old) left.front left.back page.new.bytes behind.new.bytes) }
    ensures front { IfOk result (λ left. left.front ≤ page_room shelf.now.kind.now.columns) }
    ensures back { IfOk result (λ left. left.back ≤ page_room shelf.now.kind.now.columns) }
    ensures few { IfOk result (λ left. left.front + left.back ≤ count_of places.now) }
    ensures call { Reads P.tells result (P.contents pages.old) (P.contents pages.new) }
    ensures undisturbed { P.undisturbed pages.old pages.new }
{
    let last = places.len() - 1;
    if last == 0 {
        return ends_of_one(pages, page, behind, shelf, &places[0], from, to);
    }
    let front = read_earlier(pages, page, shelf, &places[0], from)?;
    let back = read_later(pages, behind, shelf, &places[last], to)?;
    Ok(Left { front, back })
}

// Both ends stand on one page.
fn ends_of_one<P: Pages>(
    pages: &mut P,
    page: &mut Page,
    behind: &mut Page,
    shelf: &Shelf,
    place: &Place,
    from: Stamp,
    to: Stamp,
) -> Result<Left, StoreFault>
    requires readable { CanBeRead (P.contents pages.old) place.now }
    requires order { from ≤ℤ to }
    ensures told { IfOk result (λ left. IsTrue P.tells → (es : List Element)
        → IsOn shelf.now.series shelf.now.kind.now.columns ((P.contents pages.old).page place.now.page) place.now es
        → AreEnds shelf.now.series shelf.now.kind.now.columns from to es left.front left.back page.new.bytes behind.new.bytes) }
    ensures front { IfOk result (λ left. left.front ≤ page_room shelf.now.kind.now.columns) }
    ensures back { IfOk result (λ left. left.back ≤ page_room shelf.now.kind.now.columns) }
    ensures few { IfOk result (λ left. left.front + left.back ≤ place.now.count) }
    ensures call { Reads P.tells result (P.contents pages.old) (P.contents pages.new) }
    ensures undisturbed { P.undisturbed pages.old pages.new }
{
    pages.get(place.page, page)?;
    let count = count_taken(shelf, place, page);
    *behind = *page;
    let front = keep_earlier(shelf, page, count, from);
    let back = keep_later(shelf, behind, count, to);
    if front + back > count {
        // Its elements stand in no order.
        return Ok(Left { front: 0, back: 0 });
    }
    Ok(Left { front, back })
}

// Reads a page, and keeps the elements that are earlier than a stamp.
fn read_earlier<P: Pages>(
    pages: &mut P,
    page: &mut Page,
    shelf: &Shelf,
    place: &Place,
    from: Stamp,
) -> Result<usize, StoreFault>
    requires readable { CanBeRead (P.contents pages.old) place.now }
    ensures told { IfOk result (λ count. IsTrue P.tells → (es : List Element)
        → IsOn shelf.now.series shelf.now.kind.now.columns ((P.contents pages.old).page place.now.page) place.now es
        → HasElements shelf.now.series shelf.now.kind.now.columns (earlier from es) count page.new.bytes) }
    ensures room { IfOk result (λ count. count ≤ page_room shelf.now.kind.now.columns) }
    ensures few { IfOk result (λ count. count ≤ place.now.count) }
    ensures call { Reads P.tells result (P.contents pages.old) (P.contents pages.new) }
    ensures undisturbed { P.undisturbed pages.old pages.new }
{
    pages.get(place.page, page)?;
    let count = count_taken(shelf, place, page);
    Ok(keep_earlier(shelf, page, count, from))
}

// Those that are later.
fn read_later<P: Pages>(
    pages: &mut P,
    page: &mut Page,
    shelf: &Shelf,
    place: &Place,
    to: Stamp,
) -> Result<usize, StoreFault>
    requires readable { CanBeRead (P.contents pages.old) place.now }
    ensures told { IfOk result (λ count. IsTrue P.tells → (es : List Element)
        → IsOn shelf.now.series shelf.now.kind.now.columns ((P.contents pages.old).page place.now.page) place.now es
        → HasElements shelf.now.series shelf.now.kind.now.columns (later to es) count page.new.bytes) }
    ensures room { IfOk result (λ count. count ≤ page_room shelf.now.kind.now.columns) }
    ensures few { IfOk result (λ count. count ≤ place.now.count) }
    ensures call { Reads P.tells result (P.contents pages.old) (P.contents pages.new) }
    ensures undisturbed { P.undisturbed pages.old pages.new }
{
    pages.get(place.page, page)?;
    let count = count_taken(shelf, place, page);
    Ok(keep_later(shelf, page, count, to))
}

// Keeps the elements of a page that are earlier than a stamp, and gives how many they are.
fn keep_earlier(shelf: &Shelf, page: &mut Page, count: usize, from: Stamp) -> usize
    requires room { count ≤ page_room shelf.now.kind.now.columns }
    ensures kept { (es : List Element) → AreInOrder shelf.now.kind.now.columns es → length es ≡ count
        → drop 32 page.old.bytes ≡ behind_head shelf.now.kind.now.columns es
        → HasElements shelf.now.series shelf.now.kind.now.columns (earlier from es) result page.new.bytes }
    ensures few { result ≤ count }
{
    let keep = count_earlier(shelf.kind, &page.bytes[HEAD..], count, from);
    first_of(shelf, page, count, keep);
    keep
}

// Those that are later.
fn keep_later(shelf: &Shelf, page: &mut Page, count: usize, to: Stamp) -> usize
    requires room { count ≤ page_room shelf.now.kind.now.columns }
    ensures kept { (es : List Element) → AreInOrder shelf.now.kind.now.columns es → length es ≡ count
        → drop 32 page.old.bytes ≡ behind_head shelf.now.kind.now.columns es
        → HasElements shelf.now.series shelf.now.kind.now.columns (later to es) result page.new.bytes }
    ensures few { result ≤ count }
{
    let first = count_until(shelf.kind, &page.bytes[HEAD..], count, to);
    others_of(shelf, page, count, first);
    count - first
}

// How many elements are earlier than a stamp.
fn count_earlier(kind: &RowType, behind: &[u8], count: usize, from: Stamp) -> usize
    requires size { length behind.now ≡ 4064 }
    requires room { count ≤ page_room kind.now.columns }
    ensures front { (es : List Element) → AreInOrder kind.now.columns es → length es ≡ count
        → behind.now ≡ behind_head kind.now.columns es
        → earlier from es ≡ take result es }
    ensures few { result ≤ count }
{
    match search(kind, behind, count, from) {
        Ok(index) => index,
        Err(index) => index,
    }
}

// How many are at a stamp or earlier.
fn count_until(kind: &RowType, behind: &[u8], count: usize, to: Stamp) -> usize
    requires size { length behind.now ≡ 4064 }
    requires room { count ≤ page_room kind.now.columns }
    ensures back { (es : List Element) → AreInOrder kind.now.columns es → length es ≡ count
        → behind.now ≡ behind_head kind.now.columns es
        → later to es ≡ drop result es }
    ensures few { result ≤ count }
{
    match search(kind, behind, count, to) {
        Ok(index) => index + 1,
        Err(index) => index,
    }
}
