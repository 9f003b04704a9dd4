// The last element that isn't hidden.
ghost use Rattle.std.specs.Prelude.{◌≡◌, ◌+◌, ◌<◌, ◌<ℤ◌, ◌^◌, pos, All, IsTrue, IfOk, IfSome, IfNone, [], ◌∷◌, List};
ghost use Rattle.std.specs.Prelude.{length};
ghost use Rattle.ts_row.specs.Row.{fits};
ghost use Rattle.ts_space.specs.Directory.{places_of};
ghost use Rattle.ts_regular.specs.RegularPage.{Cell, regular_room, AreCells, behind_head, elements_from, last_seen};
ghost use Rattle.ts_regular.specs.Places.{CanBeRead};
ghost use Rattle.ts_regular.specs.OnePage.{IsLastCell};
ghost use Rattle.ts_regular.specs.Call.{Reads, IsLastIn};

use crate::cell::regular_room;
use crate::page::{agrees, has_seen_at, row_at};
use std::alloc::AllocError;
use ts_base::StoreFault;
use ts_page::{HEAD, Page, Pages};
use ts_row::{Row, RowType, Shelf};
use ts_space::{Place, Space};

/// The last element of a series, of those that aren't hidden. The pages are read from the last one backwards, each
/// once, up to the first that has such an element. The head of each is compared with its place; one that disagrees is
/// taken as a page without elements. All pages stay; `page` is room to read one.
pub fn regular_last<P: Pages>(
    pages: &mut P,
    page: &mut Page,
    space: &Space,
    shelf: &Shelf,
) -> Result<Option<(u64, Row)>, StoreFault>
    requires slot { shelf.now.series < 4096 }
    requires readable { All (CanBeRead (P.contents pages.old)) (places_of shelf.now.series space.now) }
    ensures last { IfOk result (IsLastIn P.tells shelf.now.series shelf.now.kind.now.columns
        (places_of shelf.now.series space.now)
        (P.contents pages.old)) }
    ensures fits { IfOk result (λ last. IfSome last (λ e. IsTrue (fits shelf.now.kind.now.columns e.1))) }
    ensures call { Reads P.tells result (P.contents pages.old) (P.contents pages.new) }
    ensures undisturbed { P.undisturbed pages.old pages.new }
{
    let places = space.places(shelf.series);
    let mut left = places.len();
    while left > 0 {
        let place = &places[left - 1];
        if let Some(last) = last_on(pages, page, shelf, place)? {
            return Ok(Some(last));
        }
        left -= 1;
    }
    Ok(None)
}

// That of one page.
fn last_on<P: Pages>(
    pages: &mut P,
    page: &mut Page,
    shelf: &Shelf,
    place: &Place,
) -> Result<Option<(u64, Row)>, StoreFault>
    requires readable { CanBeRead (P.contents pages.old) place.now }
    ensures last { IfOk result (IsLastIn P.tells shelf.now.series shelf.now.kind.now.columns (place.now ∷ [])
        (P.contents pages.old)) }
    ensures fits { IfOk result (λ last. IfSome last (λ e. IsTrue (fits shelf.now.kind.now.columns e.1))) }
    ensures call { Reads P.tells result (P.contents pages.old) (P.contents pages.new) }
    ensures undisturbed { P.undisturbed pages.old pages.new }
{
    let Some(base) = base_in(place) else {
        return Ok(None);
    };
    pages.get(place.page, page)?;
    if !agrees(shelf, place.count, base, page) {
        return Ok(None);
    }
    Ok(last_among(shelf.kind, &page.bytes[HEAD..], base)?)
}

// The offset of the first cell of the page of a place.
fn base_in(place: &Place) -> Option<u64>
    ensures found { IfSome result (λ base. place.now.at ≡ pos base) }
    ensures bound { IfSome result (λ base. base < 2 ^ 63) }
    ensures none { IfNone result (place.now.at <ℤ pos 0) }
{
    let at = place.at;
    if at < 0 { None } else { Some(at as u64) }
}

// The last element that isn't hidden of the cells behind the head of a page.
fn last_among(kind: &RowType, behind: &[u8], base: u64) -> Result<Option<(u64, Row)>, AllocError>
    requires size { length behind.now ≡ 4064 }
    requires base { base < 2 ^ 63 }
    ensures last { IfOk result (λ last. (cells : List Cell) → AreCells kind.now.columns cells
        → length cells ≡ regular_room kind.now.columns
        → behind.now ≡ behind_head kind.now.columns cells → last ≡ last_seen (elements_from base cells)) }
    ensures fits { IfOk result (λ last. IfSome last (λ e. IsTrue (fits kind.now.columns e.1))) }
{
    let Some(index) = index_of_last(kind, behind) else {
        return Ok(None);
    };
    match row_at(kind, behind, index)? {
        Some(row) => Ok(Some((base + index as u64, row))),
        None => Ok(None),
    }
}

// The number of the last cell with an element that isn't hidden.
fn index_of_last(kind: &RowType, behind: &[u8]) -> Option<usize>
    requires size { length behind.now ≡ 4064 }
    ensures last { (cells : List Cell) → AreCells kind.now.columns cells → length cells ≡ regular_room kind.now.columns
        → behind.now ≡ behind_head kind.now.columns cells → IsLastCell cells result }
    ensures within { IfSome result (λ index. index < regular_room kind.now.columns) }
{
    let mut left = regular_room(kind);
    while left > 0 {
        if has_seen_at(kind, behind, left - 1) {
            return Some(left - 1);
        }
        left -= 1;
    }
    None
}
