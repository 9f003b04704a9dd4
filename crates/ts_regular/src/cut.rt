// The elements in a range of offsets are taken out of the pages at its two ends.
ghost use Rattle.std.specs.Prelude.{◌≡◌, ◌+◌, ◌<◌, ◌≤◌, ◌≤ℤ◌, pos, min, ◌-◌, IfOk, List, length, drop};
ghost use Rattle.ts_space.specs.Place.{AreBelow, IsRising};
ghost use Rattle.ts_page.specs.Pages.{Answered};
ghost use Rattle.ts_regular.specs.RegularPage.{Cell, regular_room, base_of, AreCells, behind_head, filled_count};
ghost use Rattle.ts_regular.specs.RegularPage.{regular_page};
ghost use Rattle.ts_regular.specs.Places.{ArePlaces, IsPlace};
ghost use Rattle.ts_regular.specs.OnePage.{KeepsOthers, without_row};
ghost use Rattle.ts_regular.specs.Call.{Stays};
ghost use Rattle.ts_regular.specs.Cut.{AreCutTo, AreNotBelow, IsCutTo, cells_outside, cuts_of};

use crate::cell::regular_room;
use crate::page::{count_taken, empty_cell, has_element_at, set_count};
use ts_base::StoreFault;
use ts_page::{HEAD, Page, Pages};
use ts_row::{RowType, Shelf};
use ts_space::Place;

/// How many elements are left of the first page of some, and of the last where that is another.
#[derive(Clone, Copy, Debug, PartialEq, Eq)]
pub(crate) struct Left {
    pub(crate) front: u16,
    pub(crate) back: u16,
}

/// Takes the elements in a range of offsets out of the pages of places that have cells for it, and tells how many are
/// left of the two ends. The pages at the ends alone are read, and written where some went and some are left; the
/// others stay, and none of theirs is left.
pub(crate) fn cut_ends<P: Pages>(
    pages: &mut P,
    page: &mut Page,
    shelf: &Shelf,
    places: &[Place],
    from: u64,
    to: u64,
) -> Result<Left, StoreFault>
    requires some { 1 ≤ length places.now }
    requires order { from < to }
    requires rising { IsRising places.now }
    requires begins { AreNotBelow (pos (base_of shelf.now.kind.now.columns from)) places.now }
    requires ends { AreBelow (pos to) places.now }
    requires places { ArePlaces shelf.now.kind.now.columns (P.contents pages.old) places.now }
    ensures cut { IfOk result (λ left. AreCutTo P.tells shelf.now.series shelf.now.kind.now.columns from to places.now
        (cuts_of left.front left.back places.now) (P.contents pages.old) (P.contents pages.new)) }
    ensures alone { IfOk result (λ left. length places.now ≡ 1 → left.back ≡ 0) }
    ensures call { Answered result (P.contents pages.old) (P.contents pages.new) }
    ensures change { (P.contents pages.new).change_bytes ≤ (P.contents pages.old).change_bytes + 8202 }
    ensures undisturbed { P.undisturbed pages.old pages.new }
{
    let last = places.len() - 1;
    let front = cut(pages, page, shelf, &places[0], from, to)?;
    if last == 0 {
        return Ok(Left { front, back: 0 });
    }
    let back = cut(pages, page, shelf, &places[last], from, to)?;
    Ok(Left { front, back })
}

// Takes them out of the page of one place, and gives how many are left. Where none went or none is left, no page
// changes.
fn cut<P: Pages>(
    pages: &mut P,
    page: &mut Page,
    shelf: &Shelf,
    place: &Place,
    from: u64,
    to: u64,
) -> Result<u16, StoreFault>
    requires order { from < to }
    requires low { pos 0 ≤ℤ place.now.at }
    requires place { IsPlace shelf.now.kind.now.columns (P.contents pages.old) place.now }
    ensures cut { IfOk result
        (λ left. IsCutTo P.tells shelf.now.series shelf.now.kind.now.columns from to left place.now
        (P.contents pages.old) (P.contents pages.new)) }
    ensures same { IfOk result (λ left. left ≡ place.now.count
        → Stays P.tells (P.contents pages.old) (P.contents pages.new)) }
    ensures others { KeepsOthers P.tells place.now.page (P.contents pages.old) (P.contents pages.new) }
    ensures free { (P.contents pages.new).free ≡ (P.contents pages.old).free }
    ensures call { Answered result (P.contents pages.old) (P.contents pages.new) }
    ensures change { (P.contents pages.new).change_bytes ≤ (P.contents pages.old).change_bytes + 4101 }
    ensures undisturbed { P.undisturbed pages.old pages.new }
{
    let base = begin_of(place);
    pages.get(place.page, page)?;
    let had = count_taken(shelf, place.count, base, page);
    let left = clear_page(shelf, page, base, had, from, to);
    if left == place.count || left == 0 {
        return Ok(left);
    }
    pages.put(place.page, page)?;
    Ok(left)
}

// The offset of the first cell of the page of a place.
fn begin_of(place: &Place) -> u64
    requires { pos 0 ≤ℤ place.now.at }
    ensures { place.now.at ≡ pos result }
{
    place.at as u64
}

// Takes them out of a page with so many elements, and gives how many are left.
fn clear_page(shelf: &Shelf, page: &mut Page, base: u64, count: u16, from: u64, to: u64) -> u16
    requires order { from < to }
    ensures cleared { (cells : List Cell) → AreCells shelf.now.kind.now.columns cells
        → length cells ≡ regular_room shelf.now.kind.now.columns
        → filled_count cells ≡ count → drop 32 page.old.bytes ≡ behind_head shelf.now.kind.now.columns cells
        → (filled_count (cells_outside from to base cells) ≡ result)
        × (page.new.bytes ≡ regular_page shelf.now.series shelf.now.kind.now.columns base
        (cells_outside from to base cells)) }
    ensures fewer { result ≤ count }
{
    let left = clear_cells(shelf.kind, &mut page.bytes[HEAD..], base, count, from, to);
    set_count(shelf, page, base, left);
    left
}

// Takes them out of the cells of a page.
fn clear_cells(kind: &RowType, behind: &mut [u8], base: u64, count: u16, from: u64, to: u64) -> u16
    requires size { length behind.old ≡ 4064 }
    requires order { from < to }
    ensures cleared { (cells : List Cell) → AreCells kind.now.columns cells
        → length cells ≡ regular_room kind.now.columns
        → filled_count cells ≡ count → behind.old ≡ behind_head kind.now.columns cells
        → (filled_count (cells_outside from to base cells) ≡ result)
        × (behind.new ≡ behind_head kind.now.columns (cells_outside from to base cells)) }
    ensures fewer { result ≤ count }
{
    let room = regular_room(kind);
    let mut left = count;
    for index in cells_before(from, base, room)..cells_before(to, base, room) {
        left = take_cell(kind, behind, index, left);
    }
    left
}

// How many cells of a page stand before an offset.
fn cells_before(offset: u64, base: u64, room: usize) -> usize
    ensures { result ≡ min (offset - base) room }
{
    offset.saturating_sub(base).min(room as u64) as usize
}

// Takes the element in a cell out, if there is one, and gives how many are left.
fn take_cell(kind: &RowType, behind: &mut [u8], index: usize, count: u16) -> u16
    requires size { length behind.old ≡ 4064 }
    requires index { index < regular_room kind.now.columns }
    ensures taken { (cells : List Cell) → AreCells kind.now.columns cells → index < length cells
        → filled_count cells ≡ count → behind.old ≡ behind_head kind.now.columns cells
        → (filled_count (without_row index cells) ≡ result)
        × (behind.new ≡ behind_head kind.now.columns (without_row index cells)) }
    ensures fewer { result ≤ count }
{
    if count == 0 {
        return 0;
    }
    if !has_element_at(kind, behind, index) {
        return count;
    }
    empty_cell(kind, behind, index);
    count - 1
}
