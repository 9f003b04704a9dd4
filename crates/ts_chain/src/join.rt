// A page goes together with its neighbour.
ghost use Rattle.std.specs.Prelude.{◌≡◌, ◌+◌, ◌<◌, ◌≤◌, Contains, IsTrue, IfOk, OnOk, List, ◌∷◌, ◌++◌, length, drop};
ghost use Rattle.ts_page.specs.Pages.{Answered, EqualPages, IsElementPage, with_page};
ghost use Rattle.ts_row.specs.Row.{Element};
ghost use Rattle.ts_cells.specs.IrregularPage.{page_room, AreElements, behind_head, irregular_page};
ghost use Rattle.ts_irregular.specs.OnePage.{IsOn};
ghost use Rattle.ts_irregular.specs.Call.{Reads};
ghost use Rattle.ts_space.specs.declared.place.Place.{Place as ThePlace};
ghost use Rattle.ts_sheets.specs.Places.{CanBeRead, FitsFirst, FitsLast};

use crate::page::append_page;
use ts_base::StoreFault;
use ts_irregular::count_taken;
use ts_page::{Page, Pages};
use ts_row::Shelf;
use ts_space::Place;

/// Whether so many elements fit one page with the place before that of an index.
pub(crate) fn fits_before(places: &[Place], index: usize, count: usize, room: usize) -> bool
    requires index { index < length places.now }
    requires few { count ≤ room }
    requires room { room ≤ 451 }
    ensures low { IsTrue result → 1 ≤ index }
    ensures yes { IsTrue result → (front back : List ThePlace) → places.now ≡ front ++ back → length front ≡ index
        → FitsLast room count front }
    ensures no { (front back : List ThePlace) → places.now ≡ front ++ back → length front ≡ index
        → FitsLast room count front → IsTrue result }
{
    if index == 0 {
        return false;
    }
    places[index - 1].count as usize + count <= room
}

/// And with the place behind it.
pub(crate) fn fits_behind(places: &[Place], index: usize, count: usize, room: usize) -> bool
    requires index { index < length places.now }
    requires few { count ≤ room }
    requires room { room ≤ 451 }
    ensures high { IsTrue result → index + 1 < length places.now }
    ensures yes { IsTrue result → (front : List ThePlace) (place : ThePlace) (back : List ThePlace) → places.now ≡ front
        ++ place ∷ back → length front ≡ index → FitsFirst room count back }
    ensures no { (front : List ThePlace) (place : ThePlace) (back : List ThePlace) → places.now ≡ front ++ place ∷ back
        → length front ≡ index → FitsFirst room count back → IsTrue result }
{
    if index + 1 >= places.len() {
        return false;
    }
    count + places[index + 1].count as usize <= room
}

/// Puts the elements of the page before in front of those of a page, and gives how many it has then. That page is read
/// alone; one that disagrees with its place is taken as a page without elements.
pub fn join_before<P: Pages>(
    pages: &mut P,
    page: &mut Page,
    shelf: &Shelf,
    before: &Place,
    count: usize,
) -> Result<usize, StoreFault>
    requires readable { CanBeRead (P.contents pages.old) before.now }
    requires room { before.now.count + count ≤ page_room shelf.now.kind.now.columns }
    ensures joined { IfOk result (λ all. IsTrue P.tells → (es fs : List Element)
        → IsOn shelf.now.series shelf.now.kind.now.columns ((P.contents pages.old).page before.now.page) before.now es
        → AreElements shelf.now.kind.now.columns fs → length fs ≡ count → drop 32 page.old.bytes
        ≡ behind_head shelf.now.kind.now.columns fs
        → (all ≡ before.now.count + count)
        × (page.new.bytes ≡ irregular_page shelf.now.series shelf.now.kind.now.columns (es ++ fs))) }
    ensures least { IfOk result (λ all. count ≤ all) }
    ensures most { IfOk result (λ all. all ≤ before.now.count + count) }
    ensures call { Reads P.tells result (P.contents pages.old) (P.contents pages.new) }
    ensures undisturbed { P.undisturbed pages.old pages.new }
{
    let mut all = Page::zero();
    pages.get(before.page, &mut all)?;
    let own = count_taken(shelf, before, &mut all);
    append_page(shelf, &mut all, own, page, count);
    *page = all;
    Ok(own + count)
}

/// Puts those of the page behind after them.
pub fn join_behind<P: Pages>(
    pages: &mut P,
    page: &mut Page,
    shelf: &Shelf,
    behind: &Place,
    count: usize,
) -> Result<usize, StoreFault>
    requires readable { CanBeRead (P.contents pages.old) behind.now }
    requires room { count + behind.now.count ≤ page_room shelf.now.kind.now.columns }
    ensures joined { IfOk result (λ all. IsTrue P.tells → (fs es : List Element)
        → IsOn shelf.now.series shelf.now.kind.now.columns ((P.contents pages.old).page behind.now.page) behind.now es
        → AreElements shelf.now.kind.now.columns fs → length fs ≡ count → drop 32 page.old.bytes
        ≡ behind_head shelf.now.kind.now.columns fs
        → (all ≡ count + behind.now.count)
        × (page.new.bytes ≡ irregular_page shelf.now.series shelf.now.kind.now.columns (fs ++ es))) }
    ensures least { IfOk result (λ all. count ≤ all) }
    ensures most { IfOk result (λ all. all ≤ count + behind.now.count) }
    ensures call { Reads P.tells result (P.contents pages.old) (P.contents pages.new) }
    ensures undisturbed { P.undisturbed pages.old pages.new }
{
    let mut others = Page::zero();
    pages.get(behind.page, &mut others)?;
    let own = count_taken(shelf, behind, &mut others);
    append_page(shelf, page, count, &others, own);
    Ok(count + own)
}

/// Puts two pages, one after the other.
pub(crate) fn put_two<P: Pages>(
    pages: &mut P,
    first: u32,
    page: &Page,
    second: u32,
    others: &Page,
) -> Result<(), StoreFault>
    requires first_element { IsElementPage first }
    requires second_element { IsElementPage second }
    requires first_below { first < (P.contents pages.old).count }
    requires second_below { second < (P.contents pages.old).count }
    requires first_used { ¬ Contains (P.contents pages.old).free first }
    requires second_used { ¬ Contains (P.contents pages.old).free second }
    ensures put { OnOk result (IsTrue P.tells →
        EqualPages (with_page second others.now.bytes (with_page first page.now.bytes (P.contents pages.old).page))
        (P.contents pages.new).page) }
    ensures free { (P.contents pages.new).free ≡ (P.contents pages.old).free }
    ensures call { Answered result (P.contents pages.old) (P.contents pages.new) }
    ensures change { (P.contents pages.new).change_bytes ≤ (P.contents pages.old).change_bytes + 8202 }
    ensures undisturbed { P.undisturbed pages.old pages.new }
{
    pages.put(first, page)?;
    pages.put(second, others)
}
