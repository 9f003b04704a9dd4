// Two pieces of elements are put on the first of some pages, and the others are freed.
ghost use Rattle.std.specs.Prelude.{◌≡◌, ℕ, ◌+◌, ◌*◌, ◌^◌, ◌<◌, ◌≤◌, ◌<ℤ◌, ◌≤ℤ◌, true, false, IsPermutation, IsTrue};
ghost use Rattle.std.specs.Prelude.{IfOk, OnOk, Contains, List, ◌∷◌, ◌++◌, length, drop};
ghost use Rattle.ts_space.specs.declared.place.Place.{Place as ThePlace};
ghost use Rattle.ts_space.specs.Place.{IsRising, count_of, pages_of};
ghost use Rattle.ts_space.specs.Moved.{list_of};
ghost use Rattle.ts_page.specs.Pages.{Answered};
ghost use Rattle.ts_row.specs.Row.{Element};
ghost use Rattle.ts_cells.specs.IrregularPage.{page_room, AreInOrder};
ghost use Rattle.ts_sheets.specs.Places.{AreChained, ArePlaces, IsBeginning};
ghost use Rattle.ts_series.specs.Ends.{HasElements, AreUsed, AreKept, pieces, HasShape, BeginApart, BeginTogether};
ghost use Rattle.ts_series.specs.Ends.{CanBegin};

use crate::ends::Left;
use std::alloc::Global;
use ts_base::StoreFault;
use ts_cells::page_room;
use ts_chain::{append_page, free_pages};
use ts_irregular::place_in;
use ts_page::{Page, Pages};
use ts_row::Shelf;
use ts_space::{Come, Place};

/// Puts the elements of two pages on the first two of the pages that go, or together on the first, frees the others,
/// and gives the places that come. Where there are no elements all are freed.
pub(crate) fn lay<P: Pages>(
    alloc: Global,
    pages: &mut P,
    page: &mut Page,
    behind: &Page,
    shelf: &Shelf,
    gone: &[Place],
    back: &[Place],
    left: Left,
    apart: bool,
) -> Result<Come, StoreFault>
    requires some { 1 ≤ length gone.now }
    requires rising { IsRising (gone.now ++ back.now) }
    requires places { ArePlaces shelf.now.kind.now.columns (P.contents pages.old) gone.now }
    requires apart { IsTrue apart → (2 ≤ length gone.now) × (1 ≤ left.front) × (1 ≤ left.back)
        × (left.front ≤ page_room shelf.now.kind.now.columns) × (left.back ≤ page_room shelf.now.kind.now.columns) }
    requires together { apart ≡ false → left.front + left.back ≤ page_room shelf.now.kind.now.columns }
    ensures kept { IfOk result (λ come. AreKept P.tells shelf.now.kind.now.columns gone.now (list_of come) back.now
        (P.contents pages.old) (P.contents pages.new)) }
    ensures shape { IfOk result (HasShape apart) }
    ensures count { IfOk result (λ come. count_of (list_of come) ≡ left.front + left.back) }
    ensures told { IfOk result (λ come. IsTrue P.tells → shelf.now.series < 2 ^ 16 → (xs ys : List Element)
        → HasElements shelf.now.series shelf.now.kind.now.columns xs left.front page.old.bytes
        → HasElements shelf.now.series shelf.now.kind.now.columns ys left.back behind.now.bytes
        → AreInOrder shelf.now.kind.now.columns (xs ++ ys) → CanBegin apart gone.now back.now xs ys
        → AreChained shelf.now.series shelf.now.kind.now.columns (P.contents pages.new).page (list_of come)
        (pieces come xs ys)) }
    ensures call { Answered result (P.contents pages.old) (P.contents pages.new) }
    ensures change { (P.contents pages.new).change_bytes ≤
        (P.contents pages.old).change_bytes + 8202 + 5 * length gone.now }
    ensures grows { OnOk result ((P.contents pages.new).change_bytes + 5 * length (P.contents pages.old).free ≤
        (P.contents pages.old).change_bytes + 5 * length (P.contents pages.new).free + 8202) }
    ensures undisturbed { P.undisturbed pages.old pages.new }
{
    if apart {
        return lay_apart(alloc, pages, page, behind, shelf, gone, back, left);
    }
    append_page(shelf, page, left.front, behind, left.back);
    lay_together(
        alloc,
        pages,
        page,
        shelf,
        gone,
        back,
        left.front + left.back,
    )
}

// On two pages.
fn lay_apart<P: Pages>(
    alloc: Global,
    pages: &mut P,
    page: &Page,
    behind: &Page,
    shelf: &Shelf,
    gone: &[Place],
    back: &[Place],
    left: Left,
) -> Result<Come, StoreFault>
    requires two { 2 ≤ length gone.now }
    requires rising { IsRising (gone.now ++ back.now) }
    requires places { ArePlaces shelf.now.kind.now.columns (P.contents pages.old) gone.now }
    requires some { (1 ≤ left.front) × (1 ≤ left.back) }
    requires room { (left.front ≤ page_room shelf.now.kind.now.columns)
        × (left.back ≤ page_room shelf.now.kind.now.columns) }
    ensures kept { IfOk result (λ come. AreKept P.tells shelf.now.kind.now.columns gone.now (list_of come) back.now
        (P.contents pages.old) (P.contents pages.new)) }
    ensures shape { IfOk result (HasShape true) }
    ensures count { IfOk result (λ come. count_of (list_of come) ≡ left.front + left.back) }
    ensures told { IfOk result (λ come. IsTrue P.tells → shelf.now.series < 2 ^ 16 → (xs ys : List Element)
        → HasElements shelf.now.series shelf.now.kind.now.columns xs left.front page.now.bytes
        → HasElements shelf.now.series shelf.now.kind.now.columns ys left.back behind.now.bytes
        → AreInOrder shelf.now.kind.now.columns (xs ++ ys) → BeginApart gone.now back.now xs ys
        → AreChained shelf.now.series shelf.now.kind.now.columns (P.contents pages.new).page (list_of come)
        (pieces come xs ys)) }
    ensures call { Answered result (P.contents pages.old) (P.contents pages.new) }
    ensures change { (P.contents pages.new).change_bytes ≤
        (P.contents pages.old).change_bytes + 8202 + 5 * length gone.now }
    ensures grows { OnOk result ((P.contents pages.new).change_bytes + 5 * length (P.contents pages.old).free ≤
        (P.contents pages.old).change_bytes + 5 * length (P.contents pages.new).free + 8202) }
    ensures undisturbed { P.undisturbed pages.old pages.new }
{
    // No page has room for more than 451.
    let _room = page_room(shelf.kind);
    let first = recounted(&gone[0], left.front);
    let read = place_in(shelf, gone[1].page, left.back, behind);
    let second = begun(&gone[1], back, &read);
    put_two(alloc, pages, gone, page, behind)?;
    Ok(Come::Two(first, second))
}

// On one.
fn lay_together<P: Pages>(
    alloc: Global,
    pages: &mut P,
    page: &Page,
    shelf: &Shelf,
    gone: &[Place],
    back: &[Place],
    all: usize,
) -> Result<Come, StoreFault>
    requires some { 1 ≤ length gone.now }
    requires rising { IsRising (gone.now ++ back.now) }
    requires places { ArePlaces shelf.now.kind.now.columns (P.contents pages.old) gone.now }
    requires room { all ≤ page_room shelf.now.kind.now.columns }
    ensures kept { IfOk result (λ come. AreKept P.tells shelf.now.kind.now.columns gone.now (list_of come) back.now
        (P.contents pages.old) (P.contents pages.new)) }
    ensures shape { IfOk result (HasShape false) }
    ensures count { IfOk result (λ come. count_of (list_of come) ≡ all) }
    ensures told { IfOk result (λ come. IsTrue P.tells → shelf.now.series < 2 ^ 16 → (xs ys : List Element)
        → HasElements shelf.now.series shelf.now.kind.now.columns (xs ++ ys) all page.now.bytes
        → AreInOrder shelf.now.kind.now.columns (xs ++ ys) → BeginTogether gone.now back.now (xs ++ ys)
        → AreChained shelf.now.series shelf.now.kind.now.columns (P.contents pages.new).page (list_of come)
        (pieces come xs ys)) }
    ensures call { Answered result (P.contents pages.old) (P.contents pages.new) }
    ensures change { (P.contents pages.new).change_bytes ≤
        (P.contents pages.old).change_bytes + 8202 + 5 * length gone.now }
    ensures grows { OnOk result ((P.contents pages.new).change_bytes + 5 * length (P.contents pages.old).free ≤
        (P.contents pages.old).change_bytes + 5 * length (P.contents pages.new).free + 8202) }
    ensures undisturbed { P.undisturbed pages.old pages.new }
{
    if all == 0 {
        free_pages(alloc, pages, gone)?;
        return Ok(Come::Nothing);
    }
    let read = place_in(shelf, gone[0].page, all, page);
    let one = begun(&gone[0], back, &read);
    put_one(alloc, pages, gone, page)?;
    Ok(Come::One(one))
}

// Puts a page in place of the first, and frees the others.
fn put_one<P: Pages>(
    alloc: Global,
    pages: &mut P,
    gone: &[Place],
    page: &Page,
) -> Result<(), StoreFault>
    requires some { 1 ≤ length gone.now }
    requires places { AreUsed (P.contents pages.old) gone.now }
    ensures put { OnOk result (IsTrue P.tells → (a : ThePlace) (gs : List ThePlace) → gone.now ≡ a ∷ gs
        → (P.contents pages.new).page a.page ≡ page.now.bytes) }
    ensures others { OnOk result (IsTrue P.tells → (number : ℕ) → ¬ Contains (pages_of gone.now) number
        → (P.contents pages.new).page number ≡ (P.contents pages.old).page number) }
    ensures free { OnOk result (IsPermutation ((P.contents pages.old).free ++ pages_of (drop 1 gone.now))
        (P.contents pages.new).free) }
    ensures call { Answered result (P.contents pages.old) (P.contents pages.new) }
    ensures change { (P.contents pages.new).change_bytes ≤ (P.contents pages.old).change_bytes + 4101 + 5 * length
        (drop 1 gone.now) }
    ensures undisturbed { P.undisturbed pages.old pages.new }
{
    pages.put(gone[0].page, page)?;
    free_pages(alloc, pages, &gone[1..])
}

// Puts two pages in place of the first two, and frees the others.
fn put_two<P: Pages>(
    alloc: Global,
    pages: &mut P,
    gone: &[Place],
    page: &Page,
    behind: &Page,
) -> Result<(), StoreFault>
    requires two { 2 ≤ length gone.now }
    requires places { AreUsed (P.contents pages.old) gone.now }
    ensures put { OnOk result (IsTrue P.tells → (a b : ThePlace) (gs : List ThePlace) → gone.now ≡ a ∷ b ∷ gs
        → ((P.contents pages.new).page a.page ≡ page.now.bytes)
        × ((P.contents pages.new).page b.page ≡ behind.now.bytes)) }
    ensures others { OnOk result (IsTrue P.tells → (number : ℕ) → ¬ Contains (pages_of gone.now) number
        → (P.contents pages.new).page number ≡ (P.contents pages.old).page number) }
    ensures free { OnOk result (IsPermutation ((P.contents pages.old).free ++ pages_of (drop 2 gone.now))
        (P.contents pages.new).free) }
    ensures call { Answered result (P.contents pages.old) (P.contents pages.new) }
    ensures change { (P.contents pages.new).change_bytes ≤ (P.contents pages.old).change_bytes + 8202 + 5 * length
        (drop 2 gone.now) }
    ensures undisturbed { P.undisturbed pages.old pages.new }
{
    pages.put(gone[0].page, page)?;
    pages.put(gone[1].page, behind)?;
    free_pages(alloc, pages, &gone[2..])
}

// A place with another number of elements.
fn recounted(place: &Place, count: usize) -> Place
    requires { count ≤ 451 }
    ensures at { result.at ≡ place.now.at }
    ensures page { result.page ≡ place.now.page }
    ensures count { result.count ≡ count }
{
    Place {
        at: place.at,
        page: place.page,
        count: count as u16,
    }
}

// The place of a page as it was read, kept in its room: not before it began, and below the places behind.
fn begun(place: &Place, back: &[Place], read: &Place) -> Place
    requires { IsRising (place.now ∷ back.now) }
    ensures page { result.page ≡ read.now.page }
    ensures count { result.count ≡ read.now.count }
    ensures begins { IsBeginning read.now.at result.at place.now back.now }
{
    if back.is_empty() {
        return begun_last(place, read);
    }
    begun_below(place, &back[0], read)
}

// Not before it began.
fn begun_last(place: &Place, read: &Place) -> Place
    ensures page { result.page ≡ read.now.page }
    ensures count { result.count ≡ read.now.count }
    ensures low { place.now.at ≤ℤ result.at }
    ensures early { read.now.at <ℤ place.now.at → result.at ≡ place.now.at }
    ensures told { place.now.at ≤ℤ read.now.at → result.at ≡ read.now.at }
{
    let at = if read.at < place.at {
        place.at
    } else {
        read.at
    };
    Place {
        at,
        page: read.page,
        count: read.count,
    }
}

// And below the next place.
fn begun_below(place: &Place, next: &Place, read: &Place) -> Place
    requires { place.now.at <ℤ next.now.at }
    ensures page { result.page ≡ read.now.page }
    ensures count { result.count ≡ read.now.count }
    ensures low { place.now.at ≤ℤ result.at }
    ensures below { result.at <ℤ next.now.at }
    ensures told { place.now.at ≤ℤ read.now.at → read.now.at <ℤ next.now.at → result.at ≡ read.now.at }
{
    if read.at < next.at {
        return begun_last(place, read);
    }
    Place {
        at: place.at,
        page: read.page,
        count: read.count,
    }
}
