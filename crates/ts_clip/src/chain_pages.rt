// The pages of an irregular series, read one after the other: their elements of a range are handed on or counted.
ghost use Rattle.std.specs.Prelude.{◌≡◌, ◌⊎◌, ◌-◌, ◌^◌, ◌≤◌, IfOk, All, length, min, drop};
ghost use Rattle.ts_row.specs.Row.{seen};
ghost use Rattle.ts_irregular.specs.Call.{Reads};
ghost use Rattle.ts_sheets.specs.Stamped.{all_in, within_range};
ghost use Rattle.ts_sheets.specs.Places.{CanBeRead};
ghost use Rattle.ts_clip.specs.Chain.{ArePassed, HoldsOfPages, HoldsOfPage};

use crate::chain_cells::{Wanted, count_cells, range_on, visit_cells};
use ts_base::{Stamp, StoreFault};
use ts_entry::EntryVisitor;
use ts_irregular::count_told;
use ts_page::{HEAD, Page, Pages};
use ts_row::Shelf;
use ts_space::Place;

/// Hands the elements of a range that aren't hidden to a visitor, as far as they are wanted, and tells what is wanted
/// still. The pages are read from the first one on, until none is wanted. The head of each is compared with its place;
/// one that disagrees is taken as a page without elements.
pub(crate) fn visit_pages<P: Pages, V: EntryVisitor>(
    pages: &mut P,
    page: &mut Page,
    shelf: &Shelf,
    places: &[Place],
    from: Stamp,
    to: Stamp,
    want: Wanted,
    visitor: &mut V,
) -> Result<Wanted, StoreFault>
    requires readable { All (CanBeRead (P.contents pages.old)) places.now }
    ensures passed { IfOk result (λ after. HoldsOfPages P.tells shelf.now places.now (P.contents pages.old)
        (λ chain. ArePassed (λ entries. V.took shelf.now.kind.now.columns visitor.old entries visitor.new) want after
        (seen (within_range from to (all_in chain))))) }
    ensures fewer { IfOk result (λ after. after.most ≤ want.most) }
    ensures call { Reads P.tells result (P.contents pages.old) (P.contents pages.new) }
    ensures undisturbed { P.undisturbed pages.old pages.new }
{
    let mut left = want;
    for place in places {
        if left.most == 0 {
            return Ok(left);
        }
        left = visit_page(pages, page, shelf, place, from, to, left, visitor)?;
    }
    Ok(left)
}

// Those of one page.
fn visit_page<P: Pages, V: EntryVisitor>(
    pages: &mut P,
    page: &mut Page,
    shelf: &Shelf,
    place: &Place,
    from: Stamp,
    to: Stamp,
    want: Wanted,
    visitor: &mut V,
) -> Result<Wanted, StoreFault>
    requires readable { CanBeRead (P.contents pages.old) place.now }
    ensures passed { IfOk result (λ after. HoldsOfPage P.tells shelf.now place.now (P.contents pages.old)
        (λ es. ArePassed (λ entries. V.took shelf.now.kind.now.columns visitor.old entries visitor.new) want after
        (seen (within_range from to es)))) }
    ensures fewer { IfOk result (λ after. after.most ≤ want.most) }
    ensures call { Reads P.tells result (P.contents pages.old) (P.contents pages.new) }
    ensures undisturbed { P.undisturbed pages.old pages.new }
{
    pages.get(place.page, page)?;
    let count = count_told(shelf, place, page);
    let behind = &page.bytes[HEAD..];
    let (first, last) = range_on(shelf.kind, behind, count, from, to);
    Ok(visit_cells(shelf.kind, behind, first, last, want, visitor)?)
}

/// How many elements of a range aren't hidden, as far as a counter of 64 bits goes: told elements are never more.
pub(crate) fn count_pages<P: Pages>(
    pages: &mut P,
    page: &mut Page,
    shelf: &Shelf,
    places: &[Place],
    from: Stamp,
    to: Stamp,
) -> Result<u64, StoreFault>
    requires readable { All (CanBeRead (P.contents pages.old)) places.now }
    ensures count { IfOk result (λ count. HoldsOfPages P.tells shelf.now places.now (P.contents pages.old)
        (λ chain. count ≡ min (length (seen (within_range from to (all_in chain)))) (2 ^ 64 - 1))) }
    ensures call { Reads P.tells result (P.contents pages.old) (P.contents pages.new) }
    ensures undisturbed { P.undisturbed pages.old pages.new }
{
    let mut count = 0_u64;
    for place in places {
        count = count.saturating_add(count_page(pages, page, shelf, place, from, to)?);
    }
    Ok(count)
}

/// The index of a page, and how many elements of a range aren't hidden on the pages from it on: so many at least, or
/// else it is that of the first page. The pages are read from the last one backwards.
pub(crate) fn count_back<P: Pages>(
    pages: &mut P,
    page: &mut Page,
    shelf: &Shelf,
    places: &[Place],
    from: Stamp,
    to: Stamp,
    enough: u64,
) -> Result<(usize, u64), StoreFault>
    requires readable { All (CanBeRead (P.contents pages.old)) places.now }
    requires enough { enough ≤ 2 ^ 63 }
    ensures count { IfOk result (λ r. HoldsOfPages P.tells shelf.now places.now (P.contents pages.old)
        (λ chain. r.1 ≡ length (seen (within_range from to (all_in (drop r.0 chain)))))) }
    ensures reached { IfOk result (λ r. (enough ≤ r.1) ⊎ (r.0 ≡ 0)) }
    ensures within { IfOk result (λ r. r.0 ≤ length places.now) }
    ensures call { Reads P.tells result (P.contents pages.old) (P.contents pages.new) }
    ensures undisturbed { P.undisturbed pages.old pages.new }
{
    let mut count = 0;
    let mut index = places.len();
    while index > 0 && count < enough {
        count += count_page(pages, page, shelf, &places[index - 1], from, to)?;
        index -= 1;
    }
    Ok((index, count))
}

// How many of one page aren't.
fn count_page<P: Pages>(
    pages: &mut P,
    page: &mut Page,
    shelf: &Shelf,
    place: &Place,
    from: Stamp,
    to: Stamp,
) -> Result<u64, StoreFault>
    requires readable { CanBeRead (P.contents pages.old) place.now }
    ensures count { IfOk result (λ count. HoldsOfPage P.tells shelf.now place.now (P.contents pages.old)
        (λ es. count ≡ length (seen (within_range from to es)))) }
    ensures few { IfOk result (λ count. count ≤ 65535) }
    ensures call { Reads P.tells result (P.contents pages.old) (P.contents pages.new) }
    ensures undisturbed { P.undisturbed pages.old pages.new }
{
    pages.get(place.page, page)?;
    let count = count_told(shelf, place, page);
    let behind = &page.bytes[HEAD..];
    let (first, last) = range_on(shelf.kind, behind, count, from, to);
    Ok(count_cells(shelf.kind, behind, first, last))
}
