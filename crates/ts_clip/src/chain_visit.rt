// The elements of a range of an irregular series, handed on in one pass over its pages, or counted.
ghost use Rattle.std.specs.Prelude.{◌≡◌, ◌<◌, ◌≤◌, ◌^◌, IfOk, IfSome, None, length, map, take};
ghost use Rattle.ts_row.specs.Row.{seen};
ghost use Rattle.ts_space.specs.Directory.{places_of};
ghost use Rattle.ts_irregular.specs.Call.{Reads};
ghost use Rattle.ts_sheets.specs.Places.{ArePlaces};
ghost use Rattle.ts_sheets.specs.Stamped.{within_range};
ghost use Rattle.ts_entry.specs.Entry.{AreTaken, filled, last_ones};
ghost use Rattle.ts_base.specs.Answer.{most_rows};
ghost use Rattle.ts_clip.specs.Chain.{HoldsOfChain, first_moment};

use crate::bounds::MOST_ROWS;
use crate::chain_cells::Wanted;
use crate::chain_pages::{count_back, count_pages, visit_pages};
use crate::chain_range::{are_few, places_between};
use ts_base::{Stamp, StoreFault};
use ts_entry::EntryVisitor;
use ts_page::{Page, Pages};
use ts_row::Shelf;
use ts_space::Space;

/// How many entries stand in a range, where these are more than a reply may have.
pub(crate) fn rows_over<P: Pages>(
    pages: &mut P,
    page: &mut Page,
    space: &Space,
    shelf: &Shelf,
    from: Stamp,
    to: Stamp,
) -> Result<Option<u64>, StoreFault>
    requires slot { shelf.now.series < 4096 }
    requires places { ArePlaces shelf.now.kind.now.columns (P.contents pages.old)
        (places_of shelf.now.series space.now) }
    ensures many { IfOk result
        (λ over. IfSome over (λ rows. HoldsOfChain P.tells shelf.now space.now (P.contents pages.old)
        (λ es. (rows ≡ length (within_range from to (seen es))) × (most_rows < rows)))) }
    ensures few { IfOk result (λ over. over ≡ None → HoldsOfChain P.tells shelf.now space.now (P.contents pages.old)
        (λ es. length (within_range from to (seen es)) ≤ most_rows)) }
    ensures call { Reads P.tells result (P.contents pages.old) (P.contents pages.new) }
    ensures undisturbed { P.undisturbed pages.old pages.new }
{
    let places = space.places(shelf.series);
    let (first, stop) = places_between(places, from, to);
    if are_few(&places[first..stop]) {
        return Ok(None);
    }
    let rows = count_pages(pages, page, shelf, &places[first..stop], from, to)?;
    if rows > MOST_ROWS {
        return Ok(Some(rows));
    }
    Ok(None)
}

/// Hands the last elements up to a stamp that aren't hidden to a visitor, so many at most, and tells how many they are.
pub(crate) fn visit_last<P: Pages, V: EntryVisitor>(
    pages: &mut P,
    page: &mut Page,
    space: &Space,
    shelf: &Shelf,
    to: Stamp,
    most: u64,
    visitor: &mut V,
) -> Result<u64, StoreFault>
    requires slot { shelf.now.series < 4096 }
    requires places { ArePlaces shelf.now.kind.now.columns (P.contents pages.old)
        (places_of shelf.now.series space.now) }
    requires most { most ≤ 2 ^ 63 }
    ensures taken { IfOk result (λ count. HoldsOfChain P.tells shelf.now space.now (P.contents pages.old)
        (λ es. AreTaken (λ entries. V.took shelf.now.kind.now.columns visitor.old entries visitor.new)
        (map filled (last_ones most (within_range first_moment to (seen es)))) count)) }
    ensures call { Reads P.tells result (P.contents pages.old) (P.contents pages.new) }
    ensures undisturbed { P.undisturbed pages.old pages.new }
{
    let from = Stamp::least();
    let places = space.places(shelf.series);
    let (first, stop) = places_between(places, from, to);
    let among = &places[first..stop];
    let (index, count) = count_back(pages, page, shelf, among, from, to, most)?;
    let skip = count.saturating_sub(most);
    let want = Wanted { skip, most };
    let left = visit_pages(pages, page, shelf, &among[index..], from, to, want, visitor)?;
    Ok(most - left.most)
}

/// Hands the first elements of a range that aren't hidden to a visitor, so many at most, and tells how many they are.
pub(crate) fn visit_range<P: Pages, V: EntryVisitor>(
    pages: &mut P,
    page: &mut Page,
    space: &Space,
    shelf: &Shelf,
    from: Stamp,
    to: Stamp,
    most: u64,
    visitor: &mut V,
) -> Result<u64, StoreFault>
    requires slot { shelf.now.series < 4096 }
    requires places { ArePlaces shelf.now.kind.now.columns (P.contents pages.old)
        (places_of shelf.now.series space.now) }
    ensures taken { IfOk result (λ count. HoldsOfChain P.tells shelf.now space.now (P.contents pages.old)
        (λ es. AreTaken (λ entries. V.took shelf.now.kind.now.columns visitor.old entries visitor.new)
        (map filled (take most (within_range from to (seen es)))) count)) }
    ensures call { Reads P.tells result (P.contents pages.old) (P.contents pages.new) }
    ensures undisturbed { P.undisturbed pages.old pages.new }
{
    let places = space.places(shelf.series);
    let (first, stop) = places_between(places, from, to);
    let want = Wanted { skip: 0, most };
    let left = visit_pages(
        pages,
        page,
        shelf,
        &places[first..stop],
        from,
        to,
        want,
        visitor,
    )?;
    Ok(most - left.most)
}
