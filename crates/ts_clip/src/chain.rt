// What is read of an irregular series.
ghost use Rattle.std.specs.Prelude.{◌≡◌, ◌<◌, IfOk, length};
ghost use Rattle.ts_space.specs.Directory.{places_of};
ghost use Rattle.ts_offset.specs.declared.shape.Shape.TheVariants.{Irregular};
ghost use Rattle.ts_irregular.specs.Call.{Reads};
ghost use Rattle.ts_sheets.specs.Places.{ArePlaces};
ghost use Rattle.ts_entry.specs.Entry.{AreTaken, reading, clipped, counted, entry_number};
ghost use Rattle.ts_base.specs.Answer.{within_rows};
ghost use Rattle.ts_clip.specs.Call.{IsRead, IsShown, AreElementsTaken};
ghost use Rattle.ts_clip.specs.Chain.{HoldsOfChain};

use crate::bounds::MOST_ROWS;
use crate::chain_cells::Wanted;
use crate::chain_pages::{count_pages, visit_pages};
use crate::chain_range::places_between;
use crate::chain_shown::{count_ends, page_of_number};
use crate::chain_visit::{rows_over, visit_last, visit_range};
use ts_base::{Refusal, Stamp, StoreFault};
use ts_entry::EntryVisitor;
use ts_page::{Page, Pages};
use ts_row::Shelf;
use ts_space::Space;

/// `clip`. Where the places of the range tell of no more elements than a reply may have, its pages are read once; else
/// they are counted first.
pub(crate) fn chain_clip<P: Pages, V: EntryVisitor>(
    pages: &mut P,
    page: &mut Page,
    space: &Space,
    shelf: &Shelf,
    from: Stamp,
    to: Stamp,
    visitor: &mut V,
) -> Result<Result<u64, Refusal>, StoreFault>
    requires slot { shelf.now.series < 4096 }
    requires places { ArePlaces shelf.now.kind.now.columns (P.contents pages.old)
        (places_of shelf.now.series space.now) }
    ensures read { IfOk result (λ done. HoldsOfChain P.tells shelf.now space.now (P.contents pages.old)
        (λ es. IsRead (λ entries. V.took shelf.now.kind.now.columns visitor.old entries visitor.new)
        (within_rows (clipped from to (reading Irregular es))) done)) }
    ensures call { Reads P.tells result (P.contents pages.old) (P.contents pages.new) }
    ensures undisturbed { P.undisturbed pages.old pages.new }
{
    if let Some(rows) = rows_over(pages, page, space, shelf, from, to)? {
        return Ok(Err(Refusal::TooLarge { rows }));
    }
    let count = visit_range(pages, page, space, shelf, from, to, MOST_ROWS, visitor)?;
    Ok(Ok(count))
}

/// `clip_len`. One pass looks at the mark of each cell; where no element is hidden, only at those of the two pages at
/// the ends of the range.
pub(crate) fn chain_clip_len<P: Pages>(
    pages: &mut P,
    page: &mut Page,
    space: &Space,
    shelf: &Shelf,
    shown: bool,
    from: Stamp,
    to: Stamp,
) -> Result<u64, StoreFault>
    requires slot { shelf.now.series < 4096 }
    requires places { ArePlaces shelf.now.kind.now.columns (P.contents pages.old)
        (places_of shelf.now.series space.now) }
    ensures read { IfOk result (λ count. HoldsOfChain P.tells shelf.now space.now (P.contents pages.old)
        (λ es. IsShown shown es → count ≡ length (clipped from to (reading Irregular es)))) }
    ensures call { Reads P.tells result (P.contents pages.old) (P.contents pages.new) }
    ensures undisturbed { P.undisturbed pages.old pages.new }
{
    let places = space.places(shelf.series);
    let (first, stop) = places_between(places, from, to);
    if shown {
        count_ends(pages, page, shelf, &places[first..stop], from, to)
    } else {
        count_pages(pages, page, shelf, &places[first..stop], from, to)
    }
}

/// `clip_count`. Where n is negative, the pages from that of the stamp backwards are counted until they have as many
/// elements, and then those pages are read again, from the first of them on.
pub(crate) fn chain_clip_count<P: Pages, V: EntryVisitor>(
    pages: &mut P,
    page: &mut Page,
    space: &Space,
    shelf: &Shelf,
    stamp: Stamp,
    n: i64,
    visitor: &mut V,
) -> Result<u64, StoreFault>
    requires slot { shelf.now.series < 4096 }
    requires places { ArePlaces shelf.now.kind.now.columns (P.contents pages.old)
        (places_of shelf.now.series space.now) }
    ensures read { IfOk result (λ count. HoldsOfChain P.tells shelf.now space.now (P.contents pages.old)
        (λ es. AreTaken (λ entries. V.took shelf.now.kind.now.columns visitor.old entries visitor.new)
        (counted stamp n (reading Irregular es)) count)) }
    ensures call { Reads P.tells result (P.contents pages.old) (P.contents pages.new) }
    ensures undisturbed { P.undisturbed pages.old pages.new }
{
    let most = n.unsigned_abs();
    if n < 0 {
        visit_last(pages, page, space, shelf, stamp, most, visitor)
    } else {
        let end = Stamp::greatest();
        visit_range(pages, page, space, shelf, stamp, end, most, visitor)
    }
}

/// `nth`. The pages are read from the first one on, up to that of the element; where no element is hidden, that one
/// alone.
pub(crate) fn chain_nth<P: Pages, V: EntryVisitor>(
    pages: &mut P,
    page: &mut Page,
    space: &Space,
    shelf: &Shelf,
    shown: bool,
    n: u64,
    visitor: &mut V,
) -> Result<u64, StoreFault>
    requires slot { shelf.now.series < 4096 }
    requires places { ArePlaces shelf.now.kind.now.columns (P.contents pages.old)
        (places_of shelf.now.series space.now) }
    ensures read { IfOk result (λ count. HoldsOfChain P.tells shelf.now space.now (P.contents pages.old)
        (λ es. IsShown shown es
        → AreTaken (λ entries. V.took shelf.now.kind.now.columns visitor.old entries visitor.new)
        (entry_number n (reading Irregular es)) count)) }
    ensures call { Reads P.tells result (P.contents pages.old) (P.contents pages.new) }
    ensures undisturbed { P.undisturbed pages.old pages.new }
{
    let places = space.places(shelf.series);
    let (index, skip) = page_of_number(places, n, shown);
    let want = Wanted { skip, most: 1 };
    let from = Stamp::least();
    let to = Stamp::greatest();
    let left = visit_pages(
        pages,
        page,
        shelf,
        &places[index..],
        from,
        to,
        want,
        visitor,
    )?;
    Ok(1 - left.most)
}

/// `elements`.
pub(crate) fn chain_elements<P: Pages, V: EntryVisitor>(
    pages: &mut P,
    page: &mut Page,
    space: &Space,
    shelf: &Shelf,
    from: Stamp,
    to: Stamp,
    visitor: &mut V,
) -> Result<(), StoreFault>
    requires slot { shelf.now.series < 4096 }
    requires places { ArePlaces shelf.now.kind.now.columns (P.contents pages.old)
        (places_of shelf.now.series space.now) }
    ensures read { IfOk result (λ done. HoldsOfChain P.tells shelf.now space.now (P.contents pages.old)
        (λ es. AreElementsTaken
        (λ entries. V.took shelf.now.kind.now.columns visitor.old entries visitor.new) from to es)) }
    ensures call { Reads P.tells result (P.contents pages.old) (P.contents pages.new) }
    ensures undisturbed { P.undisturbed pages.old pages.new }
{
    visit_range(pages, page, space, shelf, from, to, u64::MAX, visitor)?;
    Ok(())
}
