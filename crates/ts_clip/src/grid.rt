// The entries of a regular series from one stamp to another, so many from a stamp on or up to it, and the one of a
// number.
ghost use Rattle.std.specs.Prelude.{◌≡◌, ◌<◌, ◌≤◌, ◌^◌, All, IfOk, length};
ghost use Rattle.ts_space.specs.Directory.{places_of};
ghost use Rattle.ts_calendar.specs.Calendars.{IsLaid};
ghost use Rattle.ts_offset.specs.declared.shape.Shape.TheVariants.{Regular};
ghost use Rattle.ts_regular.specs.Places.{ArePlaces, CanBeRead};
ghost use Rattle.ts_irregular.specs.Call.{Reads};
ghost use Rattle.ts_entry.specs.Entry.{AreTaken, reading, clipped, counted, entry_number};
ghost use Rattle.ts_base.specs.Answer.{within_rows};
ghost use Rattle.ts_clip.specs.Call.{IsRead};
ghost use Rattle.ts_clip.specs.Grid.{HoldsOfGrid, between};

use crate::bounds::MOST_ROWS;
use crate::grid_count::entry_count;
use crate::grid_offsets::{Offsets, offsets_between, offsets_counted};
use crate::grid_visit::visit_offsets;
use ts_base::{Refusal, Stamp, StoreFault};
use ts_entry::EntryVisitor;
use ts_offset::Grid;
use ts_page::{Page, Pages};
use ts_row::Shelf;
use ts_space::Space;

/// Hands the entries from one stamp to another, both included, to a visitor, and tells how many they are; TooLarge
/// where they are more than 1000000, and then none is handed on. Read are the pages from the last one backwards, up to
/// the first that has an element that isn't hidden, and those of the range. All pages stay; `page` is room to read one.
pub(crate) fn grid_clip<P: Pages, V: EntryVisitor>(
    pages: &mut P,
    page: &mut Page,
    space: &Space,
    shelf: &Shelf,
    grid: &Grid<'_>,
    from: Stamp,
    to: Stamp,
    visitor: &mut V,
) -> Result<Result<u64, Refusal>, StoreFault>
    requires slot { shelf.now.series < 4096 }
    requires laid { IsLaid grid.now.calendar }
    requires places { ArePlaces shelf.now.kind.now.columns (P.contents pages.old)
        (places_of shelf.now.series space.now) }
    ensures read { IfOk result (λ done. HoldsOfGrid P.tells grid.now shelf.now space.now (P.contents pages.old)
        (λ es. IsRead
        (λ entries. V.took shelf.now.kind.now.columns visitor.old entries visitor.new)
        (within_rows (clipped from to (reading (Regular grid.now) es))) done)) }
    ensures call { Reads P.tells result (P.contents pages.old) (P.contents pages.new) }
    ensures undisturbed { P.undisturbed pages.old pages.new }
{
    let count = entry_count(pages, page, space, shelf, grid)?;
    let offsets = offsets_between(grid, from, to, count);
    let rows = offsets.upper - offsets.lower;
    if rows > MOST_ROWS {
        return Ok(Err(Refusal::TooLarge { rows }));
    }
    let rows = visit_range(pages, page, space, shelf, grid, offsets, visitor)?;
    Ok(Ok(rows))
}

/// How many entries stand from one stamp to another, both included.
pub(crate) fn grid_clip_len<P: Pages>(
    pages: &mut P,
    page: &mut Page,
    space: &Space,
    shelf: &Shelf,
    grid: &Grid<'_>,
    from: Stamp,
    to: Stamp,
) -> Result<u64, StoreFault>
    requires slot { shelf.now.series < 4096 }
    requires laid { IsLaid grid.now.calendar }
    requires places { ArePlaces shelf.now.kind.now.columns (P.contents pages.old)
        (places_of shelf.now.series space.now) }
    ensures read { IfOk result (λ count. HoldsOfGrid P.tells grid.now shelf.now space.now (P.contents pages.old)
        (λ es. count ≡ length (clipped from to (reading (Regular grid.now) es)))) }
    ensures call { Reads P.tells result (P.contents pages.old) (P.contents pages.new) }
    ensures undisturbed { P.undisturbed pages.old pages.new }
{
    let count = entry_count(pages, page, space, shelf, grid)?;
    let offsets = offsets_between(grid, from, to, count);
    Ok(offsets.upper - offsets.lower)
}

/// Hands the first n entries from a stamp on to a visitor, or, where n is negative, the last -n up to it, in rising
/// order; tells how many they are, which are fewer where there are fewer.
pub(crate) fn grid_clip_count<P: Pages, V: EntryVisitor>(
    pages: &mut P,
    page: &mut Page,
    space: &Space,
    shelf: &Shelf,
    grid: &Grid<'_>,
    stamp: Stamp,
    n: i64,
    visitor: &mut V,
) -> Result<u64, StoreFault>
    requires slot { shelf.now.series < 4096 }
    requires laid { IsLaid grid.now.calendar }
    requires places { ArePlaces shelf.now.kind.now.columns (P.contents pages.old)
        (places_of shelf.now.series space.now) }
    ensures read { IfOk result (λ count. HoldsOfGrid P.tells grid.now shelf.now space.now (P.contents pages.old)
        (λ es. AreTaken
        (λ entries. V.took shelf.now.kind.now.columns visitor.old entries visitor.new)
        (counted stamp n (reading (Regular grid.now) es)) count)) }
    ensures call { Reads P.tells result (P.contents pages.old) (P.contents pages.new) }
    ensures undisturbed { P.undisturbed pages.old pages.new }
{
    let count = entry_count(pages, page, space, shelf, grid)?;
    let offsets = offsets_counted(grid, stamp, n, count);
    visit_range(pages, page, space, shelf, grid, offsets, visitor)
}

/// Hands the entry of a number, counted from 0, to a visitor, and tells how many that are: one, or none where there are
/// fewer.
pub(crate) fn grid_nth<P: Pages, V: EntryVisitor>(
    pages: &mut P,
    page: &mut Page,
    space: &Space,
    shelf: &Shelf,
    grid: &Grid<'_>,
    n: u64,
    visitor: &mut V,
) -> Result<u64, StoreFault>
    requires slot { shelf.now.series < 4096 }
    requires laid { IsLaid grid.now.calendar }
    requires places { ArePlaces shelf.now.kind.now.columns (P.contents pages.old)
        (places_of shelf.now.series space.now) }
    ensures read { IfOk result (λ count. HoldsOfGrid P.tells grid.now shelf.now space.now (P.contents pages.old)
        (λ es. AreTaken
        (λ entries. V.took shelf.now.kind.now.columns visitor.old entries visitor.new)
        (entry_number n (reading (Regular grid.now) es)) count)) }
    ensures call { Reads P.tells result (P.contents pages.old) (P.contents pages.new) }
    ensures undisturbed { P.undisturbed pages.old pages.new }
{
    let count = entry_count(pages, page, space, shelf, grid)?;
    if n >= count {
        return Ok(0);
    }
    let offsets = Offsets {
        lower: n,
        upper: n + 1,
    };
    visit_range(pages, page, space, shelf, grid, offsets, visitor)
}

// Hands on the entries of some offsets, no more than there are, and tells how many they are.
fn visit_range<P: Pages, V: EntryVisitor>(
    pages: &mut P,
    page: &mut Page,
    space: &Space,
    shelf: &Shelf,
    grid: &Grid<'_>,
    offsets: Offsets,
    visitor: &mut V,
) -> Result<u64, StoreFault>
    requires slot { shelf.now.series < 4096 }
    requires laid { IsLaid grid.now.calendar }
    requires limit { offsets.upper < 2 ^ 63 }
    requires readable { All (CanBeRead (P.contents pages.old)) (places_of shelf.now.series space.now) }
    ensures taken { IfOk result (λ count. HoldsOfGrid P.tells grid.now shelf.now space.now (P.contents pages.old)
        (λ es. offsets.upper ≤ length (reading (Regular grid.now) es) → AreTaken
        (λ entries. V.took shelf.now.kind.now.columns visitor.old entries visitor.new)
        (between offsets.lower offsets.upper (reading (Regular grid.now) es)) count)) }
    ensures call { Reads P.tells result (P.contents pages.old) (P.contents pages.new) }
    ensures undisturbed { P.undisturbed pages.old pages.new }
{
    let rows = offsets.upper - offsets.lower;
    if rows == 0 {
        return Ok(0);
    }
    let Offsets { lower, upper } = offsets;
    visit_offsets(pages, page, space, shelf, grid, lower, upper, visitor)?;
    Ok(rows)
}
