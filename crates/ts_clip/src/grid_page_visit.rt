// The entries of a range of offsets on one page of a regular series.
ghost use Rattle.std.specs.Prelude.{◌≡◌, ℕ, ◌-◌, ◌<◌, ◌≤◌, ◌^◌, ◌+◌, IfOk, OnOk, None, take, drop};
ghost use Rattle.ts_regular.specs.RegularPage.{regular_room, elements_from};
ghost use Rattle.ts_regular.specs.Places.{CanBeRead};
ghost use Rattle.ts_irregular.specs.Call.{Reads};
ghost use Rattle.ts_clip.specs.Numbered.{numbered, seen_at};
ghost use Rattle.ts_clip.specs.Grid.{HaveTaken, HoldsOfCellPage, stamped_within};

use crate::grid_cells::{visit_blanks, visit_cells};
use crate::grid_offsets::Offsets;
use crate::grid_page::read_base;
use ts_base::StoreFault;
use ts_entry::EntryVisitor;
use ts_offset::{Grid, StartsFrom};
use ts_page::{HEAD, Page, Pages};
use ts_regular::regular_room;
use ts_row::Shelf;
use ts_space::Place;

/// Hands on the entries of the offsets from one on as far as the page of a place has cells for them, but none of
/// `upper` or behind it; gives the offset behind them.
pub(crate) fn visit_page<P: Pages, V: EntryVisitor>(
    pages: &mut P,
    page: &mut Page,
    shelf: &Shelf,
    place: &Place,
    starts: &mut StartsFrom<'_>,
    at: u64,
    upper: u64,
    visitor: &mut V,
) -> Result<u64, StoreFault>
    requires readable { CanBeRead (P.contents pages.old) place.now }
    requires order { at ≤ upper }
    requires limit { upper < 2 ^ 63 }
    ensures low { IfOk result (λ end. at ≤ end) }
    ensures high { IfOk result (λ end. end ≤ upper) }
    ensures took { IfOk result (λ end. HoldsOfCellPage P.tells shelf.now place.now (P.contents pages.old)
        (λ p. V.took shelf.now.kind.now.columns visitor.old
        (numbered (seen_at (elements_from p.0 p.1)) at (take (end - at) starts.old)) visitor.new)) }
    ensures rest { IfOk result (λ end. HoldsOfCellPage P.tells shelf.now place.now (P.contents pages.old)
        (λ p. (n : ℕ) → end ≤ n → n < upper → seen_at (elements_from p.0 p.1) n ≡ None)) }
    ensures own { IfOk result (λ end. HoldsOfCellPage P.tells shelf.now place.now (P.contents pages.old)
        (λ p. at < end → end ≤ p.0 + regular_room shelf.now.kind.now.columns)) }
    ensures left { IfOk result (λ end. starts.new ≡ drop (end - at) starts.old) }
    ensures call { Reads P.tells result (P.contents pages.old) (P.contents pages.new) }
    ensures undisturbed { P.undisturbed pages.old pages.new }
{
    let Some(base) = read_base(pages, page, shelf, place)? else {
        return Ok(at);
    };
    let first = at.max(base);
    let stop = upper.min(base + regular_room(shelf.kind) as u64);
    if stop <= first {
        return Ok(at);
    }
    visit_blanks(shelf.kind, starts, first - at, visitor)?;
    let behind = &page.bytes[HEAD..];
    let from = (first - base) as usize;
    let to = (stop - base) as usize;
    visit_cells(shelf.kind, behind, from, to, starts, visitor)?;
    Ok(stop)
}

/// Hands on the elements of some offsets on the page of a place that aren't hidden, with entries without one between
/// them.
pub(crate) fn elements_on_page<P: Pages, V: EntryVisitor>(
    pages: &mut P,
    page: &mut Page,
    shelf: &Shelf,
    grid: &Grid<'_>,
    place: &Place,
    offsets: Offsets,
    visitor: &mut V,
) -> Result<(), StoreFault>
    requires readable { CanBeRead (P.contents pages.old) place.now }
    requires limit { offsets.upper < 2 ^ 63 }
    ensures taken { OnOk result (HoldsOfCellPage P.tells shelf.now place.now (P.contents pages.old)
        (λ p. HaveTaken (λ entries. V.took shelf.now.kind.now.columns visitor.old entries visitor.new)
        (stamped_within grid.now offsets.lower offsets.upper (elements_from p.0 p.1)))) }
    ensures call { Reads P.tells result (P.contents pages.old) (P.contents pages.new) }
    ensures undisturbed { P.undisturbed pages.old pages.new }
{
    let Some(base) = read_base(pages, page, shelf, place)? else {
        return Ok(());
    };
    let first = offsets.lower.max(base);
    let stop = offsets.upper.min(base + regular_room(shelf.kind) as u64);
    if stop <= first {
        return Ok(());
    }
    let mut starts = grid.starts_from(first);
    let behind = &page.bytes[HEAD..];
    let from = (first - base) as usize;
    let to = (stop - base) as usize;
    visit_cells(shelf.kind, behind, from, to, &mut starts, visitor)?;
    Ok(())
}
