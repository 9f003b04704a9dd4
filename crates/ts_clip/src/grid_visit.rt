// The entries of a range of offsets, handed on in one pass over the pages that have some of them.
ghost use Rattle.std.specs.Prelude.{◌≡◌, ℕ, ◌-◌, ◌<◌, ◌≤◌, ◌^◌, All, IfOk, OnOk, None, take, drop};
ghost use Rattle.ts_space.specs.Directory.{places_of};
ghost use Rattle.ts_space.specs.Place.{IsRising};
ghost use Rattle.ts_calendar.specs.Calendars.{IsLaid};
ghost use Rattle.ts_regular.specs.Places.{CanBeRead, all_in};
ghost use Rattle.ts_irregular.specs.Call.{Reads};
ghost use Rattle.ts_clip.specs.Numbered.{numbered, seen_at};
ghost use Rattle.ts_clip.specs.Grid.{HoldsOfGrid, HoldsOfCellPages, entries_at};

use crate::grid_cells::visit_blanks;
use crate::grid_page::places_between;
use crate::grid_page_visit::visit_page;
use ts_base::StoreFault;
use ts_entry::EntryVisitor;
use ts_offset::{Grid, StartsFrom};
use ts_page::{Page, Pages};
use ts_row::Shelf;
use ts_space::{Place, Space};

/// Hands on the entries of the offsets from one up to, not including, another: each on start with its element, or
/// without one where none is seen. The pages that have cells for them are read, each once, and its head compared with
/// its place; one that disagrees is taken as a page without elements. All pages stay; `page` is room to read one.
pub(crate) fn visit_offsets<P: Pages, V: EntryVisitor>(
    pages: &mut P,
    page: &mut Page,
    space: &Space,
    shelf: &Shelf,
    grid: &Grid<'_>,
    lower: u64,
    upper: u64,
    visitor: &mut V,
) -> Result<(), StoreFault>
    requires slot { shelf.now.series < 4096 }
    requires laid { IsLaid grid.now.calendar }
    requires readable { All (CanBeRead (P.contents pages.old)) (places_of shelf.now.series space.now) }
    requires order { lower ≤ upper }
    requires limit { upper < 2 ^ 63 }
    ensures took { OnOk result (HoldsOfGrid P.tells grid.now shelf.now space.now (P.contents pages.old)
        (λ es. V.took shelf.now.kind.now.columns visitor.old
        (entries_at grid.now lower upper es) visitor.new)) }
    ensures call { Reads P.tells result (P.contents pages.old) (P.contents pages.new) }
    ensures undisturbed { P.undisturbed pages.old pages.new }
{
    let places = places_between(shelf.kind, space.places(shelf.series), lower, upper);
    let mut starts = grid.starts_from(lower);
    let at = visit_places(
        pages,
        page,
        shelf,
        places,
        &mut starts,
        lower,
        upper,
        visitor,
    )?;
    visit_blanks(shelf.kind, &mut starts, upper - at, visitor)?;
    Ok(())
}

// The same of the pages of some places, one after the other; no offset from the one that it gives up to `upper` has an
// element on them.
fn visit_places<P: Pages, V: EntryVisitor>(
    pages: &mut P,
    page: &mut Page,
    shelf: &Shelf,
    places: &[Place],
    starts: &mut StartsFrom<'_>,
    lower: u64,
    upper: u64,
    visitor: &mut V,
) -> Result<u64, StoreFault>
    requires readable { All (CanBeRead (P.contents pages.old)) places.now }
    requires rising { IsRising places.now }
    requires order { lower ≤ upper }
    requires limit { upper < 2 ^ 63 }
    ensures low { IfOk result (λ end. lower ≤ end) }
    ensures high { IfOk result (λ end. end ≤ upper) }
    ensures took { IfOk result (λ end. HoldsOfCellPages P.tells shelf.now places.now (P.contents pages.old)
        (λ ps. V.took shelf.now.kind.now.columns visitor.old
        (numbered (seen_at (all_in ps)) lower (take (end - lower) starts.old)) visitor.new)) }
    ensures rest { IfOk result (λ end. HoldsOfCellPages P.tells shelf.now places.now (P.contents pages.old)
        (λ ps. (n : ℕ) → end ≤ n → n < upper → seen_at (all_in ps) n ≡ None)) }
    ensures left { IfOk result (λ end. starts.new ≡ drop (end - lower) starts.old) }
    ensures call { Reads P.tells result (P.contents pages.old) (P.contents pages.new) }
    ensures undisturbed { P.undisturbed pages.old pages.new }
{
    let mut at = lower;
    for place in places {
        at = visit_page(pages, page, shelf, place, starts, at, upper, visitor)?;
    }
    Ok(at)
}
