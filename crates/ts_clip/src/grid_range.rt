// The elements of a regular series from one stamp to another.
ghost use Rattle.std.specs.Prelude.{◌<◌, ◌^◌, All, IfOk, OnOk};
ghost use Rattle.ts_space.specs.Place.{IsRising};
ghost use Rattle.ts_space.specs.Directory.{places_of};
ghost use Rattle.ts_calendar.specs.Calendars.{IsLaid};
ghost use Rattle.ts_regular.specs.Places.{ArePlaces, CanBeRead, all_in};
ghost use Rattle.ts_irregular.specs.Call.{Reads};
ghost use Rattle.ts_clip.specs.Call.{AreElementsTaken};
ghost use Rattle.ts_clip.specs.Grid.{HaveTaken, HoldsOfGrid, HoldsOfCellPages, stamped_within};

use crate::grid_offsets::{Offsets, offsets_of};
use crate::grid_page::places_between;
use crate::grid_page_visit::elements_on_page;
use ts_base::{Stamp, StoreFault};
use ts_entry::EntryVisitor;
use ts_offset::Grid;
use ts_page::{Page, Pages};
use ts_row::Shelf;
use ts_space::{Place, Space};

/// Hands the elements from one stamp to another, both included, to a visitor, those that aren't hidden, with entries
/// without one between them on the pages that have some; no others are read. All pages stay; `page` is room to read
/// one.
pub(crate) fn grid_elements<P: Pages, V: EntryVisitor>(
    pages: &mut P,
    page: &mut Page,
    space: &Space,
    shelf: &Shelf,
    grid: &Grid<'_>,
    from: Stamp,
    to: Stamp,
    visitor: &mut V,
) -> Result<(), StoreFault>
    requires slot { shelf.now.series < 4096 }
    requires laid { IsLaid grid.now.calendar }
    requires places { ArePlaces shelf.now.kind.now.columns (P.contents pages.old)
        (places_of shelf.now.series space.now) }
    ensures read { IfOk result (λ done. HoldsOfGrid P.tells grid.now shelf.now space.now (P.contents pages.old)
        (λ es. AreElementsTaken
        (λ entries. V.took shelf.now.kind.now.columns visitor.old entries visitor.new) from to es)) }
    ensures call { Reads P.tells result (P.contents pages.old) (P.contents pages.new) }
    ensures undisturbed { P.undisturbed pages.old pages.new }
{
    let offsets = offsets_of(grid, from, to);
    if offsets.lower == offsets.upper {
        return Ok(());
    }
    let all = space.places(shelf.series);
    let places = places_between(shelf.kind, all, offsets.lower, offsets.upper);
    elements_on_places(pages, page, shelf, grid, places, offsets, visitor)
}

// Hands on those of some offsets on the pages of some places.
fn elements_on_places<P: Pages, V: EntryVisitor>(
    pages: &mut P,
    page: &mut Page,
    shelf: &Shelf,
    grid: &Grid<'_>,
    places: &[Place],
    offsets: Offsets,
    visitor: &mut V,
) -> Result<(), StoreFault>
    requires readable { All (CanBeRead (P.contents pages.old)) places.now }
    requires rising { IsRising places.now }
    requires limit { offsets.upper < 2 ^ 63 }
    ensures taken { OnOk result (HoldsOfCellPages P.tells shelf.now places.now (P.contents pages.old)
        (λ ps. HaveTaken (λ entries. V.took shelf.now.kind.now.columns visitor.old entries visitor.new)
        (stamped_within grid.now offsets.lower offsets.upper (all_in ps)))) }
    ensures call { Reads P.tells result (P.contents pages.old) (P.contents pages.new) }
    ensures undisturbed { P.undisturbed pages.old pages.new }
{
    for place in places {
        elements_on_page(pages, page, shelf, grid, place, offsets, visitor)?;
    }
    Ok(())
}
