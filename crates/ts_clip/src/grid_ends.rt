// The first and the last element of a regular series.
ghost use Rattle.std.specs.Prelude.{◌≡◌, ◌<◌, All, IsTrue, IfOk, IfSome, option_and_then};
ghost use Rattle.ts_row.specs.Row.{fits};
ghost use Rattle.ts_space.specs.Directory.{places_of};
ghost use Rattle.ts_calendar.specs.Calendars.{IsLaid};
ghost use Rattle.ts_regular.specs.Places.{ArePlaces, CanBeRead, all_in};
ghost use Rattle.ts_sheets.specs.Stamped.{stamped_one};
ghost use Rattle.ts_irregular.specs.Call.{Reads};
ghost use Rattle.ts_irregular.specs.Edit.{last_seen};
ghost use Rattle.ts_entry.specs.Entry.{first_seen};
ghost use Rattle.ts_clip.specs.Grid.{HoldsOfGrid, HoldsOfCellPages, first_of};

use crate::grid_first::first_on;
use ts_base::{Stamp, StoreFault};
use ts_offset::Grid;
use ts_page::{Page, Pages};
use ts_regular::regular_last;
use ts_row::{Row, Shelf};
use ts_space::Space;

/// The first element that isn't hidden, with its stamp. The pages are read from the first one on, each once, up to the
/// first that has such an element. All pages stay; `page` is room to read one.
pub(crate) fn grid_first<P: Pages>(
    pages: &mut P,
    page: &mut Page,
    space: &Space,
    shelf: &Shelf,
    grid: &Grid<'_>,
) -> Result<Option<(Stamp, Row)>, StoreFault>
    requires slot { shelf.now.series < 4096 }
    requires laid { IsLaid grid.now.calendar }
    requires places { ArePlaces shelf.now.kind.now.columns (P.contents pages.old)
        (places_of shelf.now.series space.now) }
    ensures first { IfOk result (λ first. HoldsOfGrid P.tells grid.now shelf.now space.now (P.contents pages.old)
        (λ es. first ≡ first_seen es)) }
    ensures fits { IfOk result (λ first. IfSome first (λ e. IsTrue (fits shelf.now.kind.now.columns e.1))) }
    ensures call { Reads P.tells result (P.contents pages.old) (P.contents pages.new) }
    ensures undisturbed { P.undisturbed pages.old pages.new }
{
    let first = regular_first(pages, page, space, shelf)?;
    Ok(on_start(grid, first))
}

/// The last element that isn't hidden, with its stamp. The pages are read from the last one backwards, up to the first
/// that has such an element. All pages stay; `page` is room to read one.
pub(crate) fn grid_last<P: Pages>(
    pages: &mut P,
    page: &mut Page,
    space: &Space,
    shelf: &Shelf,
    grid: &Grid<'_>,
) -> Result<Option<(Stamp, Row)>, StoreFault>
    requires slot { shelf.now.series < 4096 }
    requires laid { IsLaid grid.now.calendar }
    requires places { ArePlaces shelf.now.kind.now.columns (P.contents pages.old)
        (places_of shelf.now.series space.now) }
    ensures last { IfOk result (λ last. HoldsOfGrid P.tells grid.now shelf.now space.now (P.contents pages.old)
        (λ es. last ≡ last_seen es)) }
    ensures fits { IfOk result (λ last. IfSome last (λ e. IsTrue (fits shelf.now.kind.now.columns e.1))) }
    ensures call { Reads P.tells result (P.contents pages.old) (P.contents pages.new) }
    ensures undisturbed { P.undisturbed pages.old pages.new }
{
    let last = regular_last(pages, page, space, shelf)?;
    Ok(on_start(grid, last))
}

// An element at an offset, at the on start of that offset.
fn on_start(grid: &Grid<'_>, found: Option<(u64, Row)>) -> Option<(Stamp, Row)>
    ensures start { result ≡ option_and_then (stamped_one grid.now) found }
    ensures row { IfSome result (λ e. IfSome found (λ f. e.1 ≡ f.1)) }
{
    let (offset, row) = found?;
    let start = grid.stamp_of(offset)?;
    Some((start, row))
}

// The first element that isn't hidden, with its offset.
fn regular_first<P: Pages>(
    pages: &mut P,
    page: &mut Page,
    space: &Space,
    shelf: &Shelf,
) -> Result<Option<(u64, Row)>, StoreFault>
    requires slot { shelf.now.series < 4096 }
    requires readable { All (CanBeRead (P.contents pages.old)) (places_of shelf.now.series space.now) }
    ensures first { IfOk result (λ first. HoldsOfCellPages P.tells shelf.now (places_of shelf.now.series space.now)
        (P.contents pages.old)
        (λ ps. first ≡ first_of (all_in ps))) }
    ensures fits { IfOk result (λ first. IfSome first (λ e. IsTrue (fits shelf.now.kind.now.columns e.1))) }
    ensures call { Reads P.tells result (P.contents pages.old) (P.contents pages.new) }
    ensures undisturbed { P.undisturbed pages.old pages.new }
{
    let places = space.places(shelf.series);
    for place in places {
        if let Some(first) = first_on(pages, page, shelf, place)? {
            return Ok(Some(first));
        }
    }
    Ok(None)
}
