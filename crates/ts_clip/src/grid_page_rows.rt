// The rows on one page of a regular series, with their stamps.
ghost use Rattle.std.specs.Prelude.{◌≡◌, ◌-◌, ◌<◌, ◌≤◌, ◌^◌, OnOk, length, take, drop};
ghost use Rattle.ts_regular.specs.Range.{within};
ghost use Rattle.ts_regular.specs.RegularPage.{regular_room, elements_from, HoldsOfCells};
ghost use Rattle.ts_regular.specs.Places.{OffsetPage, CanBeRead, IsOn};
ghost use Rattle.ts_calendar.specs.Calendars.{IsLaid};
ghost use Rattle.ts_irregular.specs.Call.{Reads};
ghost use Rattle.ts_sheets.specs.Stamped.{stamped, HaveStarts};
ghost use Rattle.ts_clip.specs.Grid.{HoldsOfCellPage};

use crate::grid_cells::cell_size;
use crate::grid_offsets::Offsets;
use crate::grid_page::base_on;
use std::alloc::AllocError;
use ts_base::StoreFault;
use ts_entry::{RowVisitor, Stamps};
use ts_offset::Grid;
use ts_page::{HEAD, Page, Pages};
use ts_regular::regular_room;
use ts_row::{RowType, Shelf};
use ts_space::Place;

// What a cell has before its row: a byte that tells whether an element stands there.
const FRONT: usize = 1;

/// Hands on the rows of some offsets on the page of a place, hidden ones too. The page stays; `page` is room to read
/// it.
pub(crate) fn rows_on_page<P: Pages, V: RowVisitor>(
    pages: &mut P,
    page: &mut Page,
    shelf: &Shelf,
    grid: &Grid<'_>,
    place: &Place,
    offsets: Offsets,
    visitor: &mut V,
) -> Result<(), StoreFault>
    requires readable { CanBeRead (P.contents pages.old) place.now }
    requires limit { offsets.upper < 2 ^ 63 }
    ensures took { OnOk result (HoldsOfCellPage P.tells shelf.now place.now (P.contents pages.old)
        (λ p. IsLaid grid.now.calendar → HaveStarts grid.now (elements_from p.0 p.1)
        → V.took shelf.now.kind.now.columns visitor.old
        (stamped grid.now (within offsets.lower offsets.upper (elements_from p.0 p.1))) visitor.new)) }
    ensures call { Reads P.tells result (P.contents pages.old) (P.contents pages.new) }
    ensures undisturbed { P.undisturbed pages.old pages.new }
{
    pages.get(place.page, page)?;
    rows_of_page(page, shelf, grid, place, offsets, visitor)?;
    Ok(())
}

/// Hands on those of a page that was read before: none of one whose head disagrees with its place.
pub(crate) fn rows_of_page<V: RowVisitor>(
    page: &Page,
    shelf: &Shelf,
    grid: &Grid<'_>,
    place: &Place,
    offsets: Offsets,
    visitor: &mut V,
) -> Result<(), AllocError>
    requires limit { offsets.upper < 2 ^ 63 }
    ensures took { OnOk result ((p : OffsetPage)
        → IsOn shelf.now.series shelf.now.kind.now.columns page.now.bytes place.now p
        → IsLaid grid.now.calendar → HaveStarts grid.now (elements_from p.0 p.1)
        → V.took shelf.now.kind.now.columns visitor.old
        (stamped grid.now (within offsets.lower offsets.upper (elements_from p.0 p.1))) visitor.new) }
{
    let Some(base) = base_on(shelf, place, page) else {
        return Ok(());
    };
    let first = offsets.lower.max(base);
    let stop = offsets.upper.min(base + regular_room(shelf.kind) as u64);
    if stop <= first {
        return Ok(());
    }
    let behind = &page.bytes[HEAD..];
    let from = (first - base) as usize;
    let to = (stop - base) as usize;
    rows_between(shelf.kind, behind, from, to, grid, first, visitor)
}

// Hands on the elements in the cells from one number up to, not including, another, of which the first has this offset.
fn rows_between<V: RowVisitor>(
    kind: &RowType,
    behind: &[u8],
    first: usize,
    stop: usize,
    grid: &Grid<'_>,
    offset: u64,
    visitor: &mut V,
) -> Result<(), AllocError>
    requires size { length behind.now ≡ 4064 }
    requires order { first ≤ stop }
    requires within { stop ≤ regular_room kind.now.columns }
    requires limit { offset < 2 ^ 63 }
    ensures { OnOk result (HoldsOfCells kind.now.columns behind.now
        (λ cells. IsLaid grid.now.calendar
        → HaveStarts grid.now (elements_from offset (take (stop - first) (drop first cells)))
        → V.took kind.now.columns visitor.old
        (stamped grid.now (elements_from offset (take (stop - first) (drop first cells)))) visitor.new)) }
{
    let size = cell_size(kind);
    let cells = &behind[size * first..size * stop];
    visitor.rows(kind, cells, FRONT, &Stamps::OnGrid(grid, offset))
}
