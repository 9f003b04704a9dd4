// The rows of a regular series, a page at a time.
ghost use Rattle.std.specs.Prelude.{◌<◌, ◌^◌, ℕ, All, IfOk, OnOk, List};
ghost use Rattle.ts_row.specs.Row.{Element};
ghost use Rattle.ts_calendar.specs.Calendars.{IsLaid};
ghost use Rattle.ts_offset.specs.declared.shape.Shape.TheVariants.{Regular};
ghost use Rattle.ts_regular.specs.Places.{OffsetPage, AreOn, CanBeRead, all_in};
ghost use Rattle.ts_irregular.specs.Call.{Reads};
ghost use Rattle.ts_sheets.specs.Stamped.{within_range, stamped, HaveStarts};
ghost use Rattle.ts_clip.specs.Series.{HaveOnPlaces, IsToldOnPlaces, ArePagesOf};
ghost use Rattle.ts_regular.specs.Range.{within};
ghost use Rattle.ts_clip.specs.Grid.{HoldsOfCellPages};

use crate::grid_offsets::{Offsets, offsets_of};
use crate::grid_page_rows::{rows_of_page, rows_on_page};
use std::alloc::AllocError;
use ts_base::{Stamp, StoreFault};
use ts_entry::RowVisitor;
use ts_offset::Grid;
use ts_page::{Page, Pages};
use ts_row::Shelf;
use ts_space::Place;

/// `rows` on the pages of some places.
pub(crate) fn grid_rows<P: Pages, V: RowVisitor>(
    pages: &mut P,
    page: &mut Page,
    shelf: &Shelf,
    grid: &Grid<'_>,
    places: &[Place],
    from: Stamp,
    to: Stamp,
    visitor: &mut V,
) -> Result<(), StoreFault>
    requires laid { IsLaid grid.now.calendar }
    requires readable { All (CanBeRead (P.contents pages.old)) places.now }
    ensures read { IfOk result
        (λ done. IsToldOnPlaces P.tells (Regular grid.now) shelf.now.series shelf.now.kind.now.columns places.now
        (P.contents pages.old)
        (λ es. V.took shelf.now.kind.now.columns visitor.old (within_range from to es) visitor.new)) }
    ensures call { Reads P.tells result (P.contents pages.old) (P.contents pages.new) }
    ensures undisturbed { P.undisturbed pages.old pages.new }
{
    let offsets = offsets_of(grid, from, to);
    rows_on_places(pages, page, shelf, grid, places, offsets, visitor)
}

// Hands on those of some offsets on the pages of some places.
fn rows_on_places<P: Pages, V: RowVisitor>(
    pages: &mut P,
    page: &mut Page,
    shelf: &Shelf,
    grid: &Grid<'_>,
    places: &[Place],
    offsets: Offsets,
    visitor: &mut V,
) -> Result<(), StoreFault>
    requires readable { All (CanBeRead (P.contents pages.old)) places.now }
    requires limit { offsets.upper < 2 ^ 63 }
    ensures took { OnOk result (HoldsOfCellPages P.tells shelf.now places.now (P.contents pages.old)
        (λ ps. IsLaid grid.now.calendar → HaveStarts grid.now (all_in ps)
        → V.took shelf.now.kind.now.columns visitor.old
        (stamped grid.now (within offsets.lower offsets.upper (all_in ps))) visitor.new)) }
    ensures call { Reads P.tells result (P.contents pages.old) (P.contents pages.new) }
    ensures undisturbed { P.undisturbed pages.old pages.new }
{
    for place in places {
        rows_on_page(pages, page, shelf, grid, place, offsets, visitor)?;
    }
    Ok(())
}

/// `rows_of_pages`.
pub(crate) fn grid_rows_of_pages<V: RowVisitor>(
    read: &[Page],
    places: &[Place],
    shelf: &Shelf,
    grid: &Grid<'_>,
    from: Stamp,
    to: Stamp,
    visitor: &mut V,
) -> Result<(), AllocError>
    ensures took { OnOk result (IsLaid grid.now.calendar → (pages : ℕ → List ℕ) (es : List Element)
        → ArePagesOf pages places.now read.now
        → HaveOnPlaces (Regular grid.now) shelf.now.series shelf.now.kind.now.columns pages places.now es
        → V.took shelf.now.kind.now.columns visitor.old (within_range from to es) visitor.new) }
{
    let offsets = offsets_of(grid, from, to);
    rows_in_memory(read, places, shelf, grid, offsets, visitor)
}

// Hands on those of some offsets on pages that were read.
fn rows_in_memory<V: RowVisitor>(
    read: &[Page],
    places: &[Place],
    shelf: &Shelf,
    grid: &Grid<'_>,
    offsets: Offsets,
    visitor: &mut V,
) -> Result<(), AllocError>
    requires limit { offsets.upper < 2 ^ 63 }
    ensures took { OnOk result ((pages : ℕ → List ℕ) (ps : List OffsetPage) → ArePagesOf pages places.now read.now
        → AreOn shelf.now.series shelf.now.kind.now.columns pages places.now ps
        → IsLaid grid.now.calendar → HaveStarts grid.now (all_in ps)
        → V.took shelf.now.kind.now.columns visitor.old
        (stamped grid.now (within offsets.lower offsets.upper (all_in ps))) visitor.new) }
{
    for (place, page) in places.iter().zip(read) {
        rows_of_page(page, shelf, grid, place, offsets, visitor)?;
    }
    Ok(())
}
