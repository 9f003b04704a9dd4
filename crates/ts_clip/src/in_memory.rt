// The rows of pages that are in memory, and which pages of a series those of a range are.
ghost use Rattle.std.specs.Prelude.{OnOk, ℕ, List};
ghost use Rattle.ts_row.specs.declared.kind.Column.{Column};
ghost use Rattle.ts_row.specs.Row.{Element};
ghost use Rattle.ts_space.specs.Place.{IsRising};
ghost use Rattle.ts_calendar.specs.Calendars.{IsLaid};
ghost use Rattle.ts_offset.specs.declared.shape.Shape.TheVariants.{Irregular, Regular};
ghost use Rattle.ts_sheets.specs.Stamped.{within_range};
ghost use Rattle.ts_clip.specs.Series.{HaveOnPlaces, HoldRange, ArePagesOf};
ghost use Rattle.ts_offset.specs.Shape.{IsLaidOut};

use crate::chain_rows::chain_rows_of_pages;
use crate::grid_offsets::offsets_of;
use crate::grid_rows::grid_rows_of_pages;
use crate::{chain_range, grid_page};
use std::alloc::AllocError;
use ts_base::Stamp;
use ts_entry::RowVisitor;
use ts_offset::{Grid, Shape};
use ts_page::Page;
use ts_row::{RowType, Shelf};
use ts_space::Place;

/// The places of the pages of a series on which its elements from one stamp to another stand, both included: found by a
/// search, no page is read.
pub fn places_of_range<'a>(
    kind: &RowType,
    shape: &Shape<'_>,
    places: &'a [Place],
    from: Stamp,
    to: Stamp,
) -> &'a [Place]
    requires laid { IsLaidOut shape.now }
    requires rising { IsRising places.now }
    ensures holds { HoldRange shape.now kind.now.columns from to places.now result.now }
{
    match shape {
        Shape::Irregular => chain_places(places, from, to),
        Shape::Regular(grid) => grid_places(kind, grid, places, from, to),
    }
}

// Those of an irregular series.
fn chain_places(places: &[Place], from: Stamp, to: Stamp) -> &[Place]
    requires rising { IsRising places.now }
    ensures holds { (columns : List Column) → HoldRange Irregular columns from to places.now result.now }
{
    let (first, stop) = chain_range::places_between(places, from, to);
    &places[first..stop]
}

// Those of a regular series.
fn grid_places<'a>(
    kind: &RowType,
    grid: &Grid<'_>,
    places: &'a [Place],
    from: Stamp,
    to: Stamp,
) -> &'a [Place]
    requires laid { IsLaid grid.now.calendar }
    requires rising { IsRising places.now }
    ensures holds { HoldRange (Regular grid.now) kind.now.columns from to places.now result.now }
{
    let offsets = offsets_of(grid, from, to);
    if offsets.lower == offsets.upper {
        return &places[..0];
    }
    grid_page::places_between(kind, places, offsets.lower, offsets.upper)
}

/// Hands the elements from one stamp to another, both included, to a visitor, hidden ones too, as `rows` does: those on
/// pages that are in memory, each at the index of its place. A page whose head disagrees with its place is taken as one
/// without elements.
pub fn rows_of_pages<V: RowVisitor>(
    read: &[Page],
    places: &[Place],
    shelf: &Shelf,
    shape: &Shape<'_>,
    from: Stamp,
    to: Stamp,
    visitor: &mut V,
) -> Result<(), AllocError>
    ensures took { OnOk result (IsLaidOut shape.now → (pages : ℕ → List ℕ) (es : List Element)
        → ArePagesOf pages places.now read.now
        → HaveOnPlaces shape.now shelf.now.series shelf.now.kind.now.columns pages places.now es
        → V.took shelf.now.kind.now.columns visitor.old (within_range from to es) visitor.new) }
{
    match shape {
        Shape::Irregular => chain_rows_of_pages(read, places, shelf, from, to, visitor),
        Shape::Regular(grid) => grid_rows_of_pages(read, places, shelf, grid, from, to, visitor),
    }
}
