// The rows of a series with their stamps, many at a time, whatever its shape.
ghost use Rattle.std.specs.Prelude.{◌<◌, IfOk};
ghost use Rattle.ts_space.specs.Directory.{places_of};
ghost use Rattle.ts_irregular.specs.Call.{Reads};
ghost use Rattle.ts_sheets.specs.Stamped.{within_range};
ghost use Rattle.ts_clip.specs.Series.{ArePlaces, IsTold};
ghost use Rattle.ts_offset.specs.Shape.{IsLaidOut};

use crate::chain_rows::chain_rows;
use crate::grid_rows::grid_rows;
use crate::in_memory::places_of_range;
use ts_base::{Stamp, StoreFault};
use ts_entry::RowVisitor;
use ts_offset::Shape;
use ts_page::{Page, Pages};
use ts_row::Shelf;
use ts_space::Space;

/// Hands the elements from one stamp to another, both included, to a visitor, hidden ones too: those of a page at a
/// time, in their cells, so that nothing is done for each. The pages of the range are read, each once; its head is
/// compared with its place, and one that disagrees is taken as a page without elements. All pages stay; `page` is room
/// to read one.
pub fn rows<P: Pages, V: RowVisitor>(
    pages: &mut P,
    page: &mut Page,
    space: &Space,
    shelf: &Shelf,
    shape: &Shape<'_>,
    from: Stamp,
    to: Stamp,
    visitor: &mut V,
) -> Result<(), StoreFault>
    requires slot { shelf.now.series < 4096 }
    requires laid { IsLaidOut shape.now }
    requires places { ArePlaces shape.now shelf.now.kind.now.columns (P.contents pages.old)
        (places_of shelf.now.series space.now) }
    ensures read { IfOk result (λ done. IsTold P.tells shape.now shelf.now.series shelf.now.kind.now.columns
        (places_of shelf.now.series space.now) (P.contents pages.old)
        (λ es. V.took shelf.now.kind.now.columns visitor.old (within_range from to es) visitor.new)) }
    ensures call { Reads P.tells result (P.contents pages.old) (P.contents pages.new) }
    ensures undisturbed { P.undisturbed pages.old pages.new }
{
    let all = space.places(shelf.series);
    let places = places_of_range(shelf.kind, shape, all, from, to);
    match shape {
        Shape::Irregular => chain_rows(pages, page, shelf, places, from, to, visitor),
        Shape::Regular(grid) => grid_rows(pages, page, shelf, grid, places, from, to, visitor),
    }
}
