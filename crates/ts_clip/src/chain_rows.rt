// The rows of an irregular series, a page at a time.
ghost use Rattle.std.specs.Prelude.{◌≡◌, ◌-◌, ◌≤◌, ℕ, All, IfOk, OnOk, List, length, take, drop};
ghost use Rattle.ts_row.specs.Row.{Element};
ghost use Rattle.ts_cells.specs.IrregularPage.{page_room};
ghost use Rattle.ts_offset.specs.declared.shape.Shape.TheVariants.{Irregular};
ghost use Rattle.ts_irregular.specs.Call.{Reads};
ghost use Rattle.ts_irregular.specs.OnePage.{IsOn};
ghost use Rattle.ts_sheets.specs.Places.{CanBeRead};
ghost use Rattle.ts_sheets.specs.Stamped.{within_range};
ghost use Rattle.ts_clip.specs.Chain.{HoldsOfMore, HoldsOfPage};
ghost use Rattle.ts_clip.specs.Series.{HaveOnPlaces, IsToldOnPlaces, ArePagesOf};

use crate::chain_cells::{FRONT, range_on};
use std::alloc::AllocError;
use ts_base::{Stamp, StoreFault};
use ts_cells::cell_size;
use ts_entry::{RowVisitor, Stamps};
use ts_irregular::count_told;
use ts_page::{HEAD, Page, Pages};
use ts_row::{RowType, Shelf};
use ts_space::Place;

/// `rows` on the pages of some places.
pub(crate) fn chain_rows<P: Pages, V: RowVisitor>(
    pages: &mut P,
    page: &mut Page,
    shelf: &Shelf,
    places: &[Place],
    from: Stamp,
    to: Stamp,
    visitor: &mut V,
) -> Result<(), StoreFault>
    requires readable { All (CanBeRead (P.contents pages.old)) places.now }
    ensures read { IfOk result
        (λ done. IsToldOnPlaces P.tells Irregular shelf.now.series shelf.now.kind.now.columns places.now
        (P.contents pages.old)
        (λ es. V.took shelf.now.kind.now.columns visitor.old (within_range from to es) visitor.new)) }
    ensures call { Reads P.tells result (P.contents pages.old) (P.contents pages.new) }
    ensures undisturbed { P.undisturbed pages.old pages.new }
{
    for place in places {
        rows_on_page(pages, page, shelf, place, from, to, visitor)?;
    }
    Ok(())
}

// Hands on those of one page.
fn rows_on_page<P: Pages, V: RowVisitor>(
    pages: &mut P,
    page: &mut Page,
    shelf: &Shelf,
    place: &Place,
    from: Stamp,
    to: Stamp,
    visitor: &mut V,
) -> Result<(), StoreFault>
    requires readable { CanBeRead (P.contents pages.old) place.now }
    ensures read { IfOk result (λ done. HoldsOfPage P.tells shelf.now place.now (P.contents pages.old)
        (λ es. V.took shelf.now.kind.now.columns visitor.old (within_range from to es) visitor.new)) }
    ensures call { Reads P.tells result (P.contents pages.old) (P.contents pages.new) }
    ensures undisturbed { P.undisturbed pages.old pages.new }
{
    pages.get(place.page, page)?;
    rows_of_page(page, shelf, place, from, to, visitor)?;
    Ok(())
}

/// `rows_of_pages`.
pub(crate) fn chain_rows_of_pages<V: RowVisitor>(
    read: &[Page],
    places: &[Place],
    shelf: &Shelf,
    from: Stamp,
    to: Stamp,
    visitor: &mut V,
) -> Result<(), AllocError>
    ensures took { OnOk result ((pages : ℕ → List ℕ) (es : List Element) → ArePagesOf pages places.now read.now
        → HaveOnPlaces Irregular shelf.now.series shelf.now.kind.now.columns pages places.now es
        → V.took shelf.now.kind.now.columns visitor.old (within_range from to es) visitor.new) }
{
    for (place, page) in places.iter().zip(read) {
        rows_of_page(page, shelf, place, from, to, visitor)?;
    }
    Ok(())
}

// Hands on those of a page that was read: none of one whose head disagrees with its place.
fn rows_of_page<V: RowVisitor>(
    page: &Page,
    shelf: &Shelf,
    place: &Place,
    from: Stamp,
    to: Stamp,
    visitor: &mut V,
) -> Result<(), AllocError>
    ensures took { OnOk result ((es : List Element)
        → IsOn shelf.now.series shelf.now.kind.now.columns page.now.bytes place.now es
        → V.took shelf.now.kind.now.columns visitor.old (within_range from to es) visitor.new) }
{
    let count = count_told(shelf, place, page);
    let behind = &page.bytes[HEAD..];
    let (first, last) = range_on(shelf.kind, behind, count, from, to);
    rows_between(shelf.kind, behind, first, last, visitor)
}

// Hands on the rows in the cells from one index on and before another.
fn rows_between<V: RowVisitor>(
    kind: &RowType,
    behind: &[u8],
    first: usize,
    last: usize,
    visitor: &mut V,
) -> Result<(), AllocError>
    requires size { length behind.now ≡ 4064 }
    requires room { last ≤ page_room kind.now.columns }
    ensures { OnOk result (HoldsOfMore kind.now.columns last behind.now
        (λ es. V.took kind.now.columns visitor.old (take (last - first) (drop first es)) visitor.new)) }
{
    if last <= first {
        return Ok(());
    }
    let size = cell_size(kind);
    let cells = &behind[size * first..size * last];
    visitor.rows(kind, cells, FRONT, &Stamps::InCells)
}
