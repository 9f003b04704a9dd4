// A series with its columns and its shape, found by its key: what every routine on elements begins with.
ghost use Rattle.std.specs.Prelude.{◌≡◌, ◌<◌, ℕ, IfOk, List, Some};
ghost use Rattle.ts_space.specs.Place.{IsRising};
ghost use Rattle.ts_space.specs.Directory.{places_of};
ghost use Rattle.ts_cells.specs.IrregularPage.{page_room};
ghost use Rattle.ts_clip.specs.Series.{ArePlaces};
ghost use Rattle.ts_offset.specs.Shape.{IsLaidOut};
ghost use Rattle.ts_model.specs.declared.kind.Kind.TheVariants.{Series};
ghost use Rattle.ts_layout.specs.Meaning.{Layout, heading_at, shape_at, catalogue_of};
ghost use Rattle.ts_answer.specs.Answer.{wanted};
ghost use Rattle.ts_answer.specs.Slots.{IsSlotNamed};
ghost use Rattle.ts_answer.specs.Tried.{IsTried};
ghost use Rattle.ts_answer.specs.View.{view, IsSeen, IsViewOf};
ghost use Rattle.ts_shelf.specs.Shelf.{IsShelf, IsShelfIn};

use ts_base::{Key, Trouble};
use ts_container::{row_type_of, shape_of};
use ts_define::series_named;
use ts_model::Defs;
use ts_offset::Shape;
use ts_page::Pages;
use ts_row::Shelf;
use ts_space::Space;

/// The series of a key, with its columns, and where its elements can stand. Its pages are such that they can be read
/// and written.
pub fn shelf_of<'a, P: Pages>(
    pages: &P,
    defs: &'a Defs,
    space: &Space,
    key: &Key,
) -> Result<(Shelf<'a>, Shape<'a>), Trouble>
    requires seen { IsSeen P.tells (view defs.now.definitions space.now (P.contents pages.now)) }
    ensures found { IfOk result (λ r. IsShelf r.1 r.0.series r.0.kind.now key.now defs.now.definitions) }
    ensures laid { IfOk result (λ r. IsLaidOut r.1) }
    ensures some { IfOk result (λ r. 0 < page_room r.0.kind.now.columns) }
    ensures rising { IfOk result (λ r. IsRising (places_of r.0.series space.now)) }
    ensures places { IfOk result (λ r. ArePlaces r.1 r.0.kind.now.columns (P.contents pages.now)
        (places_of r.0.series space.now)) }
    ensures tried { (l : Layout) → IsViewOf (view defs.now.definitions space.now (P.contents pages.now)) l
        → IsTried result (wanted key.now (catalogue_of l).series)
        (λ r series. IsShelfIn l key.now r.1 r.0.series r.0.kind.now series) }
{
    let slot = series_named(defs, key)?;
    let found = shelf_at(pages, defs, space, slot);
    Ok(found)
}

/// The same of the series in a slot.
pub fn shelf_at<'a, P: Pages>(
    _pages: &P,
    defs: &'a Defs,
    _space: &Space,
    slot: u16,
) -> (Shelf<'a>, Shape<'a>)
    requires seen { IsSeen P.tells (view defs.now.definitions _space.now (P.contents _pages.now)) }
    requires named { (key : List ℕ) × IsSlotNamed Series slot key defs.now.definitions }
    ensures slot { result.0.series ≡ slot }
    ensures columns { heading_at defs.now.definitions slot ≡ Some result.0.kind.now }
    ensures lies { shape_at defs.now.definitions slot ≡ Some result.1 }
    ensures laid { IsLaidOut result.1 }
    ensures some { 0 < page_room result.0.kind.now.columns }
    ensures rising { IsRising (places_of slot _space.now) }
    ensures places { ArePlaces result.1 result.0.kind.now.columns (P.contents _pages.now) (places_of slot _space.now) }
{
    let Some(kind) = row_type_of(defs, slot) else {
        unreachable!()
    };
    let Some(shape) = shape_of(defs, slot) else {
        unreachable!()
    };
    (Shelf { series: slot, kind }, shape)
}
