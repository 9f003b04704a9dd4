// The first and the last element of a series, whatever its shape.
ghost use Rattle.std.specs.Prelude.{◌≡◌, ◌<◌, IsTrue, IfOk, IfSome};
ghost use Rattle.ts_row.specs.Row.{fits};
ghost use Rattle.ts_space.specs.Directory.{places_of};
ghost use Rattle.ts_irregular.specs.Call.{Reads};
ghost use Rattle.ts_irregular.specs.Edit.{last_seen};
ghost use Rattle.ts_entry.specs.Entry.{first_seen};
ghost use Rattle.ts_clip.specs.Series.{ArePlaces, IsTold};
ghost use Rattle.ts_offset.specs.Shape.{IsLaidOut};

use crate::chain_first::chain_first;
use crate::grid_ends::{grid_first, grid_last};
use ts_base::{Stamp, StoreFault};
use ts_chain::chain_last;
use ts_offset::Shape;
use ts_page::{Page, Pages};
use ts_row::{Row, Shelf};
use ts_space::Space;

/// The first element that isn't hidden, with its stamp. The pages are read from the first one on, up to the first that
/// has such an element. All pages stay; `page` is room to read one.
pub fn first_elem<P: Pages>(
    pages: &mut P,
    page: &mut Page,
    space: &Space,
    shelf: &Shelf,
    shape: &Shape<'_>,
) -> Result<Option<(Stamp, Row)>, StoreFault>
    requires slot { shelf.now.series < 4096 }
    requires laid { IsLaidOut shape.now }
    requires places { ArePlaces shape.now shelf.now.kind.now.columns (P.contents pages.old)
        (places_of shelf.now.series space.now) }
    ensures first { IfOk result (λ first. IsTold P.tells shape.now shelf.now.series shelf.now.kind.now.columns
        (places_of shelf.now.series space.now) (P.contents pages.old) (λ es. first ≡ first_seen es)) }
    ensures fits { IfOk result (λ first. IfSome first (λ e. IsTrue (fits shelf.now.kind.now.columns e.1))) }
    ensures call { Reads P.tells result (P.contents pages.old) (P.contents pages.new) }
    ensures undisturbed { P.undisturbed pages.old pages.new }
{
    match shape {
        Shape::Irregular => chain_first(pages, page, space, shelf),
        Shape::Regular(grid) => grid_first(pages, page, space, shelf, grid),
    }
}

/// The last element that isn't hidden, with its stamp. The pages are read from the last one backwards, up to the first
/// that has such an element. All pages stay; `page` is room to read one.
pub fn last_elem<P: Pages>(
    pages: &mut P,
    page: &mut Page,
    space: &Space,
    shelf: &Shelf,
    shape: &Shape<'_>,
) -> Result<Option<(Stamp, Row)>, StoreFault>
    requires slot { shelf.now.series < 4096 }
    requires laid { IsLaidOut shape.now }
    requires places { ArePlaces shape.now shelf.now.kind.now.columns (P.contents pages.old)
        (places_of shelf.now.series space.now) }
    ensures last { IfOk result (λ last. IsTold P.tells shape.now shelf.now.series shelf.now.kind.now.columns
        (places_of shelf.now.series space.now) (P.contents pages.old) (λ es. last ≡ last_seen es)) }
    ensures fits { IfOk result (λ last. IfSome last (λ e. IsTrue (fits shelf.now.kind.now.columns e.1))) }
    ensures call { Reads P.tells result (P.contents pages.old) (P.contents pages.new) }
    ensures undisturbed { P.undisturbed pages.old pages.new }
{
    match shape {
        Shape::Irregular => chain_last(pages, page, space, shelf),
        Shape::Regular(grid) => grid_last(pages, page, space, shelf, grid),
    }
}
