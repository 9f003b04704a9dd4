// The element of a series that a stamp addresses, read on its pages by its shape.
ghost use Rattle.std.specs.Prelude.{◌≡◌, ◌<◌, IsTrue, IfOk, IfSome, Some, option_map, option_to_list};
ghost use Rattle.ts_row.specs.Row.{fits, seen};
ghost use Rattle.ts_space.specs.Directory.{places_of};
ghost use Rattle.ts_irregular.specs.Call.{Reads};
ghost use Rattle.ts_model.specs.Definitions.{series_slots};
ghost use Rattle.ts_elements.specs.Stamps.{ArePlaces};
ghost use Rattle.ts_offset.specs.Shape.{IsLaidOut};
ghost use Rattle.ts_elements.specs.Calls.{IsFound};

use ts_base::{Stamp, StoreFault};
use ts_chain::chain_find;
use ts_offset::Shape;
use ts_page::{Page, Pages};
use ts_regular_edits::find_at;
use ts_row::{Row, Shelf};
use ts_space::Space;

/// The element that a stamp addresses, hidden or not, with the stamp at which it stands. All pages stay; `page` is room
/// to read one.
pub(crate) fn find_in<P: Pages>(
    pages: &mut P,
    page: &mut Page,
    space: &Space,
    shelf: &Shelf,
    shape: &Shape<'_>,
    stamp: Stamp,
) -> Result<Option<(Stamp, Row)>, StoreFault>
    requires slot { shelf.now.series < series_slots }
    requires laid { IsLaidOut shape.now }
    requires places { ArePlaces shape.now shelf.now.kind.now.columns (P.contents pages.old)
        (places_of shelf.now.series space.now) }
    ensures found { IfOk result (IsFound P.tells shape.now shelf.now.series shelf.now.kind.now.columns stamp
        (places_of shelf.now.series space.now) (P.contents pages.old)) }
    ensures fits { IfOk result (λ found. IfSome found (λ e. IsTrue (fits shelf.now.kind.now.columns e.1))) }
    ensures call { Reads P.tells result (P.contents pages.old) (P.contents pages.new) }
    ensures undisturbed { P.undisturbed pages.old pages.new }
{
    match shape {
        Shape::Irregular => {
            let row = chain_find(pages, page, space, shelf, stamp)?;
            Ok(at_stamp(stamp, row))
        }
        Shape::Regular(grid) => find_at(pages, page, space, shelf, grid, stamp),
    }
}

// A row with its stamp, where there is one.
fn at_stamp(stamp: Stamp, row: Option<Row>) -> Option<(Stamp, Row)>
    ensures { result ≡ option_map (λ r. (stamp, r)) row }
{
    match row {
        Some(row) => Some((stamp, row)),
        None => None,
    }
}

/// An element, if it isn't hidden.
pub(crate) fn if_seen(found: Option<(Stamp, Row)>) -> Option<(Stamp, Row)>
    ensures seen { option_to_list result ≡ seen (option_to_list found) }
    ensures same { IfSome result (λ e. found ≡ Some e) }
{
    let (stamp, row) = found?;
    if row.hidden() {
        return None;
    }
    Some((stamp, row))
}
