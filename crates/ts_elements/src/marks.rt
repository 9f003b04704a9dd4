// The routines that hide an element, and show it again.
ghost use Rattle.std.specs.Prelude.{◌≡◌, ◌<◌, ℕ, List, []};
ghost use Rattle.ts_space.specs.Directory.{places_of};
ghost use Rattle.ts_model.specs.Definitions.{series_slots};
ghost use Rattle.ts_answer.specs.View.{view, IsSeen};
ghost use Rattle.ts_answer.specs.CarriedOut.{CarriedOut};
ghost use Rattle.ts_shelf.specs.Shelf.{IsShelf};
ghost use Rattle.ts_elements.specs.Elements.{mark_of};
ghost use Rattle.ts_elements.specs.Stamps.{ArePlaces};
ghost use Rattle.ts_offset.specs.Shape.{IsLaidOut};

use crate::calls::mark_in;
use ts_answer::{Effect, Stop};
use ts_base::{Key, Reply, Stamp};
use ts_define::in_format;
use ts_model::Defs;
use ts_offset::Shape;
use ts_page::{Page, Pages};
use ts_row::Shelf;
use ts_say::say_stamp;
use ts_shelf::shelf_of;
use ts_space::Space;

/// Hides the element that a stamp of a series addresses, or shows it again; it may be so already. A key that no series
/// has is refused, then a volume of format 1, then a stamp that a regular series has no place for, then one without an
/// element. `page` is room to read one.
pub fn mark_element<P: Pages>(
    pages: &mut P,
    page: &mut Page,
    defs: &Defs,
    space: &Space,
    hidden: bool,
    key: &Key,
    stamp: Stamp,
    out: &mut Reply,
) -> Result<Effect, Stop>
    requires seen { IsSeen P.tells (view defs.now.definitions space.now (P.contents pages.old)) }
    requires empty { out.old ≡ [] }
    ensures carried { CarriedOut P.tells (mark_of hidden key.now stamp) result out.new
        (view defs.now.definitions space.now (P.contents pages.old)) (P.contents pages.new) }
    ensures undisturbed { P.undisturbed pages.old pages.new }
{
    let (shelf, shape) = shelf_of(pages, defs, space, key)?;
    mark_on(pages, page, defs, space, &shelf, &shape, hidden, stamp, out)
}

// Marks it, once the series is known.
fn mark_on<P: Pages>(
    pages: &mut P,
    page: &mut Page,
    defs: &Defs,
    space: &Space,
    shelf: &Shelf,
    shape: &Shape<'_>,
    hidden: bool,
    stamp: Stamp,
    out: &mut Reply,
) -> Result<Effect, Stop>
    requires seen { IsSeen P.tells (view defs.now.definitions space.now (P.contents pages.old)) }
    requires slot { shelf.now.series < series_slots }
    requires laid { IsLaidOut shape.now }
    requires places { ArePlaces shape.now shelf.now.kind.now.columns (P.contents pages.old)
        (places_of shelf.now.series space.now) }
    requires empty { out.old ≡ [] }
    ensures carried { (key : List ℕ) → IsShelf shape.now shelf.now.series shelf.now.kind.now key defs.now.definitions
        → CarriedOut P.tells (mark_of hidden key stamp) result out.new
        (view defs.now.definitions space.now (P.contents pages.old)) (P.contents pages.new) }
    ensures undisturbed { P.undisturbed pages.old pages.new }
{
    in_format(defs, true)?;
    match mark_in(pages, page, space, shelf, shape, stamp, hidden)? {
        Ok(at) => {
            say_stamp(out, at)?;
            Ok(Effect::Pages)
        }
        Err(refusal) => Err(Stop::Refused(refusal)),
    }
}
