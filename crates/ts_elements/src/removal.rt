// The routines that take elements away.
ghost use Rattle.std.specs.Prelude.{◌≡◌, ◌<◌, ℕ, List, []};
ghost use Rattle.ts_command.specs.declared.command.Command.TheVariants.{DelElem, DelClip};
ghost use Rattle.ts_space.specs.Directory.{places_of};
ghost use Rattle.ts_cells.specs.IrregularPage.{page_room};
ghost use Rattle.ts_model.specs.Definitions.{series_slots};
ghost use Rattle.ts_answer.specs.View.{view, IsSeen};
ghost use Rattle.ts_answer.specs.CarriedOut.{CarriedOut};
ghost use Rattle.ts_shelf.specs.Shelf.{IsShelf};
ghost use Rattle.ts_elements.specs.Stamps.{ArePlaces};
ghost use Rattle.ts_offset.specs.Shape.{IsLaidOut};

use crate::calls::{clear_in, remove_in};
use std::alloc::Global;
use ts_answer::{Effect, Stop};
use ts_base::{Key, Reply, Stamp};
use ts_model::Defs;
use ts_offset::Shape;
use ts_page::{Page, Pages};
use ts_row::Shelf;
use ts_say::say_count;
use ts_shelf::shelf_of;
use ts_space::Space;

/// Takes the element that a stamp of a series addresses away, hidden or not. Where it addresses none that is there
/// nothing changes, and that is no error. `page` is room to read one.
pub fn delete_element<P: Pages>(
    pages: &mut P,
    page: &mut Page,
    defs: &Defs,
    space: &Space,
    key: &Key,
    stamp: Stamp,
    out: &mut Reply,
) -> Result<Effect, Stop>
    requires seen { IsSeen P.tells (view defs.now.definitions space.now (P.contents pages.old)) }
    requires empty { out.old ≡ [] }
    ensures carried { CarriedOut P.tells (DelElem key.now stamp) result out.new
        (view defs.now.definitions space.now (P.contents pages.old)) (P.contents pages.new) }
    ensures undisturbed { P.undisturbed pages.old pages.new }
{
    let (shelf, shape) = shelf_of(pages, defs, space, key)?;
    remove_on(pages, page, defs, space, &shelf, &shape, stamp, out)
}

// Takes it away, once the series is known.
fn remove_on<P: Pages>(
    pages: &mut P,
    page: &mut Page,
    _defs: &Defs,
    space: &Space,
    shelf: &Shelf,
    shape: &Shape<'_>,
    stamp: Stamp,
    out: &mut Reply,
) -> Result<Effect, Stop>
    requires seen { IsSeen P.tells (view _defs.now.definitions space.now (P.contents pages.old)) }
    requires slot { shelf.now.series < series_slots }
    requires laid { IsLaidOut shape.now }
    requires some { 0 < page_room shelf.now.kind.now.columns }
    requires places { ArePlaces shape.now shelf.now.kind.now.columns (P.contents pages.old)
        (places_of shelf.now.series space.now) }
    requires empty { out.old ≡ [] }
    ensures carried { (key : List ℕ) → IsShelf shape.now shelf.now.series shelf.now.kind.now key _defs.now.definitions
        → CarriedOut P.tells (DelElem key stamp) result out.new
        (view _defs.now.definitions space.now (P.contents pages.old)) (P.contents pages.new) }
    ensures undisturbed { P.undisturbed pages.old pages.new }
{
    match remove_in(pages, page, space, shelf, shape, stamp)? {
        Some(moved) => {
            say_count(out, 1)?;
            Ok(Effect::Places {
                slot: shelf.series,
                moved,
            })
        }
        None => {
            say_count(out, 0)?;
            Ok(Effect::Nothing)
        }
    }
}

/// Takes all elements of a series from one stamp to another away, both included, hidden or not. Where none stands there
/// nothing changes. `page` is room to read one; the memory is for the numbers of the pages that are freed, 4 bytes
/// each.
pub fn delete_range<P: Pages>(
    alloc: Global,
    pages: &mut P,
    page: &mut Page,
    defs: &Defs,
    space: &Space,
    key: &Key,
    from: Stamp,
    to: Stamp,
    out: &mut Reply,
) -> Result<Effect, Stop>
    requires seen { IsSeen P.tells (view defs.now.definitions space.now (P.contents pages.old)) }
    requires empty { out.old ≡ [] }
    ensures carried { CarriedOut P.tells (DelClip key.now from to) result out.new
        (view defs.now.definitions space.now (P.contents pages.old)) (P.contents pages.new) }
    ensures undisturbed { P.undisturbed pages.old pages.new }
{
    let (shelf, shape) = shelf_of(pages, defs, space, key)?;
    clear_on(
        alloc, pages, page, defs, space, &shelf, &shape, from, to, out,
    )
}

// Takes them away, once the series is known.
fn clear_on<P: Pages>(
    alloc: Global,
    pages: &mut P,
    page: &mut Page,
    _defs: &Defs,
    space: &Space,
    shelf: &Shelf,
    shape: &Shape<'_>,
    from: Stamp,
    to: Stamp,
    out: &mut Reply,
) -> Result<Effect, Stop>
    requires seen { IsSeen P.tells (view _defs.now.definitions space.now (P.contents pages.old)) }
    requires slot { shelf.now.series < series_slots }
    requires laid { IsLaidOut shape.now }
    requires some { 0 < page_room shelf.now.kind.now.columns }
    requires places { ArePlaces shape.now shelf.now.kind.now.columns (P.contents pages.old)
        (places_of shelf.now.series space.now) }
    requires empty { out.old ≡ [] }
    ensures carried { (key : List ℕ) → IsShelf shape.now shelf.now.series shelf.now.kind.now key _defs.now.definitions
        → CarriedOut P.tells (DelClip key from to) result out.new
        (view _defs.now.definitions space.now (P.contents pages.old)) (P.contents pages.new) }
    ensures undisturbed { P.undisturbed pages.old pages.new }
{
    let (removed, moved) = clear_in(alloc, pages, page, space, shelf, shape, from, to)?;
    say_count(out, removed)?;
    match moved {
        Some(moved) => Ok(Effect::Places {
            slot: shelf.series,
            moved,
        }),
        None => Ok(Effect::Nothing),
    }
}
