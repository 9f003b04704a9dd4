// The routines that read one element.
ghost use Rattle.std.specs.Prelude.{◌≡◌, ◌<◌, ℕ, List, []};
ghost use Rattle.ts_command.specs.declared.command.Command.TheVariants.{GetElem, GetFirstElem, GetLastElem};
ghost use Rattle.ts_space.specs.Directory.{places_of};
ghost use Rattle.ts_model.specs.Definitions.{series_slots};
ghost use Rattle.ts_answer.specs.View.{view, IsSeen};
ghost use Rattle.ts_answer.specs.CarriedOut.{ReadOut};
ghost use Rattle.ts_shelf.specs.Shelf.{IsShelf};
ghost use Rattle.ts_elements.specs.Stamps.{ArePlaces};
ghost use Rattle.ts_offset.specs.Shape.{IsLaidOut};

use crate::found::{find_in, if_seen};
use std::alloc::Global;
use ts_answer::Stop;
use ts_base::{Key, Reply, Stamp};
use ts_clip::{first_elem, last_elem};
use ts_model::Defs;
use ts_offset::Shape;
use ts_page::{Page, Pages};
use ts_row::Shelf;
use ts_say::say_found;
use ts_shelf::shelf_of;
use ts_space::Space;

/// Says the element that a stamp of a series addresses, if there is one that isn't hidden. `page` is room to read one.
pub fn get_element<P: Pages>(
    alloc: Global,
    pages: &mut P,
    page: &mut Page,
    defs: &Defs,
    space: &Space,
    key: &Key,
    stamp: Stamp,
    out: &mut Reply,
) -> Result<(), Stop>
    requires seen { IsSeen P.tells (view defs.now.definitions space.now (P.contents pages.old)) }
    requires empty { out.old ≡ [] }
    ensures read { ReadOut P.tells (GetElem key.now stamp) result out.new
        (view defs.now.definitions space.now (P.contents pages.old)) (P.contents pages.new) }
    ensures undisturbed { P.undisturbed pages.old pages.new }
{
    let (shelf, shape) = shelf_of(pages, defs, space, key)?;
    get_on(alloc, pages, page, defs, space, &shelf, &shape, stamp, out)
}

// Says it, once the series is known.
fn get_on<P: Pages>(
    alloc: Global,
    pages: &mut P,
    page: &mut Page,
    _defs: &Defs,
    space: &Space,
    shelf: &Shelf,
    shape: &Shape<'_>,
    stamp: Stamp,
    out: &mut Reply,
) -> Result<(), Stop>
    requires seen { IsSeen P.tells (view _defs.now.definitions space.now (P.contents pages.old)) }
    requires slot { shelf.now.series < series_slots }
    requires laid { IsLaidOut shape.now }
    requires places { ArePlaces shape.now shelf.now.kind.now.columns (P.contents pages.old)
        (places_of shelf.now.series space.now) }
    requires empty { out.old ≡ [] }
    ensures read { (key : List ℕ) → IsShelf shape.now shelf.now.series shelf.now.kind.now key _defs.now.definitions
        → ReadOut P.tells (GetElem key stamp) result out.new
        (view _defs.now.definitions space.now (P.contents pages.old)) (P.contents pages.new) }
    ensures undisturbed { P.undisturbed pages.old pages.new }
{
    let found = find_in(pages, page, space, shelf, shape, stamp)?;
    say_found(alloc, out, shelf.kind, if_seen(found))?;
    Ok(())
}

/// Says the first element of a series that isn't hidden, if it has any. `page` is room to read one.
pub fn get_first_element<P: Pages>(
    alloc: Global,
    pages: &mut P,
    page: &mut Page,
    defs: &Defs,
    space: &Space,
    key: &Key,
    out: &mut Reply,
) -> Result<(), Stop>
    requires seen { IsSeen P.tells (view defs.now.definitions space.now (P.contents pages.old)) }
    requires empty { out.old ≡ [] }
    ensures read { ReadOut P.tells (GetFirstElem key.now) result out.new
        (view defs.now.definitions space.now (P.contents pages.old)) (P.contents pages.new) }
    ensures undisturbed { P.undisturbed pages.old pages.new }
{
    let (shelf, shape) = shelf_of(pages, defs, space, key)?;
    let first = first_elem(pages, page, space, &shelf, &shape)?;
    say_found(alloc, out, shelf.kind, first)?;
    Ok(())
}

/// Says the last element of a series that isn't hidden, if it has any. `page` is room to read one.
pub fn get_last_element<P: Pages>(
    alloc: Global,
    pages: &mut P,
    page: &mut Page,
    defs: &Defs,
    space: &Space,
    key: &Key,
    out: &mut Reply,
) -> Result<(), Stop>
    requires seen { IsSeen P.tells (view defs.now.definitions space.now (P.contents pages.old)) }
    requires empty { out.old ≡ [] }
    ensures read { ReadOut P.tells (GetLastElem key.now) result out.new
        (view defs.now.definitions space.now (P.contents pages.old)) (P.contents pages.new) }
    ensures undisturbed { P.undisturbed pages.old pages.new }
{
    let (shelf, shape) = shelf_of(pages, defs, space, key)?;
    let last = last_elem(pages, page, space, &shelf, &shape)?;
    say_found(alloc, out, shelf.kind, last)?;
    Ok(())
}
