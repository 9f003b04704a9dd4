// The values of expressions for the elements of a series.
ghost use Rattle.std.specs.Prelude.{◌<◌, ◌^◌, Ok, IfOk};
ghost use Rattle.ts_space.specs.Place.{count_of};
ghost use Rattle.ts_space.specs.Directory.{places_of};
ghost use Rattle.ts_irregular.specs.Call.{Reads};
ghost use Rattle.ts_clip.specs.Series.{ArePlaces, IsTold};
ghost use Rattle.ts_offset.specs.Shape.{IsLaidOut};
ghost use Rattle.ts_entry.specs.Handed.{AreHanded};
ghost use Rattle.ts_running.specs.Rows;
ghost use Rattle.ts_running_rows.specs.Call.{rows_within};

use crate::application::AppliedRows;
use crate::run::MOST_ROWS;
use std::alloc::Global;
use ts_base::{Refusal, Stamp, StoreFault};
use ts_clip::elements;
use ts_offset::Shape;
use ts_page::{Page, Pages};
use ts_row::Shelf;
use ts_running::{ApplyRoom, BoundExpr, NumbersVisitor};
use ts_space::Space;

/// Hands on a row for each element from one stamp to another, both included, that isn't hidden: at its stamp the values
/// of expressions over its own. Tells how many rows they are; TooLarge where they are more than 1000000, else Overflow
/// where a number of one of them has no place, and then some of them were handed on. The pages that have such elements
/// are read, each once; all pages stay; `page` is room to read one.
pub fn applied_rows<P: Pages, V: NumbersVisitor>(
    alloc: Global,
    pages: &mut P,
    page: &mut Page,
    space: &Space,
    shelf: &Shelf,
    shape: &Shape<'_>,
    exprs: &BoundExpr,
    from: Stamp,
    to: Stamp,
    visitor: &mut V,
) -> Result<Result<u64, Refusal>, StoreFault>
    requires slot { shelf.now.series < 4096 }
    requires laid { IsLaidOut shape.now }
    requires places { ArePlaces shape.now shelf.now.kind.now.columns (P.contents pages.old)
        (places_of shelf.now.series space.now) }
    requires countable { count_of (places_of shelf.now.series space.now) < 2 ^ 32 }
    ensures read { IfOk result (λ done. IsTold P.tells shape.now shelf.now.series shelf.now.kind.now.columns
        (places_of shelf.now.series space.now) (P.contents pages.old)
        (λ es. AreHanded (λ rows. V.took visitor.old rows visitor.new)
        (rows_within (Rows.applied_rows exprs.now) from to es) done)) }
    ensures call { Reads P.tells result (P.contents pages.old) (P.contents pages.new) }
    ensures undisturbed { P.undisturbed pages.old pages.new }
{
    // There are as many as its places tell.
    let _places = space.places(shelf.series);
    let mut numbers = Vec::new(alloc);
    let mut room = ApplyRoom::new(alloc);
    let mut rows = AppliedRows::new(exprs, &mut numbers, &mut room, visitor);
    elements(pages, page, space, shelf, shape, from, to, &mut rows)?;
    let count = rows.count;
    if count > MOST_ROWS {
        return Ok(Err(Refusal::TooLarge { rows: count }));
    }
    if rows.overflowed {
        return Ok(Err(Refusal::Overflow));
    }
    Ok(Ok(count))
}
