// The elements that each on interval of a calendar holds as a row.
ghost use Rattle.std.specs.Prelude.{◌≡◌, ◌<◌, ◌^◌, [], IfOk};
ghost use Rattle.ts_row.specs.Row.{seen};
ghost use Rattle.ts_space.specs.Place.{count_of};
ghost use Rattle.ts_space.specs.Directory.{places_of};
ghost use Rattle.ts_irregular.specs.Call.{Reads};
ghost use Rattle.ts_base.specs.Answer.{within_rows};
ghost use Rattle.ts_entry.specs.Entry.{by_interval};
ghost use Rattle.ts_clip.specs.Series.{ArePlaces, IsTold};
ghost use Rattle.ts_offset.specs.Shape.{IsLaidOut};
ghost use Rattle.ts_expr.specs.Aggregates.{folded_row};
ghost use Rattle.ts_aggregate.specs.Fold.{HasTaken};
ghost use Rattle.ts_entry.specs.Handed.{AreHanded};

use crate::Folding;
use crate::by_interval::{ByInterval, MOST_ROWS};
use crate::wanted::WantedIntervals;
use ts_base::{Refusal, Stamp, StoreFault};
use ts_clip::rows;
use ts_entry::ElementVisitor;
use ts_offset::{Counter, Shape};
use ts_page::{Page, Pages};
use ts_row::Shelf;
use ts_space::Space;

/// Hands on a row for each on interval of a calendar that starts from one stamp to another, both included, and holds an
/// element that isn't hidden: what a list makes of those that it holds, at its start. Tells how many rows they are;
/// TooLarge where they are more than 1000000, and then some of them were handed on. The fold is one that has taken
/// nothing. The pages that have such elements are read, each once; all pages stay; `page` is room to read one.
pub fn aggregate_by<P: Pages, V: ElementVisitor>(
    pages: &mut P,
    page: &mut Page,
    space: &Space,
    shelf: &Shelf,
    shape: &Shape<'_>,
    calendar: &Counter,
    folding: &mut Folding<'_>,
    from: Stamp,
    to: Stamp,
    visitor: &mut V,
) -> Result<Result<u64, Refusal>, StoreFault>
    requires slot { shelf.now.series < 4096 }
    requires laid { IsLaidOut shape.now }
    requires places { ArePlaces shape.now shelf.now.kind.now.columns (P.contents pages.old)
        (places_of shelf.now.series space.now) }
    requires countable { count_of (places_of shelf.now.series space.now) < 2 ^ 32 }
    ensures read { IfOk result (λ done. IsTold P.tells shape.now shelf.now.series shelf.now.kind.now.columns
        (places_of shelf.now.series space.now) (P.contents pages.old)
        (λ es. shelf.now.kind.now.columns ≡ folding.old.binding.columns → HasTaken folding.old []
        → AreHanded (λ rows. V.took visitor.old rows visitor.new)
        (within_rows (by_interval (folded_row folding.old.binding.items) calendar.now from to (seen es))) done)) }
    ensures call { Reads P.tells result (P.contents pages.old) (P.contents pages.new) }
    ensures undisturbed { P.undisturbed pages.old pages.new }
{
    // They rise, and so do the elements.
    let _places = space.places(shelf.series);
    let wanted = WantedIntervals::new(calendar, from, to);
    let last = wanted.last();
    let mut room = folding.no_values();
    let mut groups = ByInterval::new(&wanted, folding, visitor, &mut room);
    rows(pages, page, space, shelf, shape, from, last, &mut groups)?;
    let count = groups.end()?;
    if count > MOST_ROWS {
        return Ok(Err(Refusal::TooLarge { rows: count }));
    }
    Ok(Ok(count))
}
