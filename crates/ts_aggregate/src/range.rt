// The elements of a range as one row.
ghost use Rattle.std.specs.Prelude.{◌<◌, ◌^◌, IfOk, map};
ghost use Rattle.ts_space.specs.Place.{count_of};
ghost use Rattle.ts_space.specs.Directory.{places_of};
ghost use Rattle.ts_irregular.specs.Call.{Reads};
ghost use Rattle.ts_sheets.specs.Stamped.{within_range};
ghost use Rattle.ts_clip.specs.Series.{ArePlaces, IsTold};
ghost use Rattle.ts_offset.specs.Shape.{IsLaidOut};
ghost use Rattle.ts_aggregate.specs.Fold.{Folds};

use crate::Folding;
use ts_base::{Stamp, StoreFault};
use ts_clip::rows;
use ts_offset::Shape;
use ts_page::{Page, Pages};
use ts_row::{Row, Shelf};
use ts_space::Space;

/// What a list makes of the elements from one stamp to another, both included, those that aren't hidden, by a fold that
/// had taken nothing; it then has taken nothing again. All pages stay; `page` is room to read one.
pub fn aggregate_range<P: Pages>(
    pages: &mut P,
    page: &mut Page,
    space: &Space,
    shelf: &Shelf,
    shape: &Shape<'_>,
    folding: &mut Folding<'_>,
    from: Stamp,
    to: Stamp,
) -> Result<Row, StoreFault>
    requires slot { shelf.now.series < 4096 }
    requires laid { IsLaidOut shape.now }
    requires places { ArePlaces shape.now shelf.now.kind.now.columns (P.contents pages.old)
        (places_of shelf.now.series space.now) }
    requires countable { count_of (places_of shelf.now.series space.now) < 2 ^ 32 }
    ensures folds { IfOk result (λ row. IsTold P.tells shape.now shelf.now.series shelf.now.kind.now.columns
        (places_of shelf.now.series space.now) (P.contents pages.old)
        (λ es. Folds shelf.now.kind.now.columns folding.old
        (map (λ e. e.1) (within_range from to es)) row folding.new)) }
    ensures call { Reads P.tells result (P.contents pages.old) (P.contents pages.new) }
    ensures undisturbed { P.undisturbed pages.old pages.new }
{
    rows(pages, page, space, shelf, shape, from, to, folding)?;
    Ok(folding.finish()?)
}
