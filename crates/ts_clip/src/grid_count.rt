// How many entries a regular series has.
ghost use Rattle.std.specs.Prelude.{◌≡◌, ◌<◌, ◌^◌, ◌+◌, ℤ, All, IfOk, IfSome, IfNone, Some, length};
ghost use Rattle.ts_space.specs.Directory.{places_of};
ghost use Rattle.ts_calendar.specs.Calendars.{IsLaid};
ghost use Rattle.ts_offset.specs.Grid.{stamp_of};
ghost use Rattle.ts_offset.specs.declared.shape.Shape.TheVariants.{Regular};
ghost use Rattle.ts_regular.specs.Places.{CanBeRead};
ghost use Rattle.ts_irregular.specs.Call.{Reads};
ghost use Rattle.ts_entry.specs.Entry.{reading};
ghost use Rattle.ts_clip.specs.Grid.{HoldsOfGrid};

use ts_base::StoreFault;
use ts_offset::Grid;
use ts_page::{Page, Pages};
use ts_regular::regular_last;
use ts_row::{Row, Shelf};
use ts_space::Space;

/// How many entries a series has: one more than the offset of its last element that isn't hidden, or none. An offset
/// without an on start is a damaged page's.
pub(crate) fn entry_count<P: Pages>(
    pages: &mut P,
    page: &mut Page,
    space: &Space,
    shelf: &Shelf,
    grid: &Grid<'_>,
) -> Result<u64, StoreFault>
    requires slot { shelf.now.series < 4096 }
    requires laid { IsLaid grid.now.calendar }
    requires readable { All (CanBeRead (P.contents pages.old)) (places_of shelf.now.series space.now) }
    ensures count { IfOk result (λ count. HoldsOfGrid P.tells grid.now shelf.now space.now (P.contents pages.old)
        (λ es. count ≡ length (reading (Regular grid.now) es))) }
    ensures few { IfOk result (λ count. count < 2 ^ 63) }
    ensures call { Reads P.tells result (P.contents pages.old) (P.contents pages.new) }
    ensures undisturbed { P.undisturbed pages.old pages.new }
{
    let last = regular_last(pages, page, space, shelf)?;
    Ok(count_to(grid, last))
}

// How many entries there are up to that of an element.
fn count_to(grid: &Grid<'_>, last: Option<(u64, Row)>) -> u64
    ensures some { IfSome last (λ e. (start : ℤ) → stamp_of grid.now e.0 ≡ Some start → result ≡ e.0 + 1) }
    ensures none { IfNone last (result ≡ 0) }
    ensures few { result < 2 ^ 63 }
{
    let Some((offset, _row)) = last else {
        return 0;
    };
    if grid.stamp_of(offset).is_none() {
        return 0;
    }
    offset + 1
}
