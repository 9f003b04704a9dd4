// All elements from one stamp to another are taken away.
ghost use Rattle.std.specs.Prelude.{◌≡◌, ◌≢◌, false, IsTrue, ◌+◌, ◌*◌, ◌<◌, ◌≤◌, ◌^◌, IfOk, OnOk, length};
ghost use Rattle.ts_space.specs.Directory.{places_of};
ghost use Rattle.ts_page.specs.Pages.{Answered};
ghost use Rattle.ts_regular.specs.Places.{ArePlaces};
ghost use Rattle.ts_regular_edits.specs.Range.{AreUpTo, IsClearedAt};

use std::alloc::Global;
use ts_base::{Stamp, StoreFault};
use ts_offset::Grid;
use ts_page::{Page, Pages};
use ts_regular::regular_clear;
use ts_row::Shelf;
use ts_space::{Moved, Space};

/// Takes away all elements from one stamp to another, both included, hidden or not; gives how many they were and which
/// places go and come: none, and no page changes, where no element stands there, or the first stamp is the later one.
/// The pages of the two ends alone are read, and at most these two are written; those that lose all of their elements
/// are freed. After an error pages may have changed in part. `page` is room to read one; the memory is for the numbers
/// of the pages that are freed, 4 bytes each.
pub fn clear_at<P: Pages>(
    alloc: Global,
    pages: &mut P,
    page: &mut Page,
    space: &Space,
    shelf: &Shelf,
    grid: &Grid<'_>,
    from: Stamp,
    to: Stamp,
) -> Result<(u64, Option<Moved>), StoreFault>
    requires slot { shelf.now.series < 4096 }
    requires places { ArePlaces shelf.now.kind.now.columns (P.contents pages.old)
        (places_of shelf.now.series space.now) }
    ensures ok { IfOk result (λ r. IsClearedAt P.tells shelf.now.series shelf.now.kind.now.columns grid.now from to
        (places_of shelf.now.series space.now)
        (P.contents pages.old) (P.contents pages.new) r.0 r.1) }
    ensures call { Answered result (P.contents pages.old) (P.contents pages.new) }
    ensures change { (P.contents pages.new).change_bytes
        ≤ (P.contents pages.old).change_bytes + 8202 + 5 * length (places_of shelf.now.series space.now) }
    ensures grows { OnOk result ((P.contents pages.new).change_bytes + 5 * length (P.contents pages.old).free
        ≤ (P.contents pages.old).change_bytes + 5 * length (P.contents pages.new).free + 8202) }
    ensures taken { OnOk result (length (P.contents pages.old).free ≤ length (P.contents pages.new).free) }
    ensures undisturbed { P.undisturbed pages.old pages.new }
{
    let lower = grid.offset_from(from);
    let upper = offset_after(grid, to);
    regular_clear(alloc, pages, page, space, shelf, lower, upper)
}

// How many on starts there are from the origin up to a stamp, one at it included.
fn offset_after(grid: &Grid<'_>, stamp: Stamp) -> u64
    ensures after { AreUpTo grid.now stamp result }
    ensures few { result < 2 ^ 63 }
{
    let before = grid.offset_from(stamp);
    match grid.stamp_of(before) {
        Some(start) if is_same(start, stamp) => before + 1,
        _ => before,
    }
}

// Whether two stamps are one.
fn is_same(stamp: Stamp, other: Stamp) -> bool
    ensures yes { IsTrue result → stamp ≡ other }
    ensures no { result ≡ false → stamp ≢ other }
{
    stamp.units() == other.units()
}
