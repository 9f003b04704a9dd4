// An irregular series none of whose elements is hidden: places tell how many elements each page has, so that no page is
// read of which the elements are only counted or passed over.
ghost use Rattle.std.specs.Prelude.{◌≡◌, ◌+◌, ◌-◌, ◌^◌, ◌≤◌, false, IfOk, All, length, min, take};
ghost use Rattle.ts_space.specs.Place.{count_of};
ghost use Rattle.ts_row.specs.Row.{has_hidden};
ghost use Rattle.ts_irregular.specs.Call.{Reads};
ghost use Rattle.ts_sheets.specs.Stamped.{ArePages, all_in, within_range};
ghost use Rattle.ts_sheets.specs.Places.{CanBeRead};
ghost use Rattle.ts_clip.specs.Chain.{AreBounded, HoldsOfPages};

use crate::chain_pages::count_pages;
use ts_base::{Stamp, StoreFault};
use ts_page::{Page, Pages};
use ts_row::Shelf;
use ts_space::Place;

/// How many places are passed over at once.
const BLOCK: usize = 64;

/// From which page on the element of a number is looked for, and its number there: from its own page, where no element
/// is hidden; else from the first one.
pub(crate) fn page_of_number(places: &[Place], n: u64, shown: bool) -> (usize, u64)
    ensures within { result.0 ≤ length places.now }
    ensures number { count_of (take result.0 places.now) + result.1 ≡ n }
    ensures first { shown ≡ false → result.0 ≡ 0 }
{
    if !shown {
        return (0, n);
    }
    let (start, mut left) = block_of_number(places, n);
    let mut index = start;
    for place in &places[start..] {
        let count = u64::from(place.count);
        if left < count {
            return (index, left);
        }
        left -= count;
        index += 1;
    }
    (index, left)
}

// From which place on it is looked for, with whole blocks of places passed over, and its number there.
fn block_of_number(places: &[Place], n: u64) -> (usize, u64)
    ensures within { result.0 ≤ length places.now }
    ensures number { count_of (take result.0 places.now) + result.1 ≡ n }
{
    let mut left = n;
    let mut passed = 0;
    while places.len() - passed > BLOCK {
        let many = count_block(&places[passed..passed + BLOCK]);
        if left < many {
            return (passed, left);
        }
        left -= many;
        passed += BLOCK;
    }
    (passed, left)
}

// How many elements a block of places tells of.
fn count_block(block: &[Place]) -> u64
    requires { length block.now ≤ 64 }
    ensures { result ≡ count_of block.now }
{
    let mut count = 0_u64;
    for place in block {
        count += u64::from(place.count);
    }
    count
}

/// How many elements of a range stand on the pages of the places that hold it, none of them hidden, as far as a counter
/// of 64 bits goes. The first and the last of the pages are read.
pub(crate) fn count_ends<P: Pages>(
    pages: &mut P,
    page: &mut Page,
    shelf: &Shelf,
    places: &[Place],
    from: Stamp,
    to: Stamp,
) -> Result<u64, StoreFault>
    requires readable { All (CanBeRead (P.contents pages.old)) places.now }
    requires bounded { AreBounded from to places.now }
    ensures count { IfOk result (λ count. HoldsOfPages P.tells shelf.now places.now (P.contents pages.old)
        (λ chain. ArePages shelf.now.kind.now.columns chain → has_hidden (all_in chain) ≡ false
        → count ≡ min (length (within_range from to (all_in chain))) (2 ^ 64 - 1))) }
    ensures call { Reads P.tells result (P.contents pages.old) (P.contents pages.new) }
    ensures undisturbed { P.undisturbed pages.old pages.new }
{
    let Some((first, others)) = places.split_first() else {
        return count_pages(pages, page, shelf, places, from, to);
    };
    let Some((last, middle)) = others.split_last() else {
        return count_pages(pages, page, shelf, places, from, to);
    };
    let ends = count_pages(pages, page, shelf, &[*first, *last], from, to)?;
    Ok(ends.saturating_add(count_places(middle)))
}

// How many elements places tell of, as far as such a counter goes.
fn count_places(places: &[Place]) -> u64
    ensures { result ≡ min (count_of places.now) (2 ^ 64 - 1) }
{
    let mut count = 0_u64;
    let mut passed = 0;
    while places.len() - passed > BLOCK {
        count = count.saturating_add(count_block(&places[passed..passed + BLOCK]));
        passed += BLOCK;
    }
    count.saturating_add(count_block(&places[passed..]))
}
