// Two series as one, a part of the range after the other, so that few of their elements are in memory at once.
ghost use Rattle.std.specs.Prelude.{◌≡◌, ◌<◌, ◌≤ℤ◌, IfOk, length, map};
ghost use Rattle.ts_space.specs.Place.{IsRising};
ghost use Rattle.ts_irregular.specs.Call.{Reads};
ghost use Rattle.ts_model.specs.Definitions.{series_slots};
ghost use Rattle.ts_base.specs.declared.refusal.Refusal.TheVariants.{TooLarge};
ghost use Rattle.ts_combine.specs.Call.{joined_row};
ghost use Rattle.ts_combine.specs.Rows.{IsTooLarge};
ghost use Rattle.ts_combine.specs.Series.{side_of};
ghost use Rattle.ts_entry.specs.Entry.{elements_in};
ghost use Rattle.ts_combined_rows.specs.Combining.{AllFit, AreOfSeries, HaveGrid, IsThere};
ghost use Rattle.ts_combined_rows.specs.Pairs.{columns_in, AreAdded, AreTold, CanBeJoined, IsPartSaid};

use crate::rows::{MOST_ROWS, rows_of, say_rows};
use crate::sides::{elements_in, side_of};
use std::alloc::{AllocError, Global};
use ts_base::{Refusal, Reply, Stamp, StoreFault, Trouble};
use ts_combine::{Joined, Side, elements_outside_play_no_part, first_needed};
use ts_entry::KeptElements;
use ts_model::Defs;
use ts_offset::Shape;
use ts_page::{Page, Pages};
use ts_pattern::Junction;
use ts_row::Shelf;
use ts_space::{Place, Space, search};

/// How many pages of each series begin in a part of the range.
const PAGES_IN_PART: usize = 16;

/// Two series that are joined.
#[derive(Drop)]
pub(crate) struct Pair<'a> {
    pub(crate) defs: &'a Defs,
    pub(crate) space: &'a Space,
    pub(crate) junction: Junction,
    pub(crate) first: &'a (Shelf<'a>, Shape<'a>),
    pub(crate) second: &'a (Shelf<'a>, Shape<'a>),
}

/// Says the rows of two series as one, from one stamp to another, and tells how many they are; those beyond the most
/// rows of a reply are counted alone. All pages stay; `page` is room to read one; the memory is for the elements of a
/// few pages of each at a time, and for their rows.
pub(crate) fn say_pair<P: Pages>(
    alloc: Global,
    pages: &mut P,
    page: &mut Page,
    pair: &Pair<'_>,
    from: Stamp,
    to: Stamp,
    out: &mut Reply,
) -> Result<u64, StoreFault>
    requires pair { CanBeJoined pair.now (P.contents pages.old) }
    ensures said { IfOk result (λ count. AreTold P.tells pair.now (P.contents pages.old)
        (λ es fs. IsPartSaid pair.now es fs from to 0 out.old count out.new)) }
    ensures call { Reads P.tells result (P.contents pages.old) (P.contents pages.new) }
    ensures undisturbed { P.undisturbed pages.old pages.new }
{
    let mut count = 0;
    let mut low = from.units();
    while low <= to.units() {
        let start = stamp_between(from, to, low);
        let end = part_end(pair, start, to);
        count = say_part(alloc, pages, page, pair, start, end, count, out)?;
        low = end.units() + 1;
    }
    Ok(count)
}

// The stamp of a number of units between those of two others.
fn stamp_between(from: Stamp, to: Stamp, units: i64) -> Stamp
    requires low { from ≤ℤ units }
    requires high { units ≤ℤ to }
    ensures { result ≡ units }
{
    let _least = from.units();
    let _greatest = to.units();
    let Some(stamp) = Stamp::of(units) else {
        unreachable!()
    };
    stamp
}

// Where a part of the range ends that begins at a stamp: before too many pages of either series begin in it.
fn part_end(pair: &Pair<'_>, start: Stamp, to: Stamp) -> Stamp
    requires first { pair.now.first.now.0.series < series_slots }
    requires second { pair.now.second.now.0.series < series_slots }
    requires order { start ≤ℤ to }
    ensures from { start ≤ℤ result }
    ensures to { result ≤ℤ to }
{
    let end = pages_end(pair.space, pair.first, start, to);
    pages_end(pair.space, pair.second, start, end)
}

// The same by the pages of one series.
fn pages_end(space: &Space, series: &(Shelf<'_>, Shape<'_>), start: Stamp, to: Stamp) -> Stamp
    requires slot { series.now.0.series < series_slots }
    requires order { start ≤ℤ to }
    ensures from { start ≤ℤ result }
    ensures to { result ≤ℤ to }
{
    let (shelf, shape) = series;
    match last_before(space.places(shelf.series), shape, start) {
        Some(end) if start.units() <= end.units() && end.units() <= to.units() => end,
        _ => to,
    }
}

// The stamp before the first page that is one too many for a part that begins at a stamp, if there are as many.
fn last_before(places: &[Place], shape: &Shape<'_>, start: Stamp) -> Option<Stamp>
    requires { IsRising places.now }
{
    let behind = match search(places, number_from(shape, start)) {
        Ok(index) => index,
        Err(index) => index,
    };
    let place = places.get(behind.saturating_add(PAGES_IN_PART))?;
    let first = stamp_of(shape, place.at)?;
    Stamp::of(first.units() - 1)
}

// Where a page begins at the earliest whose first element stands at a stamp or behind it.
fn number_from(shape: &Shape<'_>, stamp: Stamp) -> i64 {
    match shape {
        Shape::Irregular => stamp.units(),
        Shape::Regular(grid) => grid.offset_from(stamp).min(i64::MAX as u64) as i64,
    }
}

// The stamp of what a page begins with, if it is one.
fn stamp_of(shape: &Shape<'_>, at: i64) -> Option<Stamp> {
    match shape {
        Shape::Irregular => Stamp::of(at),
        Shape::Regular(grid) if at >= 0 => grid.stamp_of(at as u64),
        Shape::Regular(_) => None,
    }
}

// Says the rows of a part of the range behind those that were said, so many, and tells how many they are together; those
// beyond the most rows of a reply are counted alone.
fn say_part<P: Pages>(
    alloc: Global,
    pages: &mut P,
    page: &mut Page,
    pair: &Pair<'_>,
    from: Stamp,
    to: Stamp,
    count: u64,
    out: &mut Reply,
) -> Result<u64, StoreFault>
    requires pair { CanBeJoined pair.now (P.contents pages.old) }
    ensures said { IfOk result (λ all. AreTold P.tells pair.now (P.contents pages.old)
        (λ es fs. IsPartSaid pair.now es fs from to count out.old all out.new)) }
    ensures call { Reads P.tells result (P.contents pages.old) (P.contents pages.new) }
    ensures undisturbed { P.undisturbed pages.old pages.new }
{
    let (shelf, shape) = pair.first;
    let low = first_needed(shape, from);
    let ones = elements_in(alloc, pages, page, pair.space, shelf, shape, low, to)?;
    let (shelf, shape) = pair.second;
    let low = first_needed(shape, from);
    let others = elements_in(alloc, pages, page, pair.space, shelf, shape, low, to)?;
    // What the law says, it says of stamps in range.
    let _units = from.units();
    elements_outside_play_no_part();
    let all = say_kept(alloc, pair, &ones, &others, from, to, count, out)?;
    Ok(all)
}

// The same by these elements of each.
fn say_kept(
    alloc: Global,
    pair: &Pair<'_>,
    ones: &KeptElements,
    others: &KeptElements,
    from: Stamp,
    to: Stamp,
    count: u64,
    out: &mut Reply,
) -> Result<u64, AllocError>
    requires first { IsThere pair.now.first.now.1 pair.now.first.now.0.series pair.now.defs.now.definitions }
    requires second { IsThere pair.now.second.now.1 pair.now.second.now.0.series pair.now.defs.now.definitions }
    requires grid { HaveGrid pair.now.first.now.1 pair.now.second.now.1 }
    ensures { IfOk result
        (λ all. AreOfSeries pair.now.first.now.1 pair.now.first.now.0.kind.now.columns ones.now
        → AreOfSeries pair.now.second.now.1 pair.now.second.now.0.kind.now.columns others.now
        → IsPartSaid pair.now ones.now others.now from to count out.old all out.new) }
{
    let one = side_of(pair.defs, &pair.first.0, &pair.first.1, ones);
    let other = side_of(pair.defs, &pair.second.0, &pair.second.1, others);
    match rows_of(alloc, pair.junction, &one, &other, from, to) {
        Ok(rows) => say_few(out, pair, &one, &other, &rows, count),
        Err(Trouble::Refused(why)) => Ok(count.saturating_add(rows_in(&why))),
        Err(Trouble::Memory(error)) => Err(error),
    }
}

// How many rows a refusal tells of.
fn rows_in(why: &Refusal) -> u64
    requires { IsTooLarge why.now }
    ensures { why.now ≡ TooLarge result }
{
    match why {
        Refusal::TooLarge { rows } => *rows,
        _ => unreachable!(),
    }
}

// Says rows behind so many, unless they are too many together.
fn say_few(
    out: &mut Reply,
    pair: &Pair<'_>,
    first: &Side,
    second: &Side,
    rows: &[Joined],
    count: u64,
) -> Result<u64, AllocError>
    requires first { first.now.columns ≡ length pair.now.first.now.0.kind.now.columns }
    requires second { second.now.columns ≡ length pair.now.second.now.0.kind.now.columns }
    ensures { IfOk result
        (λ all. AllFit pair.now.first.now.0.kind.now.columns (elements_in first.now.elems.now)
        → AllFit pair.now.second.now.0.kind.now.columns (elements_in second.now.elems.now)
        → AreAdded (columns_in pair.now) (map (joined_row (side_of first.now) (side_of second.now)) rows.now) count
        out.old all out.new) }
{
    let all = count.saturating_add(rows.len() as u64);
    if all > MOST_ROWS {
        return Ok(all);
    }
    let (shelf, _shape) = pair.first;
    let (other, _shape) = pair.second;
    say_rows(out, shelf.kind, other.kind, first, second, rows)?;
    Ok(all)
}
