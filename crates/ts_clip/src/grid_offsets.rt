// The offsets of the entries of a regular series that are asked for.
ghost use Rattle.std.specs.Prelude.{◌≡◌, ◌≢◌, ◌<◌, ◌≤◌, ◌^◌, IsTrue, false, List, length};
ghost use Rattle.ts_calendar.specs.Calendars.{IsLaid};
ghost use Rattle.ts_regular_edits.specs.Range.{AreOffsetsOf, AreUpTo};
ghost use Rattle.ts_entry.specs.Entry.{Entry, clipped, counted};
ghost use Rattle.ts_clip.specs.Grid.{AreAtStarts, between};

use ts_base::Stamp;
use ts_offset::Grid;

/// Offsets from one up to, not including, another.
#[derive(Clone, Copy)]
pub(crate) struct Offsets {
    pub(crate) lower: u64,
    pub(crate) upper: u64,
    ghost order: { lower ≤ upper },
}

/// The offsets of the on starts from one stamp to another, both included.
pub(crate) fn offsets_of(grid: &Grid<'_>, from: Stamp, to: Stamp) -> Offsets
    ensures offsets { AreOffsetsOf grid.now from to result.lower result.upper }
    ensures limit { result.upper < 2 ^ 63 }
{
    let upper = offset_after(grid, to);
    let lower = grid.offset_from(from).min(upper);
    Offsets { lower, upper }
}

/// Those of the entries from one stamp to another, of so many.
pub(crate) fn offsets_between(grid: &Grid<'_>, from: Stamp, to: Stamp, count: u64) -> Offsets
    requires laid { IsLaid grid.now.calendar }
    ensures entries { (entries : List Entry) → AreAtStarts grid.now entries → length entries ≡ count
        → clipped from to entries ≡ between result.lower result.upper entries }
    ensures within { result.upper ≤ count }
{
    let all = offsets_of(grid, from, to);
    let upper = all.upper.min(count);
    let lower = all.lower.min(upper);
    Offsets { lower, upper }
}

/// Those of the first n entries from a stamp on, or, where n is negative, of the last -n up to it.
pub(crate) fn offsets_counted(grid: &Grid<'_>, stamp: Stamp, n: i64, count: u64) -> Offsets
    requires laid { IsLaid grid.now.calendar }
    requires few { count < 2 ^ 63 }
    ensures entries { (entries : List Entry) → AreAtStarts grid.now entries → length entries ≡ count
        → counted stamp n entries ≡ between result.lower result.upper entries }
    ensures within { result.upper ≤ count }
{
    let many = n.unsigned_abs();
    if n < 0 {
        let upper = offset_after(grid, stamp).min(count);
        let lower = upper.saturating_sub(many);
        return Offsets { lower, upper };
    }
    let lower = grid.offset_from(stamp).min(count);
    let upper = count.min(lower + many);
    Offsets { lower, upper }
}

// How many on starts there are from the origin up to a stamp, one at it included.
fn offset_after(grid: &Grid<'_>, stamp: Stamp) -> u64
    ensures after { AreUpTo grid.now stamp result }
    ensures few { result < 2 ^ 63 }
{
    let before = grid.offset_from(stamp);
    match grid.stamp_of(before) {
        Some(start) if is_same(start, stamp) => before + 1,
        _ => before,
    }
}

// Whether two stamps are one.
fn is_same(stamp: Stamp, other: Stamp) -> bool
    ensures yes { IsTrue result → stamp ≡ other }
    ensures no { result ≡ false → stamp ≢ other }
{
    stamp.units() == other.units()
}
