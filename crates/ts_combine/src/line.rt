// The grid that two series have in common: intervals of one of their calendars, on or off.
ghost use Rattle.std.specs.Prelude.{◌≡◌, ◌≢◌, ◌⊎◌, ◌+ℤ◌, ◌-ℤ◌, ◌≤ℤ◌, pos, false, IsTrue, ◌↔◌, Some, Ok};
ghost use Rattle.std.specs.Int.{int_max};
ghost use Rattle.ts_base.specs.Moment.{IsStamp};
ghost use Rattle.ts_pattern.specs.Patterns.{smaller_unit};
ghost use Rattle.ts_calendar.specs.Calendars.{common_grid, IsNear, IsEarly, IsLaid, start_at};
ghost use Rattle.ts_calendar.specs.Line.{line_at};
ghost use Rattle.ts_offset.specs.Grid.{IsFirstFrom, IsOnStart, starts_between};
ghost use Rattle.ts_combine.specs.Combine.{every_start};
ghost use Rattle.ts_combine.specs.Line.{AreHeldFrom, AllExist, starts_up_to};

use ts_base::{Stamp, Unit};
use ts_calendar::{Calendar, CommonGrid};

/// The first interval that starts after a stamp.
pub(crate) fn first_after(calendar: &Calendar, stamp: Stamp) -> i64
    ensures first { IsFirstFrom calendar.now (stamp +ℤ pos 1) result }
    ensures line { line_at calendar.now.pattern.unit calendar.now.patt_start (result -ℤ pos 1) ≤ℤ stamp }
    ensures laid { IsLaid calendar.now }
    ensures stamp { IsStamp stamp }
{
    calendar.interval_around(stamp) + 1
}

/// The first interval that starts at a stamp or after it.
pub(crate) fn first_from(calendar: &Calendar, stamp: Stamp) -> i64
    ensures first { IsFirstFrom calendar.now stamp result }
    ensures line { stamp ≤ℤ line_at calendar.now.pattern.unit calendar.now.patt_start result }
    ensures laid { IsLaid calendar.now }
    ensures stamp { IsStamp stamp }
{
    let k = calendar.interval_around(stamp);
    if starts_at(calendar, k, stamp) {
        return k;
    }
    k + 1
}

// Whether an interval starts at this stamp.
fn starts_at(calendar: &Calendar, k: i64, stamp: Stamp) -> bool
    ensures { IsTrue result ↔ (start_at calendar.now k ≡ Some stamp) }
{
    match calendar.start_of(k) {
        Some(start) => start.units() == stamp.units(),
        None => false,
    }
}

/// The intervals of a line, before number `limit`, whose starts the interval of a calendar holds that starts at a
/// stamp: the first one, and the one behind the last.
pub(crate) fn held_from(
    calendar: &Calendar,
    line: &Calendar,
    limit: i64,
    stamp: Stamp,
) -> (i64, i64)
    ensures { IsOnStart calendar.now stamp → AreHeldFrom calendar.now line.now limit stamp result.0 result.1 }
{
    let low = first_from(line, stamp);
    match calendar.start_of(calendar.interval_around(stamp) + 1) {
        Some(end) => (low, first_from(line, end)),
        None => (low, limit),
    }
}

/// Intervals of a calendar, on or off, that exist: from number `low` up to, not including, number `limit`.
#[derive(Drop)]
pub(crate) struct Line<'a> {
    pub calendar: &'a Calendar,
    pub low: i64,
    pub limit: i64,
    ghost near: { IsNear low × IsNear limit },
    ghost exist: { AllExist calendar.now low limit },
}

/// Those whose starts are the ones of the grid that two calendars have in common, from one stamp to another, but for
/// those before the later calendar's start.
pub(crate) fn common_line<'a>(
    first: &'a Calendar,
    second: &'a Calendar,
    grid: CommonGrid,
    from: Stamp,
    to: Stamp,
) -> Line<'a>
    requires grid { common_grid first.now second.now ≡ Ok grid }
    requires early { IsEarly grid.unit first.now.patt_start }
    ensures { starts_up_to result.calendar.now result.low result.limit
        ≡ starts_between (every_start first.now second.now grid) from to }
{
    let calendar = finer(first, second, grid.unit);
    let start = later(from, later(start_of(first), second.start()));
    Line {
        calendar,
        low: first_from(calendar, start),
        limit: first_after(calendar, to),
    }
}

// The stamp before which no interval is on, of a calendar whose pattern begins with a stamp too.
fn start_of(calendar: &Calendar) -> Stamp
    ensures value { result ≡ calendar.now.start }
    ensures laid { IsLaid calendar.now }
{
    let _laid = calendar.patt_start();
    calendar.start()
}

// That of two calendars which has the smaller unit.
fn finer<'a>(first: &'a Calendar, second: &'a Calendar, unit: Unit) -> &'a Calendar
    requires { smaller_unit first.now.pattern.unit second.now.pattern.unit ≡ Some unit }
    ensures { ((result.now ≡ second.now) × (second.now.pattern.unit ≡ unit))
        ⊎ ((result.now ≡ first.now) × (first.now.pattern.unit ≡ unit)) }
{
    if is_same(second.pattern().unit(), unit) {
        second
    } else {
        first
    }
}

// Whether two units are one.
fn is_same(unit: Unit, other: Unit) -> bool
    ensures yes { IsTrue result → unit ≡ other }
    ensures no { result ≡ false → unit ≢ other }
{
    unit == other
}

// The later of two stamps.
fn later(a: Stamp, b: Stamp) -> Stamp
    ensures { result ≡ int_max a b }
{
    if a.units() > b.units() { a } else { b }
}
