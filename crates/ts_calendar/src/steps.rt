// Intervals of one unit, counted from a stamp on.
ghost use Rattle.std.specs.Prelude.{◌≡◌, ◌+◌, ◌*◌, ◌≤◌, ◌<◌, pos, negsuc, ℤ, ◌+ℤ◌, ◌*ℤ◌, ◌≤ℤ◌, IsTrue, IsSome, IfSome};
ghost use Rattle.std.specs.Prelude.{IfNone, Some};
ghost use Rattle.std.specs.Int.{int_div_euclid};
ghost use Rattle.ts_pattern.specs.Patterns.{size, is_monthly};
ghost use Rattle.ts_calendar.specs.Calendars.{steps_between, first_step, starts_at, IsNear, IsEarly, start_in};
ghost use Rattle.ts_base.specs.Moment.{stamp_if_any, IsStamp, months_after, day_of_month};
ghost use Rattle.ts_calendar.specs.Line.{IsLineAround, comes_after};
ghost use Rattle.ts_base.specs.declared.unit.Unit.TheVariants.{Month, Year};

use crate::civil::{DAY, month_number, units_of};
use crate::dated::Dated;
use ts_base::{Stamp, Unit};

/// The units of each clock unit, in hundred thousandths of a second.
const SECOND: i64 = 100_000;

const MINUTE: i64 = 6_000_000;

const HOUR: i64 = 360_000_000;

const WEEK: i64 = 60_480_000_000;

/// The start of interval k, where interval 0 starts at `first`, if it lies in the years 1 to 9999.
pub(crate) fn start_in(unit: Unit, first: &Dated, k: i64) -> Option<Stamp>
    requires { IsEarly unit first.now }
    ensures { result ≡ start_in unit first.now k }
{
    match unit {
        Unit::Second => start_after(first.stamp(), k, SECOND),
        Unit::Minute => start_after(first.stamp(), k, MINUTE),
        Unit::Hour => start_after(first.stamp(), k, HOUR),
        Unit::Day => start_after(first.stamp(), k, DAY),
        Unit::Week => start_after(first.stamp(), k, WEEK),
        Unit::Month => first.months_later(k, 1),
        Unit::Year => first.months_later(k, 12),
    }
}

/// The start of interval k, where it exists.
pub(crate) fn existing_start(unit: Unit, first: &Dated, k: i64) -> Stamp
    requires early { IsEarly unit first.now }
    requires exists { IsSome (start_in unit first.now k) }
    ensures { start_in unit first.now k ≡ Some result }
{
    match unit {
        Unit::Second => existing_after(first, k, SECOND),
        Unit::Minute => existing_after(first, k, MINUTE),
        Unit::Hour => existing_after(first, k, HOUR),
        Unit::Day => existing_after(first, k, DAY),
        Unit::Week => existing_after(first, k, WEEK),
        Unit::Month => first.existing_months_later(k, 1),
        Unit::Year => first.existing_months_later(k, 12),
    }
}

fn existing_after(first: &Dated, k: i64, units: i64) -> Stamp
    requires { IsSome (stamp_if_any (first.now +ℤ k *ℤ units)) }
    ensures { stamp_if_any (first.now +ℤ k *ℤ units) ≡ Some result }
{
    let Some(stamp) = Stamp::of(first.units() + k * units) else {
        unreachable!()
    };
    stamp
}

fn start_after(first: Stamp, k: i64, units: i64) -> Option<Stamp>
    ensures { result ≡ stamp_if_any (first +ℤ k *ℤ units) }
{
    let offset = k.checked_mul(units)?;
    let units = first.units().checked_add(offset)?;
    Stamp::of(units)
}

/// The interval that begins at or before a stamp and ends after it, be it beyond the years.
pub(crate) fn interval_around(unit: Unit, first: &Dated, stamp: Stamp) -> i64
    requires { IsEarly unit first.now }
    ensures around { IsLineAround unit first.now stamp result }
    ensures stamps { IsStamp first.now × IsStamp stamp }
    ensures near { IsNear result × IsNear (result +ℤ pos 1) }
{
    let units = units_of(stamp) - first.units();
    match unit {
        Unit::Second => units.div_euclid(SECOND),
        Unit::Minute => units.div_euclid(MINUTE),
        Unit::Hour => units.div_euclid(HOUR),
        Unit::Day => units.div_euclid(DAY),
        Unit::Week => units.div_euclid(WEEK),
        Unit::Month => month_around(first, stamp),
        Unit::Year => year_around(first, stamp),
    }
}

fn month_around(first: &Dated, stamp: Stamp) -> i64
    requires { day_of_month first.now ≤ 28 }
    ensures around { IsLineAround Month first.now stamp result }
    ensures near { IsNear result × IsNear (result +ℤ pos 1) }
{
    let k = month_number(stamp) - first.month_number();
    if is_after(start_in(Unit::Month, first, k), stamp) {
        return k - 1;
    }
    k
}

fn year_around(first: &Dated, stamp: Stamp) -> i64
    requires { day_of_month first.now ≤ 28 }
    ensures around { IsLineAround Year first.now stamp result }
    ensures near { IsNear result × IsNear (result +ℤ pos 1) }
{
    let k = (month_number(stamp) - first.month_number()).div_euclid(12);
    if is_after(start_in(Unit::Year, first, k), stamp) {
        return k - 1;
    }
    k
}

// Whether a start is there and comes after the stamp.
fn is_after(start: Option<Stamp>, stamp: Stamp) -> bool
    ensures { result ≡ comes_after stamp start }
{
    match start {
        Some(start) => start.units() > stamp.units(),
        None => false,
    }
}

/// How many intervals lead from one stamp to another, if a whole number does.
pub(crate) fn steps_between(unit: Unit, from: &Dated, to: Stamp) -> Option<i64>
    requires { IsEarly unit from.now }
    ensures value { result ≡ steps_between unit from.now to }
    ensures stamps { IsStamp from.now × IsStamp to }
    ensures near { IfSome result IsNear }
{
    let k = interval_around(unit, from, to);
    if starts_at(start_in(unit, from, k), to) {
        Some(k)
    } else {
        None
    }
}

/// The first interval from `from` on that isn't before a stamp, if it exists.
pub(crate) fn first_step(unit: Unit, from: &Dated, start: Stamp) -> Option<i64>
    requires { IsEarly unit from.now }
    ensures value { result ≡ first_step unit from.now start }
    ensures near { IfSome result IsNear }
{
    let k = interval_around(unit, from, start);
    if starts_at(start_in(unit, from, k), start) {
        return Some(k);
    }
    if start_in(unit, from, k + 1).is_some() {
        Some(k + 1)
    } else {
        None
    }
}

// Whether a start is this stamp.
fn starts_at(start: Option<Stamp>, stamp: Stamp) -> bool
    ensures { result ≡ starts_at stamp start }
{
    match start {
        Some(start) => start.units() >= stamp.units() && stamp.units() >= start.units(),
        None => false,
    }
}
