// Which starts and patterns make a calendar.
ghost use Rattle.std.specs.Prelude.{◌≡◌};
ghost use Rattle.ts_calendar.specs.Calendars.{is_late, is_apart, IsEarly, starts_from};
ghost use Rattle.ts_base.specs.Moment.{IsStamp};

use crate::dated::Dated;
use crate::steps::start_in;
use ts_base::{Stamp, Unit};
use ts_pattern::Pattern;

/// The latest day that each month has.
const LAST_DAY: u32 = 28;

/// Whether some month doesn't have the day on which a pattern starts.
pub(crate) fn is_late(unit: Unit, first: Stamp) -> bool
    ensures { result ≡ is_late unit first }
{
    match unit {
        Unit::Month | Unit::Year => first.day_of_month() > LAST_DAY,
        Unit::Second | Unit::Minute | Unit::Hour | Unit::Day | Unit::Week => false,
    }
}

/// Whether the pattern start comes before the start, or a whole round of the pattern fits between the two.
pub(crate) fn is_apart(start: Stamp, patt_start: &Dated, pattern: &Pattern) -> bool
    requires { IsEarly pattern.now.unit patt_start.now }
    ensures value { result ≡ is_apart (record { start = start; patt_start = patt_start.now; pattern = pattern.now }) }
    ensures stamp { IsStamp patt_start.now }
{
    if patt_start.units() < start.units() {
        return true;
    }
    let before = -(pattern.length() as i64);
    starts_from(start_in(pattern.unit(), patt_start, before), start)
}

/// Whether a start is there and not before the stamp.
pub(crate) fn starts_from(from: Option<Stamp>, start: Stamp) -> bool
    ensures { result ≡ starts_from start from }
{
    match from {
        Some(from) => from.units() >= start.units(),
        None => false,
    }
}
