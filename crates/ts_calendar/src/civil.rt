// The date of a stamp.
ghost use Rattle.std.specs.Prelude.{◌≡◌, ◌≤◌, ◌<◌, pos, negsuc};
ghost use Rattle.ts_base.specs.Moment.{IsStamp, day_of, civil_of, month_of};
ghost use Rattle.jiff_core.specs.Calendar.{IsBetween};

use jiff_core::civil::Date;
use ts_base::Stamp;

/// The units of a day.
pub(crate) const DAY: i64 = 8_640_000_000;

/// The number of units, which lies in the range of the stamps.
pub(crate) fn units_of(stamp: Stamp) -> i64
    ensures value { result ≡ stamp }
    ensures within { IsStamp stamp }
{
    stamp.units()
}

/// The day number.
pub(crate) fn day_number(stamp: Stamp) -> i64
    ensures value { result ≡ day_of stamp }
    ensures bounds { IsBetween (negsuc 719_161) (pos 2_932_896) result }
    ensures within { IsStamp stamp }
{
    units_of(stamp).div_euclid(DAY)
}

/// The year, the month and the day of a day number of the years 1 to 9999.
pub(crate) fn civil(day: i64) -> (u32, u32, u32)
    requires { IsBetween (negsuc 719_161) (pos 2_932_896) day }
    ensures civil { civil_of day ≡ record { year = result.0; month = result.1; day = result.2 } }
    ensures year { (1 ≤ result.0) × (result.0 ≤ 9999) }
    ensures month { (1 ≤ result.1) × (result.1 ≤ 12) }
    ensures day { (1 ≤ result.2) × (result.2 ≤ 31) }
{
    let Ok(date) = Date::from_unix_epoch_day(day) else {
        unreachable!()
    };
    (date.year as u32, date.month as u32, date.day as u32)
}

/// The number of the stamp's month, counted from January of the year 0.
pub(crate) fn month_number(stamp: Stamp) -> i64
    ensures value { result ≡ month_of (civil_of (day_of stamp)) }
    ensures bounds { IsBetween (pos 12) (pos 119_999) result }
    ensures within { IsStamp stamp }
{
    let (year, month, _) = civil(day_number(stamp));
    (year * 12 + (month - 1)) as i64
}
