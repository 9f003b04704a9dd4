// Stamps with their month, so that they are moved by months without a date.
ghost use Rattle.std.specs.Prelude.{◌≡◌, ◌+◌, ◌≤◌, ◌<◌, ◌/◌, ◌%◌, ◌-ℤ◌, ◌*ℤ◌, ◌+ℤ◌, pos, IsSome, Some};
ghost use Rattle.jiff_core.specs.Calendar.{IsBetween, days_from_civil};
ghost use Rattle.ts_base.specs.Moment.{IsStamp, day_of, civil_of, month_of, months_after, day_of_month};

use crate::civil::{DAY, civil, day_number, units_of};
use std::marker::Model;
use ts_base::Stamp;

/// The units from 1 March of the year 0 to 1970.
const MARCH: i64 = 719_468 * DAY;

/// A stamp and its place in its month.
#[derive(Drop)]
pub(crate) struct Dated {
    stamp: Stamp,
    /// The month's number, counted from January of the year 0.
    month: i64,
    /// The units from the month's first moment to the stamp, less those from 1 March of the year 0 to 1970.
    within: i64,
}

impl Model for Dated {
    ghost use Rattle.std.specs.Prelude.{ℤ};
    ghost use Rattle.ts_calendar.specs.Dated.{IsInMonth};

    ghost Value = { ℤ };

    ghost view = { λ d. d.stamp };

    ghost invariant = { λ d. IsInMonth d.stamp d.month d.within };
}

impl Dated {
    /// This stamp.
    pub fn of(stamp: Stamp) -> Dated
        ensures { result ≡ stamp }
    {
        let (year, month, day) = civil(day_number(stamp));
        Dated {
            stamp,
            month: (year * 12 + (month - 1)) as i64,
            within: (day - 1) as i64 * DAY + units_of(stamp).rem_euclid(DAY) - MARCH,
        }
    }

    /// The same once more.
    pub fn copy(&self) -> Dated
        ensures { result ≡ self.now }
    {
        Dated {
            stamp: self.stamp,
            month: self.month,
            within: self.within,
        }
    }

    pub fn stamp(&self) -> Stamp
        ensures value { result ≡ self.now }
        ensures within { IsStamp self.now }
    {
        self.stamp
    }

    /// The number of units, which lies in the range of the stamps.
    pub fn units(&self) -> i64
        ensures value { result ≡ self.now }
        ensures within { IsStamp self.now }
    {
        self.stamp.units()
    }

    /// The number of the stamp's month, counted from January of the year 0.
    pub fn month_number(&self) -> i64
        ensures value { result ≡ month_of (civil_of (day_of self.now)) }
        ensures bounds { IsBetween (pos 12) (pos 119_999) result }
        ensures within { IsStamp self.now }
    {
        self.month
    }

    /// The stamp so many times some months later, on the same day of the month and at the same time of day.
    pub fn months_later(&self, times: i64, months: i64) -> Option<Stamp>
        requires { day_of_month self.now ≤ 28 }
        ensures { result ≡ months_after self.now (times *ℤ months) }
    {
        let month = self.month;
        let later = times.checked_mul(months)?;
        let month = month.checked_add(later)?;
        if month < 12 || month > 119_999 {
            return None;
        }
        Some(self.in_month(month))
    }

    /// The same, where that stamp exists.
    pub fn existing_months_later(&self, times: i64, months: i64) -> Stamp
        requires early { day_of_month self.now ≤ 28 }
        requires exists { IsSome (months_after self.now (times *ℤ months)) }
        ensures { months_after self.now (times *ℤ months) ≡ Some result }
    {
        let month = self.month;
        self.in_month(month + times * months)
    }

    // The stamp in a month of the years 1 to 9999, on the same day and at the same time of day.
    fn in_month(&self, month: i64) -> Stamp
        requires early { day_of_month self.now ≤ 28 }
        requires years { IsBetween (pos 12) (pos 119_999) month }
        ensures { months_after self.now (month -ℤ month_of (civil_of (day_of self.now))) ≡ Some result }
    {
        let units = first_day(month as u32) * DAY + self.within;
        let Some(stamp) = Stamp::of(units) else {
            unreachable!()
        };
        stamp
    }
}

// How many days lie between 1 March of the year 0 and the first day of a month. Years begin in March here, so that a
// leap day comes last.
fn first_day(month: u32) -> i64
    requires { (12 ≤ month) × (month < 120_000) }
    ensures value { result ≡ days_from_civil (pos (month / 12)) (month % 12 + 1) 1 +ℤ pos 719_468 }
    ensures bounds { IsBetween (pos 0) (pos 4_000_000) result }
{
    let march = month - 2;
    let year = march / 12;
    let century = year / 100;
    let of_years = 1461 * year / 4 - century + century / 4;
    let of_months = (979 * (march % 12) + 18) / 32;
    (of_years + of_months) as i64
}
