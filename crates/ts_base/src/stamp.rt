ghost use Rattle.std.specs.Prelude.{◌≡◌, ◌+◌, ◌-◌, ◌*◌, ◌/◌, ◌%◌, ◌^◌, ◌<◌, ◌≤◌, ◌↔◌, pos, ◌+ℤ◌, ◌*ℤ◌, ◌<ℤ◌, length};
ghost use Rattle.std.specs.Prelude.{drop, IsTrue, IsSome, IfSome, Some, negsuc, neg_ℤ};
ghost use Rattle.ts_base.specs.Moment.{IsStamp, stamp_if_any, Moment, stamp_at, day_of, clock_of, civil_of, read_stamp};
ghost use Rattle.ts_base.specs.Moment.{stamp_text, all_digits, number_of, has_stamp_form, has_stamp_length};
ghost use Rattle.ts_base.specs.Moment.{has_stamp_signs, has_stamp_digits, digit, text_of, day_of_month};
ghost use Rattle.jiff_core.specs.Calendar.{IsBetween, IsEpochDay, IsCivilDate, days_from_civil};

use crate::text::{fraction, fraction_text, has_form, number, write_parts};
use jiff_core::civil::Date;
use std::marker::Model;

/// The number of the least stamp.
const LEAST: i64 = -6_213_559_680_000_000;

/// The number of the greatest stamp.
const GREATEST: i64 = 25_340_230_079_999_999;

/// The units of a day.
pub(crate) const DAY: i64 = 8_640_000_000;

/// A time of the years 1 to 9999, in units of 10 microseconds since 1970-01-01 00:00:00.
#[derive(Clone, Copy, Debug, PartialEq, Eq, PartialOrd, Ord)]
pub struct Stamp {
    units: i64,
}

impl Model for Stamp {
    ghost use Rattle.std.specs.Prelude.{ℤ};
    ghost use Rattle.ts_base.specs.Moment.{IsStamp};

    ghost Value = { ℤ };

    ghost view = { λ s. s.units };

    ghost invariant = { λ s. IsStamp s.units };

    ghost inverse = { λ t. record { units = t } };
}

impl Stamp {
    /// The least stamp, 0001-01-01 00:00:00.00000.
    pub fn least() -> Stamp
        ensures { result ≡ neg_ℤ (pos 6_213_559_680_000_000) }
    {
        Stamp { units: LEAST }
    }

    /// The greatest stamp, 9999-12-31 23:59:59.99999.
    pub fn greatest() -> Stamp
        ensures { result ≡ pos 25_340_230_079_999_999 }
    {
        Stamp { units: GREATEST }
    }

    /// The stamp of this number of units, if it lies in the range.
    pub fn of(units: i64) -> Option<Stamp>
        ensures { result ≡ stamp_if_any units }
    {
        if units < LEAST || units > GREATEST {
            return None;
        }
        Some(Stamp { units })
    }

    /// The number of units since 1970.
    pub fn units(&self) -> i64
        ensures value { result ≡ self.now }
        ensures within { IsStamp result }
    {
        self.units
    }

    // The day number.
    pub(crate) fn day(&self) -> i64
        ensures value { result ≡ day_of self.now }
        ensures bounds { IsBetween (negsuc 719_161) (pos 2_932_896) result }
    {
        self.units.div_euclid(DAY)
    }

    // The units since midnight.
    pub(crate) fn clock(&self) -> u64
        ensures value { result ≡ clock_of self.now }
        ensures bound { result < 8_640_000_000 }
    {
        self.units.rem_euclid(DAY) as u64
    }

    // The stamp of a day number and the units since midnight.
    pub(crate) fn of_day(day: i64, clock: u64) -> Stamp
        requires day { IsBetween (negsuc 719_161) (pos 2_932_896) day }
        requires clock { clock < 8_640_000_000 }
        ensures { result ≡ day *ℤ pos 8_640_000_000 +ℤ pos clock }
    {
        Stamp {
            units: day * DAY + clock as i64,
        }
    }

    /// The day of the month.
    pub fn day_of_month(&self) -> u32
        ensures { result ≡ day_of_month self.now }
    {
        let (_, _, day) = civil(self.day());
        day
    }

    /// The stamp that a text names, if it names one.
    #[tactic(auto, using(crate::proofs::TextLemmas::form_facts), unfolding(crate::specs::Moment::read_stamp))]
    pub fn read(text: &[u8]) -> Option<Stamp>
        ensures { result ≡ read_stamp text.now }
    {
        if !has_form(text) {
            return None;
        }
        let year = number(&text[0..4]);
        let month = number(&text[5..7]);
        let day = number(&text[8..10]);
        let hour = number(&text[11..13]);
        let minute = number(&text[14..16]);
        let second = number(&text[17..19]);
        let fraction = fraction(fraction_text(text));
        at(year, month, day, hour, minute, second, fraction)
    }

    /// Writes the text of the stamp.
    pub fn write_into(&self, into: &mut [u8; 25])
        ensures text { into.new ≡ stamp_text self.now }
        ensures read_again { read_stamp into.new ≡ Some self.now }
    {
        let clock = self.units.rem_euclid(DAY) as u64;
        let (year, month, day) = civil(self.units.div_euclid(DAY));
        write_parts(year, month, day, clock, into);
    }
}

// The stamp of a moment, if the calendar has it.
fn at(
    year: u32,
    month: u32,
    day: u32,
    hour: u32,
    minute: u32,
    second: u32,
    fraction: u32,
) -> Option<Stamp>
    requires small { (year < 10_000) × (month < 100) × (day < 100) × (fraction < 100_000) }
    ensures { result
        ≡ stamp_at (record {
          year = year;
          month = month;
          day = day;
          hour = hour;
          minute = minute;
          second =
              second;
          fraction = fraction;
        }) }
{
    if year < 1 || hour > 23 || minute > 59 || second > 59 {
        return None;
    }
    let Ok(day) = Date::new(year as i16, month as i8, day as i8) else {
        return None;
    };
    let clock = ((hour * 60 + minute) * 60 + second) as i64 * 100_000 + fraction as i64;
    let units = day.to_unix_epoch_day() as i64 * DAY + clock;
    Some(Stamp { units })
}

// The year, the month and the day of a day number of the years 1 to 9999.
fn civil(day: i64) -> (u32, u32, u32)
    requires { IsBetween (negsuc 719_161) (pos 2_932_896) day }
    ensures civil { civil_of day ≡ record { year = result.0; month = result.1; day = result.2 } }
    ensures valid { IsCivilDate (pos result.0) result.1 result.2 }
    ensures year { 1 ≤ result.0 }
    ensures number { days_from_civil (pos result.0) result.1 result.2 ≡ day }
{
    let Ok(date) = Date::from_unix_epoch_day(day) else {
        unreachable!()
    };
    (date.year as u32, date.month as u32, date.day as u32)
}
