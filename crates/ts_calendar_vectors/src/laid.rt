// Calendars as a row of a table has them.
use std::alloc::Global;
use ts_base::{Stamp, Unit};
use ts_calendar::Calendar;
use ts_offset::Counter;
use ts_pattern::{Pattern, Run};

// 2011-01-03 is a Monday.
pub(crate) const JANUARY_1: &[u8] = b"2011-01-01 00:00:00";

pub(crate) const JANUARY_2: &[u8] = b"2011-01-02 00:00:00";

pub(crate) const JANUARY_3: &[u8] = b"2011-01-03 00:00:00";

pub(crate) const JANUARY_4: &[u8] = b"2011-01-04 00:00:00";

pub(crate) const JANUARY_6: &[u8] = b"2011-01-06 00:00:00";

pub(crate) const JANUARY_7: &[u8] = b"2011-01-07 00:00:00";

pub(crate) const JANUARY_8: &[u8] = b"2011-01-08 00:00:00";

pub(crate) const JANUARY_10: &[u8] = b"2011-01-10 00:00:00";

pub(crate) const JANUARY_14: &[u8] = b"2011-01-14 00:00:00";

pub(crate) const FIRST: &[u8] = b"0001-01-01 00:00:00";

pub(crate) const LAST_DAY: &[u8] = b"9999-12-31 00:00:00";

pub(crate) const LAST_SECOND: &[u8] = b"9999-12-31 23:59:59";

pub(crate) const LAST: &[u8] = b"9999-12-31 23:59:59.99999";

/// A calendar that starts with its pattern, whose runs of these counts take turns.
#[derive(Clone, Copy)]
pub(crate) struct Laid {
    pub(crate) start: &'static [u8],
    pub(crate) unit: Unit,
    pub(crate) on: bool,
    pub(crate) counts: &'static [u32],
}

/// Five days on from Monday 2011-01-03, two off.
pub(crate) const WORK: Laid = Laid {
    start: JANUARY_2,
    unit: Unit::Day,
    on: false,
    counts: &[1, 5, 1],
};

/// All days.
pub(crate) const ALL_DAYS: Laid = Laid {
    start: JANUARY_2,
    unit: Unit::Day,
    on: true,
    counts: &[1],
};

/// All months, each from its 28th day on, from the first year on.
pub(crate) const FIRST_MONTHS: Laid = Laid {
    start: b"0001-01-28 00:00:00",
    unit: Unit::Month,
    on: true,
    counts: &[1],
};

/// One minute in 527040.
pub(crate) const RARE_MINUTES: Laid = Laid {
    start: JANUARY_1,
    unit: Unit::Minute,
    on: true,
    counts: &[1, 527_039],
};

/// All seconds from the first one on.
pub(crate) const FIRST_SECONDS: Laid = Laid {
    start: FIRST,
    unit: Unit::Second,
    on: true,
    counts: &[1],
};

/// A calendar that is always on.
pub(crate) fn always(unit: Unit, start: &'static [u8]) -> Laid {
    Laid {
        start,
        unit,
        on: true,
        counts: &[1],
    }
}

// A pattern of runs of these counts, whose flags take turns.
pub(crate) fn pattern(alloc: Global, unit: Unit, first: bool, counts: &[u32]) -> Option<Pattern> {
    let mut runs = Vec::new(alloc);
    let mut on = first;
    for count in counts {
        runs.push(Run { on, count: *count }).ok()?;
        on = !on;
    }
    Pattern::of_runs(unit, runs)
}

pub(crate) fn calendar(alloc: Global, laid: &Laid) -> Option<Calendar> {
    let start = Stamp::read(laid.start)?;
    let pattern = pattern(alloc, laid.unit, laid.on, laid.counts)?;
    Calendar::make(start, start, pattern).ok()
}

pub(crate) fn counter(alloc: Global, laid: &Laid) -> Option<Counter> {
    Counter::make(alloc, calendar(alloc, laid)?).ok()
}
