// Calendars that are joined.
use crate::laid::{JANUARY_2, JANUARY_3, JANUARY_8, JANUARY_10, pattern};
use std::alloc::Global;
use ts_base::Unit::{Day, Hour, Month, Year};
use ts_base::{Bytes, Refusal, Stamp, Trouble, Unit};
use ts_calendar::{Calendar, CalendarText, PatternPart};
use ts_pattern::Junction;

/// A calendar, whose runs of these counts take turns from the start of its pattern on.
#[derive(Clone, Copy)]
struct Part {
    start: &'static [u8],
    patt_start: &'static [u8],
    unit: Unit,
    on: bool,
    counts: &'static [u32],
}

fn calendar(alloc: Global, part: &Part) -> Option<Calendar> {
    let start = Stamp::read(part.start)?;
    let patt_start = Stamp::read(part.patt_start)?;
    let pattern = pattern(alloc, part.unit, part.on, part.counts)?;
    Calendar::make(start, patt_start, pattern).ok()
}

// What two calendars joined make, or why they don't.
fn joined(
    alloc: Global,
    junction: Junction,
    left: &Part,
    right: &Part,
) -> Option<Result<Calendar, Refusal>> {
    let left = calendar(alloc, left)?;
    let right = calendar(alloc, right)?;
    let outcome = match junction {
        Junction::And => left.and_op(&right),
        Junction::Or => left.or_op(&right),
    };
    match outcome {
        Ok(both) => Some(Ok(both)),
        Err(Trouble::Refused(why)) => Some(Err(why)),
        Err(Trouble::Memory(_)) => None,
    }
}

// The text of a calendar with a pattern of its own.
fn text_of(alloc: Global, calendar: &Calendar) -> Option<Bytes> {
    let text = CalendarText {
        start: calendar.start(),
        patt_start: calendar.patt_start(),
        part: PatternPart::Own(calendar.pattern().copy().ok()?),
    };
    let mut out = Bytes::new(alloc);
    text.print(alloc, &mut out).ok()?;
    Some(out)
}

const WEEK: Part = Part {
    start: JANUARY_2,
    patt_start: JANUARY_2,
    unit: Day,
    on: false,
    counts: &[1, 5, 1],
};

const HOURS: Part = Part {
    start: b"2011-01-05 06:00:00",
    patt_start: b"2011-01-05 06:00:00",
    unit: Hour,
    on: true,
    counts: &[1],
};

const THIRDS: Part = Part {
    start: b"2012-03-10 00:00:00",
    patt_start: b"2012-03-10 00:00:00",
    unit: Month,
    on: true,
    counts: &[1, 2],
};

const YEARS: Part = Part {
    start: JANUARY_10,
    patt_start: JANUARY_10,
    unit: Year,
    on: true,
    counts: &[1, 1],
};

const DAYS: Part = Part {
    start: JANUARY_3,
    patt_start: JANUARY_3,
    unit: Day,
    on: true,
    counts: &[1],
};

const LATE: Part = Part {
    start: JANUARY_2,
    patt_start: JANUARY_8,
    unit: Day,
    on: true,
    counts: &[1, 6],
};

const EVEN: Part = Part {
    start: JANUARY_2,
    patt_start: JANUARY_2,
    unit: Day,
    on: true,
    counts: &[1, 1],
};

const ODD: Part = Part {
    start: JANUARY_2,
    patt_start: JANUARY_2,
    unit: Day,
    on: false,
    counts: &[1, 1],
};

/// Two calendars, and the text of what they make.
static MEETINGS: [(Junction, Part, Part, &[u8]); 5] = [
    (
        Junction::And,
        WEEK,
        HOURS,
        b"startdate(2011-01-05 06:00:00.00000), pattstart(2011-01-05 06:00:00.00000), pattern({66 on,48 off,54 on},hour)",
    ),
    (
        Junction::Or,
        WEEK,
        HOURS,
        b"startdate(2011-01-05 06:00:00.00000), pattstart(2011-01-05 06:00:00.00000), pattern({168 on},hour)",
    ),
    (
        Junction::And,
        YEARS,
        THIRDS,
        b"startdate(2012-03-10 00:00:00.00000), pattstart(2012-03-10 00:00:00.00000), pattern({12 off,1 on,2 off,1 on,2 off,1 on,2 off,1 on,2 off},month)",
    ),
    (
        Junction::And,
        LATE,
        DAYS,
        b"startdate(2011-01-03 00:00:00.00000), pattstart(2011-01-03 00:00:00.00000), pattern({5 off,1 on,1 off},day)",
    ),
    (
        Junction::Or,
        EVEN,
        ODD,
        b"startdate(2011-01-02 00:00:00.00000), pattstart(2011-01-02 00:00:00.00000), pattern({2 on},day)",
    ),
];

fn meet(alloc: Global, junction: Junction, left: &Part, right: &Part, text: &[u8]) -> Option<bool> {
    let both = joined(alloc, junction, left, right)?.ok()?;
    Some(text_of(alloc, &both)?.as_slice() == text)
}

#[test]
fn calendars_meet_in_the_smaller_unit(rt: HostRuntime) {
    for (junction, left, right, text) in &MEETINGS {
        assert!(rt; meet(rt.alloc(), *junction, left, right, text) == Some(true));
    }
}

const LONG: Part = Part {
    start: JANUARY_2,
    patt_start: JANUARY_2,
    unit: Day,
    on: true,
    counts: &[527_039],
};

const ALL_MONTHS: Part = Part {
    start: JANUARY_2,
    patt_start: JANUARY_2,
    unit: Month,
    on: true,
    counts: &[1],
};

const LATER_MONTHS: Part = Part {
    start: b"2011-03-03 00:00:00",
    patt_start: b"2011-03-03 00:00:00",
    unit: Month,
    on: true,
    counts: &[1],
};

const HALF_HOURS: Part = Part {
    start: b"2011-01-05 06:30:00",
    patt_start: b"2011-01-05 06:30:00",
    unit: Hour,
    on: true,
    counts: &[1],
};

const ALL_YEARS: Part = Part {
    start: b"2012-03-02 00:00:00",
    patt_start: b"2012-03-02 00:00:00",
    unit: Year,
    on: true,
    counts: &[1],
};

const OTHER_YEARS: Part = Part {
    start: b"2012-02-02 00:00:00",
    patt_start: b"2012-02-02 00:00:00",
    unit: Year,
    on: true,
    counts: &[1],
};

const TOO_LONG: Refusal = Refusal::PatternTooLong {
    length: 1_054_078,
    runs: 0,
};

/// Two calendars, and why they make none.
static REFUSED: [(Junction, Part, Part, Refusal); 6] = [
    (Junction::Or, EVEN, ALL_MONTHS, Refusal::UnitMismatch),
    (Junction::Or, HALF_HOURS, HOURS, Refusal::NotAligned),
    (Junction::Or, ALL_MONTHS, LATER_MONTHS, Refusal::NotAligned),
    (Junction::Or, ALL_YEARS, OTHER_YEARS, Refusal::NotAligned),
    (Junction::And, EVEN, ODD, Refusal::AllOff),
    (Junction::And, EVEN, LONG, TOO_LONG),
];

fn refused(alloc: Global, junction: Junction, left: &Part, right: &Part) -> Option<Refusal> {
    joined(alloc, junction, left, right)?.err()
}

#[test]
fn calendars_that_cannot_meet_are_refused(rt: HostRuntime) {
    for (junction, left, right, why) in &REFUSED {
        assert!(rt; refused(rt.alloc(), *junction, left, right) == Some(*why));
    }
}
