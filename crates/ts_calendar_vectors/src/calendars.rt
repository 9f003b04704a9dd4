// Where intervals start, which one holds a stamp, and which are on.
use crate::laid::{
    FIRST, JANUARY_2, JANUARY_3, JANUARY_8, JANUARY_10, LAST, LAST_DAY, LAST_SECOND, Laid, WORK,
    always, calendar, pattern,
};
use std::alloc::Global;
use ts_base::Unit::{Day, Hour, Minute, Month, Second, Week, Year};
use ts_base::{Refusal, Stamp, Unit};
use ts_calendar::{Calendar, CalendarText, CommonGrid, PatternPart};

const BAD: Option<Refusal> = Some(Refusal::BadCalendar { place: 0 });

/// The start of a calendar and of its pattern, of 7 intervals that are all on or all off; and why it is refused.
static RULES: [(&[u8], &[u8], Unit, bool, Option<Refusal>); 9] = [
    (JANUARY_2, JANUARY_2, Day, true, None),
    (JANUARY_2, JANUARY_8, Day, true, None),
    (JANUARY_2, b"2011-01-09 00:00:00", Day, true, BAD),
    (JANUARY_2, JANUARY_10, Day, true, BAD),
    (JANUARY_2, b"2011-01-01 23:59:59", Day, true, BAD),
    (JANUARY_2, b"2012-01-28 00:00:00", Year, true, None),
    (JANUARY_2, b"2012-01-29 00:00:00", Year, true, BAD),
    (JANUARY_2, b"2011-01-29 00:00:00", Month, true, BAD),
    (JANUARY_2, JANUARY_2, Day, false, Some(Refusal::AllOff)),
];

// Whether a calendar has these parts.
fn has_parts(calendar: &Calendar, start: Stamp, patt_start: Stamp) -> bool {
    calendar.start() == start
        && calendar.patt_start() == patt_start
        && calendar.pattern().length() == 7
}

// Why a calendar is refused; none where its parts aren't those that it was made of.
fn refused(
    alloc: Global,
    start: &[u8],
    patt_start: &[u8],
    unit: Unit,
    on: bool,
) -> Option<Option<Refusal>> {
    let start = Stamp::read(start)?;
    let patt_start = Stamp::read(patt_start)?;
    match Calendar::make(start, patt_start, pattern(alloc, unit, on, &[7])?) {
        Ok(made) if has_parts(&made, start, patt_start) => Some(None),
        Ok(_) => None,
        Err(why) => Some(Some(why)),
    }
}

#[test]
fn a_calendar_that_breaks_a_rule_is_refused(rt: HostRuntime) {
    for (start, patt_start, unit, on, why) in &RULES {
        assert!(rt; refused(rt.alloc(), start, patt_start, *unit, *on) == Some(*why));
    }
}

/// A unit, the start of interval 0, a number, and the start of the interval of that number.
static STARTS: [(Unit, &'static [u8], i64, &[u8]); 12] = [
    (Second, JANUARY_2, -1, b"2011-01-01 23:59:59"),
    (Minute, b"2011-01-02 00:00:30", 2, b"2011-01-02 00:02:30"),
    (Hour, b"2011-01-02 00:30:00", 25, b"2011-01-03 01:30:00"),
    (Day, b"2012-02-28 12:00:00", 2, b"2012-03-01 12:00:00"),
    (Week, JANUARY_2, -1, b"2010-12-26 00:00:00"),
    (Month, b"2012-01-28 10:00:00", 1, b"2012-02-28 10:00:00"),
    (Month, b"2012-01-28 10:00:00", -1, b"2011-12-28 10:00:00"),
    (Month, b"2012-01-28 10:00:00", -13, b"2010-12-28 10:00:00"),
    (Month, FIRST, 119_987, b"9999-12-01 00:00:00"),
    (Year, b"2012-02-28 10:00:00", 1, b"2013-02-28 10:00:00"),
    (Year, b"2012-02-28 10:00:00", -2011, b"0001-02-28 10:00:00"),
    (Year, b"2012-02-28 10:00:00", 7987, b"9999-02-28 10:00:00"),
];

// Whether the interval of this number starts there.
fn starts(
    alloc: Global,
    unit: Unit,
    first: &'static [u8],
    number: i64,
    start: &[u8],
) -> Option<bool> {
    let start = Stamp::read(start)?;
    let made = calendar(alloc, &always(unit, first))?.copy().ok()?;
    Some(made.start_of(number) == Some(start) && made.interval_of(start) == Some(number))
}

#[test]
fn intervals_move_with_their_unit(rt: HostRuntime) {
    for (unit, first, number, start) in &STARTS {
        assert!(rt; starts(rt.alloc(), *unit, first, *number, start) == Some(true));
    }
}

/// The start of the last interval of a unit.
static LATEST: [(Unit, &'static [u8]); 7] = [
    (Second, LAST_SECOND),
    (Minute, b"9999-12-31 23:59:00"),
    (Hour, b"9999-12-31 23:00:00"),
    (Day, LAST_DAY),
    (Week, b"9999-12-25 00:00:00"),
    (Month, b"9999-12-28 00:00:00"),
    (Year, b"9999-02-28 00:00:00"),
];

// Whether the interval that starts there is the last one.
fn is_last(alloc: Global, unit: Unit, start: &'static [u8]) -> Option<bool> {
    let first = Stamp::read(start)?;
    let last = Stamp::read(LAST)?;
    let made = calendar(alloc, &always(unit, start))?;
    Some(
        made.start_of(0) == Some(first)
            && made.start_of(1).is_none()
            && made.start_of(i64::MAX).is_none()
            && made.interval_of(last) == Some(0),
    )
}

// Whether the interval that starts with the first stamp is the first one.
fn is_first(alloc: Global, unit: Unit) -> Option<bool> {
    let first = Stamp::read(FIRST)?;
    let made = calendar(alloc, &always(unit, FIRST))?;
    Some(
        made.start_of(-1).is_none()
            && made.start_of(i64::MIN).is_none()
            && made.interval_of(first) == Some(0),
    )
}

#[test]
fn no_interval_starts_outside_the_years(rt: HostRuntime) {
    for (unit, start) in &LATEST {
        assert!(rt; is_last(rt.alloc(), *unit, start) == Some(true));
        assert!(rt; is_first(rt.alloc(), *unit) == Some(true));
    }
}

/// A unit, the start of interval 0, a stamp, and the number of the interval that holds it.
static HELD: [(Unit, &'static [u8], &[u8], Option<i64>); 15] = [
    (
        Day,
        b"2011-01-02 06:00:00",
        b"2011-01-03 05:59:59.99999",
        Some(0),
    ),
    (
        Day,
        b"2011-01-02 06:00:00",
        b"2011-01-02 05:59:59.99999",
        Some(-1),
    ),
    (
        Month,
        b"2012-01-28 00:00:00",
        b"2012-02-27 23:59:59.99999",
        Some(0),
    ),
    (
        Month,
        b"2012-01-28 00:00:00",
        b"2012-02-28 00:00:00",
        Some(1),
    ),
    (
        Month,
        b"2012-01-28 00:00:00",
        b"2011-12-27 00:00:00",
        Some(-2),
    ),
    (
        Year,
        b"2012-02-28 12:00:00",
        b"2013-02-28 11:59:59.99999",
        Some(0),
    ),
    (
        Year,
        b"2012-02-28 12:00:00",
        b"2013-02-28 12:00:00",
        Some(1),
    ),
    (
        Year,
        b"2012-02-28 12:00:00",
        b"2011-02-01 00:00:00",
        Some(-2),
    ),
    (Second, EARLY, HELD_EARLY, Some(-86_342)),
    (Minute, EARLY, HELD_EARLY, Some(-1440)),
    (Hour, EARLY, HELD_EARLY, Some(-24)),
    (Day, EARLY, HELD_EARLY, Some(-1)),
    (Week, EARLY, HELD_EARLY, None),
    (Month, EARLY, HELD_EARLY, None),
    (Year, EARLY, HELD_EARLY, None),
];

const EARLY: &[u8] = b"0001-01-02 00:00:01";

const HELD_EARLY: &[u8] = b"0001-01-01 00:00:59";

fn holding(alloc: Global, unit: Unit, first: &'static [u8], held: &[u8]) -> Option<Option<i64>> {
    let held = Stamp::read(held)?;
    Some(calendar(alloc, &always(unit, first))?.interval_of(held))
}

#[test]
fn an_interval_holds_the_stamps_up_to_the_next(rt: HostRuntime) {
    for (unit, first, held, number) in &HELD {
        assert!(rt; holding(rt.alloc(), *unit, first, held) == Some(*number));
    }
}

/// Months that take turns.
const MONTHS: Laid = Laid {
    start: b"2012-01-28 00:00:00",
    unit: Month,
    on: true,
    counts: &[1, 1],
};

/// Whether stamps are on.
static ON: [(Laid, &[u8], bool); 10] = [
    (WORK, b"2011-01-02 12:00:00", false),
    (WORK, JANUARY_3, true),
    (WORK, b"2011-01-07 23:59:59.99999", true),
    (WORK, JANUARY_8, false),
    (WORK, b"2011-01-10 10:00:00", true),
    (WORK, b"2010-12-31 10:00:00", false),
    (MONTHS, b"2012-02-27 00:00:00", true),
    (MONTHS, b"2012-02-28 00:00:00", false),
    (MONTHS, b"2012-04-01 00:00:00", true),
    (MONTHS, b"2012-01-27 00:00:00", false),
];

fn is_on(alloc: Global, laid: &Laid, text: &[u8]) -> Option<bool> {
    let stamp = Stamp::read(text)?;
    Some(calendar(alloc, laid)?.on(stamp))
}

#[test]
fn on_follows_the_pattern_from_the_start(rt: HostRuntime) {
    for (laid, text, on) in &ON {
        assert!(rt; is_on(rt.alloc(), laid, text) == Some(*on));
    }
}

/// Two units and the starts of their intervals 0, and the grid that they have in common.
static GRIDS: [(
    Unit,
    &'static [u8],
    Unit,
    &'static [u8],
    Result<(Unit, i64), Refusal>,
); 6] = [
    (Day, JANUARY_2, Hour, b"2011-01-05 06:00:00", Ok((Hour, 78))),
    (
        Hour,
        b"2011-01-05 06:00:00",
        Day,
        JANUARY_2,
        Ok((Hour, -78)),
    ),
    (
        Year,
        JANUARY_10,
        Month,
        b"2012-03-10 00:00:00",
        Ok((Month, 14)),
    ),
    (Week, JANUARY_2, Week, b"2011-01-16 00:00:00", Ok((Week, 2))),
    (Week, JANUARY_2, Week, JANUARY_3, Err(Refusal::NotAligned)),
    (Day, JANUARY_2, Month, JANUARY_2, Err(Refusal::UnitMismatch)),
];

fn common_grid(alloc: Global, left: &Laid, right: &Laid) -> Option<Result<(Unit, i64), Refusal>> {
    let left = calendar(alloc, left)?;
    let right = calendar(alloc, right)?;
    match left.common_grid(&right) {
        Ok(grid) => Some(Ok((grid.unit, grid.steps))),
        Err(why) => Some(Err(why)),
    }
}

#[test]
fn two_calendars_have_a_grid_in_common(rt: HostRuntime) {
    for (left, first, right, second, wanted) in &GRIDS {
        let (left, right) = (always(*left, first), always(*right, second));
        assert!(rt; common_grid(rt.alloc(), &left, &right) == Some(*wanted));
    }
}

#[test]
fn the_types_may_go_to_other_threads() {
    goes_to_threads::<Calendar>();
    goes_to_threads::<CalendarText>();
    goes_to_threads::<CommonGrid>();
    goes_to_threads::<PatternPart>();
}

fn goes_to_threads<T: Send + Sync>() {}
