// Grids: offsets, their stamps and the starts of a grid.
ghost use Rattle.std.specs.Prelude.{◌≡◌, IfSome};

use crate::laid::{
    ALL_DAYS, FIRST, FIRST_MONTHS, FIRST_SECONDS, JANUARY_1, JANUARY_2, JANUARY_3, JANUARY_4,
    JANUARY_6, JANUARY_7, JANUARY_8, JANUARY_10, LAST, LAST_DAY, LAST_SECOND, Laid, RARE_MINUTES,
    WORK, always, counter,
};
use std::alloc::Global;
use ts_base::Unit::{Day, Hour, Minute, Month, Second, Week, Year};
use ts_base::{Refusal, Stamp, Unit};
use ts_offset::{Counter, Grid, Shape, StartsFrom};

/// Each third month.
const QUARTERS: Laid = Laid {
    start: b"2012-01-28 00:00:00",
    unit: Month,
    on: true,
    counts: &[1, 2],
};

/// Each other year, up to 9998.
const LAST_YEARS: Laid = Laid {
    start: b"9998-01-01 00:00:00",
    unit: Year,
    on: true,
    counts: &[1, 1],
};

/// All years, each from its last day of February on.
const YEARS: Laid = Laid {
    start: b"2012-02-28 00:00:00",
    unit: Year,
    on: true,
    counts: &[1],
};

fn grid<'a>(counter: &'a Counter, origin: &[u8]) -> Option<Grid<'a>>
    ensures { IfSome result (λ g. g.calendar ≡ counter.now) }
{
    match Grid::make(counter, Stamp::read(origin)?) {
        Ok(grid) => Some(grid),
        Err(_) => None,
    }
}

// Whether a stamp is that of a text, or there is neither.
fn is_stamp(found: Option<Stamp>, text: Option<&[u8]>) -> bool {
    match (found, text) {
        (Some(stamp), Some(text)) => Stamp::read(text) == Some(stamp),
        (None, None) => true,
        _ => false,
    }
}

/// The offset of the last interval of a unit, where all are on from the first stamp on, and its start.
static LATEST: [(Unit, u64, &[u8]); 7] = [
    (Second, 315_537_897_599, LAST_SECOND),
    (Minute, 5_258_964_959, b"9999-12-31 23:59:00"),
    (Hour, 87_649_415, b"9999-12-31 23:00:00"),
    (Day, 3_652_058, LAST_DAY),
    (Week, 521_722, b"9999-12-27 00:00:00"),
    (Month, 119_987, b"9999-12-01 00:00:00"),
    (Year, 9_998, b"9999-01-01 00:00:00"),
];

fn is_last(alloc: Global, unit: Unit, last: u64, start: &[u8]) -> Option<bool> {
    let end = Stamp::read(LAST)?;
    let start = Stamp::read(start)?;
    let counter = counter(alloc, &always(unit, FIRST))?;
    let grid = grid(&counter, FIRST)?;
    Some(
        grid.offset_of(end) == Ok(last)
            && grid.stamp_of(last) == Some(start)
            && grid.stamp_of(last.saturating_add(1)).is_none(),
    )
}

#[test]
fn each_unit_is_counted_to_the_end_of_the_years(rt: HostRuntime) {
    for (unit, last, start) in &LATEST {
        assert!(rt; is_last(rt.alloc(), *unit, *last, start) == Some(true));
    }
}

/// An origin, and where it moves.
static ORIGINS: [(Laid, &[u8], Option<&[u8]>); 11] = [
    (WORK, JANUARY_3, Some(JANUARY_3)),
    (WORK, b"2011-01-04 10:00:00", Some(JANUARY_4)),
    (WORK, b"2011-01-08 10:00:00", Some(JANUARY_10)),
    (WORK, JANUARY_2, Some(JANUARY_3)),
    (WORK, FIRST, Some(JANUARY_3)),
    (WORK, LAST, Some(LAST_DAY)),
    (
        QUARTERS,
        b"2012-02-01 00:00:00",
        Some(b"2012-01-28 00:00:00"),
    ),
    (
        FIRST_MONTHS,
        b"0001-01-10 00:00:00",
        Some(b"0001-01-28 00:00:00"),
    ),
    (
        RARE_MINUTES,
        b"2011-01-01 00:01:00",
        Some(b"2012-01-02 00:00:00"),
    ),
    (
        LAST_YEARS,
        b"9998-06-01 00:00:00",
        Some(b"9998-01-01 00:00:00"),
    ),
    (LAST_YEARS, b"9999-06-01 00:00:00", None),
];

// The origin that a grid takes, if there is one.
fn moved(alloc: Global, laid: &Laid, origin: &[u8]) -> Option<Option<Stamp>> {
    let origin = Stamp::read(origin)?;
    let counter = counter(alloc, laid)?;
    match Grid::make(&counter, origin) {
        Ok(grid) => Some(Some(grid.origin())),
        Err(Refusal::PastEnd) => Some(None),
        Err(_) => None,
    }
}

fn moves(alloc: Global, laid: &Laid, origin: &[u8], start: Option<&[u8]>) -> bool {
    match moved(alloc, laid, origin) {
        Some(found) => is_stamp(found, start),
        None => false,
    }
}

#[test]
fn an_origin_moves_to_an_on_start(rt: HostRuntime) {
    for (laid, origin, start) in &ORIGINS {
        assert!(rt; moves(rt.alloc(), laid, origin, *start));
    }
}

const OFF: Result<u64, Refusal> = Err(Refusal::OffStamp);

const BEFORE: Result<u64, Refusal> = Err(Refusal::BeforeOrigin);

/// An origin, a stamp, and its offset.
static OFFSETS: [(Laid, &[u8], &[u8], Result<u64, Refusal>); 18] = [
    (WORK, JANUARY_3, JANUARY_8, OFF),
    (WORK, JANUARY_3, b"2011-01-09 23:59:59.99999", OFF),
    (WORK, JANUARY_3, b"2011-01-04 10:30:00", Ok(1)),
    (WORK, JANUARY_3, b"2011-01-04 23:59:59.99999", Ok(1)),
    (WORK, JANUARY_3, b"2011-01-02 12:00:00", OFF),
    (WORK, JANUARY_3, b"2010-12-29 12:00:00", OFF),
    (ALL_DAYS, JANUARY_3, b"2011-01-02 12:00:00", BEFORE),
    (ALL_DAYS, JANUARY_3, b"2011-01-01 12:00:00", OFF),
    (ALL_DAYS, JANUARY_3, JANUARY_3, Ok(0)),
    (
        QUARTERS,
        b"2012-02-01 00:00:00",
        b"2012-01-28 00:00:00",
        Ok(0),
    ),
    (
        QUARTERS,
        b"2012-02-01 00:00:00",
        b"2012-05-27 00:00:00",
        Ok(1),
    ),
    (
        QUARTERS,
        b"2012-02-01 00:00:00",
        b"2012-05-28 00:00:00",
        OFF,
    ),
    (
        FIRST_MONTHS,
        b"0001-01-10 00:00:00",
        b"0001-01-10 00:00:00",
        OFF,
    ),
    (YEARS, b"2012-02-28 00:00:00", LAST, Ok(7987)),
    (RARE_MINUTES, b"2011-01-01 00:01:00", JANUARY_1, BEFORE),
    (
        RARE_MINUTES,
        b"2011-01-01 00:01:00",
        b"2012-01-02 00:00:59.99999",
        Ok(0),
    ),
    (
        RARE_MINUTES,
        b"2011-01-01 00:01:00",
        b"2012-01-02 00:01:00",
        OFF,
    ),
    (FIRST_SECONDS, FIRST, LAST_SECOND, Ok(315_537_897_599)),
];

fn offset(alloc: Global, laid: &Laid, origin: &[u8], text: &[u8]) -> Option<Result<u64, Refusal>> {
    let stamp = Stamp::read(text)?;
    let counter = counter(alloc, laid)?;
    Some(grid(&counter, origin)?.offset_of(stamp))
}

#[test]
fn a_stamp_has_the_offset_of_its_interval(rt: HostRuntime) {
    for (laid, origin, text, wanted) in &OFFSETS {
        assert!(rt; offset(rt.alloc(), laid, origin, text) == Some(*wanted));
    }
}

/// An origin, an offset, and its stamp.
static STAMPS: [(Laid, &[u8], u64, Option<&[u8]>); 12] = [
    (
        QUARTERS,
        b"2012-02-01 00:00:00",
        3,
        Some(b"2012-10-28 00:00:00"),
    ),
    (
        YEARS,
        b"2012-02-28 00:00:00",
        7987,
        Some(b"9999-02-28 00:00:00"),
    ),
    (YEARS, b"2012-02-28 00:00:00", 7988, None),
    (
        LAST_YEARS,
        b"9998-06-01 00:00:00",
        0,
        Some(b"9998-01-01 00:00:00"),
    ),
    (LAST_YEARS, b"9998-06-01 00:00:00", 1, None),
    (FIRST_SECONDS, FIRST, 315_537_897_599, Some(LAST_SECOND)),
    (FIRST_SECONDS, FIRST, 315_537_897_600, None),
    (FIRST_SECONDS, FIRST, 4_611_686_018_427_387_903, None),
    (FIRST_SECONDS, FIRST, 4_611_686_018_427_387_904, None),
    (FIRST_SECONDS, FIRST, 4_611_686_018_427_387_905, None),
    (FIRST_SECONDS, FIRST, u64::MAX, None),
    (WORK, JANUARY_3, u64::MAX, None),
];

// Whether the offset has that stamp, and the starts from it on begin there.
fn begins(
    alloc: Global,
    laid: &Laid,
    origin: &[u8],
    offset: u64,
    start: Option<&[u8]>,
) -> Option<bool> {
    let counter = counter(alloc, laid)?;
    let grid = grid(&counter, origin)?;
    Some(is_stamp(grid.stamp_of(offset), start) && is_stamp(grid.starts_from(offset).next(), start))
}

#[test]
fn an_offset_has_a_stamp(rt: HostRuntime) {
    for (laid, origin, offset, start) in &STAMPS {
        assert!(rt; begins(rt.alloc(), laid, origin, *offset, *start) == Some(true));
    }
}

// Whether a grid from its origin on knows the offset of a stamp as the grid that moved there does.
fn stays(counter: &Counter, origin: &[u8], text: &[u8]) -> Option<bool> {
    let stamp = Stamp::read(text)?;
    let moved = grid(counter, origin)?;
    let same = Grid::at(counter, moved.origin());
    Some(same.origin() == moved.origin() && same.offset_of(stamp) == moved.offset_of(stamp))
}

fn stay(alloc: Global, laid: &Laid, origin: &[u8], text: &[u8]) -> Option<bool> {
    let counter = counter(alloc, laid)?;
    stays(&counter, origin, text)
}

#[test]
fn a_grid_from_an_on_start_on_is_the_one_that_moved_there(rt: HostRuntime) {
    for (laid, origin, text, _) in &OFFSETS {
        assert!(rt; stay(rt.alloc(), laid, origin, text) == Some(true));
    }
}

/// Starts of one grid, and their offsets.
static STARTS: [(u64, &[u8]); 8] = [
    (0, JANUARY_3),
    (1, JANUARY_4),
    (2, b"2011-01-05 00:00:00"),
    (3, JANUARY_6),
    (4, JANUARY_7),
    (5, JANUARY_10),
    (6, b"2011-01-11 00:00:00"),
    (2_084_229, LAST_DAY),
];

// Whether a grid knows the offset of a start, both ways.
fn is_start(grid: &Grid<'_>, offset: u64, text: &[u8]) -> Option<bool> {
    let start = Stamp::read(text)?;
    Some(
        grid.offset_of(start) == Ok(offset)
            && grid.stamp_of(offset) == Some(start)
            && grid.starts_from(offset).next() == Some(start),
    )
}

fn are_starts(alloc: Global) -> Option<bool> {
    let counter = counter(alloc, &WORK)?;
    let grid = grid(&counter, JANUARY_3)?;
    for (offset, text) in &STARTS {
        if !is_start(&grid, *offset, text)? {
            return Some(false);
        }
    }
    Some(true)
}

#[test]
fn the_starts_of_a_grid_follow_one_another(rt: HostRuntime) {
    assert!(rt; are_starts(rt.alloc()) == Some(true));
}

/// The starts from an offset on, and whether they end then.
static ONWARD: [(u64, &[&[u8]], bool); 2] = [
    (4, &[JANUARY_7, JANUARY_10, b"2011-01-11 00:00:00"], false),
    (2_084_229, &[LAST_DAY], true),
];

// Whether these come next.
fn come_next(starts: &mut StartsFrom, texts: &[&[u8]]) -> bool {
    for text in texts {
        if !is_stamp(starts.next(), Some(*text)) {
            return false;
        }
    }
    true
}

fn come(alloc: Global, offset: u64, texts: &[&[u8]], is_all: bool) -> Option<bool> {
    let counter = counter(alloc, &WORK)?;
    let grid = grid(&counter, JANUARY_3)?;
    let mut starts = grid.starts_from(offset);
    let come = come_next(&mut starts, texts);
    // An end stays one.
    Some(come && starts.next().is_none() == is_all && starts.next().is_none() == is_all)
}

#[test]
fn the_starts_of_a_grid_come_to_an_end(rt: HostRuntime) {
    for (offset, texts, is_all) in &ONWARD {
        assert!(rt; come(rt.alloc(), *offset, texts, *is_all) == Some(true));
    }
}

/// How many on starts come before a stamp.
static BEFORE_STAMPS: [(&[u8], u64); 6] = [
    (FIRST, 0),
    (JANUARY_3, 0),
    (b"2011-01-03 00:00:00.00001", 1),
    (b"2011-01-08 12:00:00", 5),
    (JANUARY_10, 5),
    (LAST, 2_084_230),
];

fn before(alloc: Global, text: &[u8]) -> Option<u64> {
    let stamp = Stamp::read(text)?;
    let counter = counter(alloc, &WORK)?;
    match Shape::Regular(grid(&counter, JANUARY_3)?) {
        Shape::Regular(grid) => Some(grid.offset_from(stamp)),
        Shape::Irregular => None,
    }
}

#[test]
fn on_starts_before_any_stamp_are_counted(rt: HostRuntime) {
    for (text, wanted) in &BEFORE_STAMPS {
        assert!(rt; before(rt.alloc(), text) == Some(*wanted));
    }
}

#[test]
fn the_types_may_go_to_other_threads() {
    goes_to_threads::<Counter>();
    goes_to_threads::<Grid>();
    goes_to_threads::<Shape>();
    goes_to_threads::<StartsFrom>();
}

fn goes_to_threads<T: Send + Sync>() {}
