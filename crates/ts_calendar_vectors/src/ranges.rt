// Counters: how many starts lie between two stamps, which one comes so many after one, and which lie in a range.
use crate::laid::{
    FIRST, FIRST_MONTHS, FIRST_SECONDS, JANUARY_1, JANUARY_2, JANUARY_3, JANUARY_4, JANUARY_6,
    JANUARY_7, JANUARY_8, JANUARY_10, JANUARY_14, LAST_DAY, LAST_SECOND, Laid, RARE_MINUTES, WORK,
    counter,
};
use std::alloc::Global;
use ts_base::Unit::{Day, Month, Second};
use ts_base::{Refusal, Stamp, Trouble};

/// Days whose last one goes on into the next round.
const DAYS: Laid = Laid {
    start: JANUARY_2,
    unit: Day,
    on: true,
    counts: &[2, 3, 1],
};

/// One second in 527040.
const RARE_SECONDS: Laid = Laid {
    start: FIRST,
    unit: Second,
    on: true,
    counts: &[1, 527_039],
};

/// All months, each from its 28th day on.
const MONTHS: Laid = Laid {
    start: b"2012-01-28 00:00:00",
    unit: Month,
    on: true,
    counts: &[1],
};

/// All seconds.
const SECONDS: Laid = Laid {
    start: JANUARY_3,
    unit: Second,
    on: true,
    counts: &[1],
};

/// Two stamps, and how many starts lie behind the first one up to the second one.
static INDEXES: [(Laid, &[u8], &[u8], i64); 17] = [
    (WORK, JANUARY_3, JANUARY_10, 5),
    (WORK, JANUARY_10, JANUARY_3, -5),
    (WORK, JANUARY_3, JANUARY_3, 0),
    (WORK, JANUARY_2, JANUARY_3, 1),
    (WORK, JANUARY_2, b"2011-01-02 23:59:59.99999", 0),
    (WORK, JANUARY_7, b"2011-01-09 12:00:00", 0),
    (WORK, b"2010-12-01 00:00:00", b"2011-01-04 10:00:00", 2),
    (WORK, b"2011-01-04 10:00:00", b"2010-12-01 00:00:00", -2),
    (WORK, JANUARY_3, LAST_DAY, 2_084_229),
    (MONTHS, b"2012-01-28 00:00:00", b"2012-03-28 00:00:00", 2),
    (
        MONTHS,
        b"2012-01-28 00:00:00",
        b"2012-03-27 23:59:59.99999",
        1,
    ),
    (
        FIRST_MONTHS,
        b"0001-01-10 00:00:00",
        b"0001-02-28 00:00:00",
        2,
    ),
    (RARE_MINUTES, JANUARY_1, b"2012-01-02 00:00:00", 1),
    (RARE_MINUTES, b"2012-01-02 00:00:00", JANUARY_1, -1),
    (RARE_SECONDS, FIRST, LAST_SECOND, 598_698),
    (FIRST_SECONDS, FIRST, LAST_SECOND, 315_537_897_599),
    (FIRST_SECONDS, LAST_SECOND, FIRST, -315_537_897_599),
];

fn index(alloc: Global, laid: &Laid, from: &[u8], to: &[u8]) -> Option<i64> {
    let from = Stamp::read(from)?;
    let to = Stamp::read(to)?;
    Some(counter(alloc, laid)?.cal_index(from, to))
}

#[test]
fn an_index_counts_the_starts_after_the_first_stamp(rt: HostRuntime) {
    for (laid, from, to, count) in &INDEXES {
        assert!(rt; index(rt.alloc(), laid, from, to) == Some(*count));
    }
}

// What a copy of a counter counts.
fn copied(alloc: Global, laid: &Laid, from: &[u8], to: &[u8]) -> Option<i64> {
    let from = Stamp::read(from)?;
    let to = Stamp::read(to)?;
    Some(counter(alloc, laid)?.copy().ok()?.cal_index(from, to))
}

#[test]
fn a_copy_counts_the_same(rt: HostRuntime) {
    for (laid, from, to, count) in &INDEXES {
        assert!(rt; copied(rt.alloc(), laid, from, to) == Some(*count));
    }
}

/// A stamp, a number, and the start that comes so many after it; none stands as an empty text.
static SOUGHT: [(Laid, &[u8], u32, &[u8]); 9] = [
    (WORK, b"2011-01-07 12:00:00", 1, JANUARY_10),
    (WORK, JANUARY_3, 1, JANUARY_4),
    (WORK, JANUARY_3, 5, JANUARY_10),
    (WORK, FIRST, 1, JANUARY_3),
    (WORK, b"9999-12-30 00:00:00", 1, LAST_DAY),
    (WORK, LAST_DAY, 1, b""),
    (MONTHS, b"2012-01-28 00:00:00", 13, b"2013-02-28 00:00:00"),
    (RARE_MINUTES, JANUARY_1, 1, b"2012-01-02 00:00:00"),
    (FIRST_SECONDS, FIRST, u32::MAX, b"0137-02-07 06:28:15"),
];

fn sought(alloc: Global, laid: &Laid, after: &[u8], n: u32) -> Option<Option<Stamp>> {
    // Starts are counted from 1.
    if n == 0 {
        return None;
    }
    let after = Stamp::read(after)?;
    Some(counter(alloc, laid)?.cal_stamp(after, n))
}

#[test]
fn a_stamp_is_sought_among_later_starts(rt: HostRuntime) {
    for (laid, after, n, start) in &SOUGHT {
        assert!(rt; sought(rt.alloc(), laid, after, *n) == Some(Stamp::read(start)));
    }
}

/// A range, and the starts in it.
static LISTED: [(Laid, &[u8], &[u8], &[&[u8]]); 3] = [
    (
        WORK,
        JANUARY_6,
        JANUARY_10,
        &[JANUARY_6, JANUARY_7, JANUARY_10],
    ),
    (
        DAYS,
        b"2000-01-01 00:00:00",
        JANUARY_14,
        &[
            JANUARY_2,
            JANUARY_3,
            JANUARY_7,
            JANUARY_8,
            b"2011-01-09 00:00:00",
            b"2011-01-13 00:00:00",
            JANUARY_14,
        ],
    ),
    (
        RARE_SECONDS,
        b"2000-01-01 00:00:00",
        b"2000-01-21 11:59:59",
        &[
            b"2000-01-03 04:48:00",
            b"2000-01-09 07:12:00",
            b"2000-01-15 09:36:00",
        ],
    ),
];

// The starts in a range, or why they aren't told.
fn listed(
    alloc: Global,
    laid: &Laid,
    from: &[u8],
    to: &[u8],
) -> Option<Result<Vec<Stamp>, Refusal>> {
    let from = Stamp::read(from)?;
    let to = Stamp::read(to)?;
    match counter(alloc, laid)?.cal_range(from, to) {
        Ok(listed) => Some(Ok(listed)),
        Err(Trouble::Refused(why)) => Some(Err(why)),
        Err(Trouble::Memory(_)) => None,
    }
}

// Whether these are the stamps of the texts.
fn are_stamps(found: &[Stamp], texts: &[&[u8]]) -> bool {
    for (stamp, text) in found.iter().zip(texts) {
        if Stamp::read(text) != Some(*stamp) {
            return false;
        }
    }
    found.len() == texts.len()
}

fn are_listed(alloc: Global, laid: &Laid, from: &[u8], to: &[u8], texts: &[&[u8]]) -> Option<bool> {
    let found = listed(alloc, laid, from, to)?.ok()?;
    Some(are_stamps(found.as_slice(), texts))
}

#[test]
fn a_range_lists_the_starts_of_both_ends_too(rt: HostRuntime) {
    for (laid, from, to, starts) in &LISTED {
        assert!(rt; are_listed(rt.alloc(), laid, from, to, starts) == Some(true));
    }
}

/// A range, and how many starts it has.
static COUNTED: [(Laid, &[u8], &[u8], Result<usize, Refusal>); 8] = [
    (WORK, b"2011-01-06 00:00:00.00001", JANUARY_10, Ok(2)),
    (WORK, JANUARY_6, b"2011-01-09 23:59:59.99999", Ok(2)),
    (WORK, JANUARY_8, b"2011-01-09 12:00:00", Ok(0)),
    (WORK, JANUARY_10, JANUARY_6, Ok(0)),
    (WORK, FIRST, JANUARY_3, Ok(1)),
    (RARE_SECONDS, FIRST, LAST_SECOND, Ok(598_699)),
    (SECONDS, JANUARY_3, b"2011-01-14 13:46:39", Ok(1_000_000)),
    (
        SECONDS,
        JANUARY_3,
        b"2011-01-14 13:46:40",
        Err(Refusal::TooLarge { rows: 1_000_001 }),
    ),
];

fn counted(alloc: Global, laid: &Laid, from: &[u8], to: &[u8]) -> Option<Result<usize, Refusal>> {
    match listed(alloc, laid, from, to)? {
        Ok(listed) => Some(Ok(listed.len())),
        Err(why) => Some(Err(why)),
    }
}

#[test]
fn a_range_has_as_many_starts_as_it_holds(rt: HostRuntime) {
    for (laid, from, to, count) in &COUNTED {
        assert!(rt; counted(rt.alloc(), laid, from, to) == Some(*count));
    }
}
