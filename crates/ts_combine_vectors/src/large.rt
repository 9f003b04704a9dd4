// Answers that have as many rows as a reply may have, and more; and what is needed of long series.
use crate::laid::{
    HOURS, JANUARY_2, JANUARY_3, JANUARY_4, JANUARY_8, JANUARY_9, LAST, SECONDS, Table, WEEKS,
    WORK, made,
};
use std::alloc::Global;
use ts_base::{Refusal, Stamp, Trouble};
use ts_combine::{first_needed, union};

/// Two weeks.
const FORTNIGHT: Table = Table {
    laid: Some(WEEKS),
    stamps: &[JANUARY_2, JANUARY_9],
};

/// Seconds without elements.
const EMPTY: Table = Table {
    laid: Some(SECONDS),
    stamps: &[],
};

/// The second up to which a union of the two has so many rows.
static ENDS: [(&[u8], Result<usize, Refusal>); 4] = [
    (b"2011-01-03 00:00:00", Ok(1)),
    (b"2011-01-14 13:46:39", Ok(1_000_000)),
    (
        b"2011-01-14 13:46:40",
        Err(Refusal::TooLarge { rows: 1_000_001 }),
    ),
    (LAST, Err(Refusal::TooLarge { rows: 1_123_200 })),
];

fn size(alloc: Global, to: &[u8]) -> Option<Result<usize, Refusal>> {
    let first = made(alloc, &FORTNIGHT)?;
    let second = made(alloc, &EMPTY)?;
    let from = Stamp::read(JANUARY_3)?;
    let to = Stamp::read(to)?;
    let (one, other) = (first.shape()?, second.shape()?);
    match union(alloc, &first.side(&one), &second.side(&other), from, to) {
        Ok(rows) => Some(Ok(rows.len())),
        Err(Trouble::Refused(why)) => Some(Err(why)),
        Err(Trouble::Memory(_)) => None,
    }
}

#[test]
fn a_million_rows_are_answered_and_more_are_counted(rt: HostRuntime) {
    for (to, wanted) in &ENDS {
        assert!(rt; size(rt.alloc(), to) == Some(*wanted), "to {to:?}");
    }
}

/// A series, a stamp, and from which one on its elements are needed.
static NEEDED: [(Table, &[u8], &[u8]); 5] = [
    (
        Table {
            laid: Some(WORK),
            stamps: &[],
        },
        b"2011-01-04 10:30:00",
        JANUARY_4,
    ),
    (
        Table {
            laid: Some(WORK),
            stamps: &[],
        },
        JANUARY_8,
        JANUARY_8,
    ),
    (
        Table {
            laid: Some(WORK),
            stamps: &[],
        },
        JANUARY_2,
        JANUARY_2,
    ),
    (
        Table {
            laid: Some(HOURS),
            stamps: &[],
        },
        b"2011-01-04 10:30:00",
        b"2011-01-04 10:00:00",
    ),
    (
        Table {
            laid: None,
            stamps: &[],
        },
        b"2011-01-04 10:30:00",
        b"2011-01-04 10:30:00",
    ),
];

fn needed(alloc: Global, table: &Table, from: &[u8]) -> Option<Stamp> {
    let kept = made(alloc, table)?;
    Some(first_needed(&kept.shape()?, Stamp::read(from)?))
}

#[test]
fn elements_are_needed_from_the_start_of_an_interval_on(rt: HostRuntime) {
    for (table, from, wanted) in &NEEDED {
        let wanted = Stamp::read(wanted);
        assert!(rt; wanted.is_some());
        assert!(rt; needed(rt.alloc(), table, from) == wanted);
    }
}
