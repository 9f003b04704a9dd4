// Patterns that are joined or brought to a smaller unit.
use crate::patterns::{is_answer, pattern, printed};
use std::alloc::Global;
use ts_base::{Bytes, Refusal, Trouble, Unit};
use ts_pattern::Junction;

// Two patterns joined, printed.
fn joined(alloc: Global, junction: Junction, left: &[u8], right: &[u8]) -> Result<Bytes, Trouble> {
    let left = pattern(alloc, left)?;
    let right = pattern(alloc, right)?;
    let pattern = match junction {
        Junction::And => left.and_op(&right)?,
        Junction::Or => left.or_op(&right)?,
    };
    printed(alloc, &pattern)
}

/// Two patterns, and why they make none.
static REFUSED: [(Junction, &[u8], &[u8], Refusal); 8] = [
    (
        Junction::And,
        TURNS,
        b"{527039 on},second",
        Refusal::PatternTooLong {
            length: 1_054_078,
            runs: 0,
        },
    ),
    (
        Junction::And,
        TURNS,
        b"{527040 on},second",
        Refusal::PatternTooLong {
            length: 527_040,
            runs: 527_040,
        },
    ),
    (
        Junction::And,
        TURNS,
        b"{1 off,513 on},second",
        Refusal::PatternTooLong {
            length: 514,
            runs: 513,
        },
    ),
    (
        Junction::And,
        TURNS,
        b"{514 on},second",
        Refusal::PatternTooLong {
            length: 514,
            runs: 514,
        },
    ),
    (
        Junction::And,
        b"{1 on},week",
        b"{1 on},second",
        Refusal::PatternTooLong {
            length: 604_800,
            runs: 0,
        },
    ),
    (
        Junction::And,
        b"{1 on},day",
        b"{1 on},month",
        Refusal::UnitMismatch,
    ),
    (
        Junction::And,
        b"{1 on},month",
        b"{1 on},day",
        Refusal::UnitMismatch,
    ),
    (
        Junction::Or,
        b"{1 on},month",
        b"{1 on},day",
        Refusal::UnitMismatch,
    ),
];

#[test]
fn a_join_is_refused_with_its_numbers(rt: HostRuntime) {
    for (junction, left, right, wanted) in &REFUSED {
        let found = joined(rt.alloc(), *junction, left, right);
        assert!(rt; is_answer(&found, Err(*wanted)));
    }
    assert!(rt; runs_of_turns(rt.alloc(), b"{512 on},second") == Some(512));
}

// One second on, one off.
const TURNS: &[u8] = b"{1 on,1 off},second";

// How many runs the AND with these has.
fn runs_of_turns(alloc: Global, other: &[u8]) -> Option<usize> {
    let turns = pattern(alloc, TURNS).ok()?;
    let other = pattern(alloc, other).ok()?;
    Some(turns.and_op(&other).ok()?.runs().len())
}

// The AND of two patterns, each of them shifted, printed.
fn shifted(
    alloc: Global,
    left: &[u8],
    shift: i64,
    right: &[u8],
    right_shift: i64,
) -> Result<Bytes, Trouble> {
    let left = pattern(alloc, left)?;
    let right = pattern(alloc, right)?;
    let pattern = left.join_shifted(Junction::And, shift, &right, right_shift)?;
    printed(alloc, &pattern)
}

/// How many hours days that take turns are shifted, and what they make then.
static SHIFTS: [(i64, &[u8]); 5] = [
    (0, b"{24 on,24 off},hour"),
    (6, b"{18 on,24 off,6 on},hour"),
    (-6, b"{6 off,24 on,18 off},hour"),
    (-30, b"{6 on,24 off,18 on},hour"),
    (48_000_006, b"{18 on,24 off,6 on},hour"),
];

#[test]
fn a_shift_moves_a_pattern_against_the_other(rt: HostRuntime) {
    for (shift, wanted) in &SHIFTS {
        let found = shifted(rt.alloc(), b"{1 on,1 off},day", *shift, b"{48 on},hour", -7);
        assert!(rt; is_answer(&found, Ok(wanted)));
    }
}

// Whether a single run, shifted, and another pattern make this, whichever of them comes first.
fn goes_with(alloc: Global, single: &[u8], shift: i64, other: &[u8], wanted: &[u8]) -> bool {
    is_answer(&shifted(alloc, single, shift, other, 0), Ok(wanted))
        && is_answer(&shifted(alloc, other, 0, single, shift), Ok(wanted))
}

/// A single run, another pattern, and what they make.
static SINGLES: [(&[u8], &[u8], &[u8]); 4] = [
    (
        b"{1 on},second",
        b"{527040 on},second",
        b"{527040 on},second",
    ),
    (b"{5 on},second", b"{7 on},second", b"{35 on},second"),
    (
        b"{1 on},second",
        b"{2 on,4 off,3 on},second",
        b"{2 on,4 off,3 on},second",
    ),
    (
        b"{5 on},second",
        b"{2 on,4 off,3 on},second",
        b"{2 on,4 off,5 on,4 off,5 on,4 off,5 on,4 off,5 on,4 off,3 on},second",
    ),
];

#[test]
fn a_single_run_goes_with_the_runs_of_the_other(rt: HostRuntime) {
    for (single, other, wanted) in &SINGLES {
        for shift in &[0, 3, -7] {
            assert!(rt; goes_with(rt.alloc(), single, *shift, other, wanted));
        }
    }
}

// A pattern in a smaller unit, printed.
fn expanded(alloc: Global, text: &[u8], unit: Unit) -> Result<Bytes, Trouble> {
    let pattern = pattern(alloc, text)?.expand(unit)?;
    printed(alloc, &pattern)
}

/// A pattern, a unit, and what it is in that.
static EXPANDED: [(&[u8], Unit, Result<&[u8], Refusal>); 10] = [
    (WEEKS, Unit::Week, Ok(WEEKS)),
    (WEEKS, Unit::Day, Ok(b"{7 on,14 off},day")),
    (WEEKS, Unit::Hour, Ok(b"{168 on,336 off},hour")),
    (WEEKS, Unit::Minute, Ok(b"{10080 on,20160 off},minute")),
    (b"{1 on},week", Unit::Second, TOO_LONG),
    (b"{1 on},day", Unit::Week, Err(Refusal::UnitMismatch)),
    (b"{1 on},day", Unit::Month, Err(Refusal::UnitMismatch)),
    (b"{1 on},day", Unit::Year, Err(Refusal::UnitMismatch)),
    (b"{1 on},month", Unit::Day, Err(Refusal::UnitMismatch)),
    (b"{1 on},month", Unit::Year, Err(Refusal::UnitMismatch)),
];

#[test]
fn expanding_multiplies_the_counts(rt: HostRuntime) {
    for (text, unit, wanted) in &EXPANDED {
        let found = expanded(rt.alloc(), text, *unit);
        assert!(rt; is_answer(&found, *wanted));
    }
}

const TOO_LONG: Result<&[u8], Refusal> = Err(Refusal::PatternTooLong {
    length: 604_800,
    runs: 0,
});

const WEEKS: &[u8] = b"{1 on,2 off},week";
