// Patterns: their texts, their parts and their limits.
use std::alloc::{AllocError, Global};
use ts_base::{Bytes, Refusal, Trouble, Unit};
use ts_pattern::{Junction, Pattern, Run, WrittenPattern, factor, pattern_in, smaller_unit};
use ts_text::{Misfit, TokenKind, plain_front, read_sign, read_word, skip_blanks};

// The text is printed as this, or refused for this reason.
pub(crate) fn is_answer(found: &Result<Bytes, Trouble>, wanted: Result<&[u8], Refusal>) -> bool {
    match (found, wanted) {
        (Ok(text), Ok(wanted)) => text.as_slice() == wanted,
        (Err(Trouble::Refused(why)), Err(wanted)) => *why == wanted,
        _ => false,
    }
}

pub(crate) fn printed(alloc: Global, pattern: &Pattern) -> Result<Bytes, Trouble> {
    let mut text = Bytes::new(alloc);
    pattern.print(&mut text)?;
    Ok(text)
}

// The pattern of a text of at most 65536 bytes.
pub(crate) fn pattern(alloc: Global, text: &[u8]) -> Result<Pattern, Trouble> {
    Pattern::read(alloc, &text[..text.len().min(65_536)])
}

// What a text is read as, printed.
fn read(alloc: Global, text: &[u8]) -> Result<Bytes, Trouble> {
    let pattern = pattern(alloc, text)?;
    printed(alloc, &pattern)
}

// All other texts stand in examples/pattern_texts: no statement has a line end in a text.
#[test]
fn a_text_is_read_with_blanks_between_its_tokens_and_printed_merged(rt: HostRuntime) {
    let found = read(rt.alloc(), b" { 007 on ,\t2 off } ,\r\n year ");
    assert!(rt; is_answer(&found, Ok(b"{7 on,2 off},year")));
}

/// Texts, and the places where they are refused.
static BAD: [(&[u8], u32); 20] = [
    (b"", 0),
    (b"  ", 2),
    (b"x", 0),
    (b"{0 on},day", 1),
    (b"{000 on},day", 1),
    (b"{1234567890 on},day", 1),
    (b"{-1 on},day", 1),
    (b"{,1 on},day", 1),
    (b"{},day", 1),
    (b"{1 ON},day", 3),
    (b"{1 on2},day", 3),
    (b"{1 on", 5),
    (b"{1 on ", 6),
    (b"{1 on day", 6),
    (b"{1 on,},day", 6),
    (b"{1 on} day", 7),
    (b"{1 on},days", 7),
    (b"{1 on},day;", 10),
    (b"{7 on},day x", 11),
    (b"{527041 on},seconds", 12),
];

#[test]
fn a_bad_text_is_refused_at_its_place(rt: HostRuntime) {
    for (text, place) in &BAD {
        let why = Refusal::BadPattern { place: *place };
        assert!(rt; is_answer(&read(rt.alloc(), text), Err(why)));
    }
}

/// Texts of too many intervals, and how many.
static OVER: [(&[u8], u128); 2] = [
    (b"{527041 on},second", 527_041),
    (b"{999999999 on,999999999 on},day", 1_999_999_998),
];

// Whether a text of 512 runs is printed as it is, and one of 513 is refused.
fn has_512_runs_at_most(alloc: Global) -> Result<bool, AllocError> {
    let most = alternating_text(alloc, 512)?;
    let more = alternating_text(alloc, 513)?;
    let why = Refusal::PatternTooLong {
        length: 513,
        runs: 513,
    };
    Ok(
        is_answer(&read(alloc, most.as_slice()), Ok(most.as_slice()))
            && is_answer(&read(alloc, more.as_slice()), Err(why)),
    )
}

#[test]
fn a_text_over_a_limit_is_refused_with_its_numbers(rt: HostRuntime) {
    for (text, length) in &OVER {
        let why = Refusal::PatternTooLong {
            length: *length,
            runs: 0,
        };
        assert!(rt; is_answer(&read(rt.alloc(), text), Err(why)));
    }
    assert!(rt; matches!(has_512_runs_at_most(rt.alloc()), Ok(true)));
}

// So many runs of one interval, whose flags take turns.
fn alternating_text(alloc: Global, count: u32) -> Result<Bytes, AllocError> {
    let mut text = Bytes::from_slice(alloc, b"{1 on")?;
    for at in 1..count {
        text.extend_from_slice(if at % 2 == 0 { b",1 on" } else { b",1 off" })?;
    }
    text.extend_from_slice(b"},day")?;
    Ok(text)
}

// Runs of these counts, whose flags take turns, on first.
fn runs(alloc: Global, counts: &[u32]) -> Result<Vec<Run>, AllocError> {
    let mut runs = Vec::new(alloc);
    let mut on = true;
    for count in counts {
        runs.push(Run { on, count: *count })?;
        on = !on;
    }
    Ok(runs)
}

// So many runs of one interval, whose flags take turns.
fn alternating(alloc: Global, count: u32) -> Result<Vec<Run>, AllocError> {
    let mut runs = Vec::new(alloc);
    for at in 0..count {
        runs.push(Run {
            on: at % 2 == 0,
            count: 1,
        })?;
    }
    Ok(runs)
}

/// The counts of runs whose flags take turns, and whether they are a pattern's.
static COUNTS: [(&[u32], bool); 7] = [
    (&[], false),
    (&[1], true),
    (&[1, 0], false),
    (&[527_040], true),
    (&[527_041], false),
    (&[527_039, 1], true),
    (&[527_039, 2], false),
];

fn are_pattern(alloc: Global, counts: &[u32]) -> Result<bool, AllocError> {
    Ok(Pattern::of_runs(Unit::Day, runs(alloc, counts)?).is_some())
}

// Whether so many runs of one interval are a pattern's.
fn are_few(alloc: Global, count: u32) -> Result<bool, AllocError> {
    Ok(Pattern::of_runs(Unit::Day, alternating(alloc, count)?).is_some())
}

// Whether two runs of one flag are a pattern's.
fn are_two_of_one_flag(alloc: Global) -> Result<bool, AllocError> {
    let twice = [Run { on: true, count: 1 }; 2].to_vec(alloc)?;
    Ok(Pattern::of_runs(Unit::Day, twice).is_some())
}

#[test]
fn runs_within_the_limits_are_a_pattern(rt: HostRuntime) {
    for (counts, valid) in &COUNTS {
        assert!(rt; matches!(are_pattern(rt.alloc(), counts), Ok(found) if found == *valid));
    }
    assert!(rt; matches!(are_few(rt.alloc(), 512), Ok(true)));
    assert!(rt; matches!(are_few(rt.alloc(), 513), Ok(false)));
    assert!(rt; matches!(are_two_of_one_flag(rt.alloc()), Ok(false)));
}

// The flag of an interval of the first round.
fn flag(pattern: &Pattern, at: u32) -> Option<bool> {
    if at < pattern.length() {
        Some(pattern.on(at))
    } else {
        None
    }
}

// Whether the flags of the first round are those of five intervals between two that are off.
fn are_flags_of_a_week(week: &Pattern) -> bool {
    for at in 0..8u32 {
        let wanted = if at < 7 { Some(0 < at && at < 6) } else { None };
        if flag(week, at) != wanted {
            return false;
        }
    }
    true
}

fn tells_its_parts(alloc: Global) -> Result<bool, Trouble> {
    let week = pattern(alloc, b"{1 off,5 on,1 off},day")?;
    let is_told = week.unit() == Unit::Day && week.runs().len() == 3 && week.has_on();
    Ok(is_told && are_flags_of_a_week(&week))
}

fn has_on(alloc: Global, text: &[u8]) -> Result<bool, Trouble> {
    Ok(pattern(alloc, text)?.has_on())
}

#[test]
fn a_pattern_tells_its_parts(rt: HostRuntime) {
    assert!(rt; matches!(tells_its_parts(rt.alloc()), Ok(true)));
    assert!(rt; matches!(has_on(rt.alloc(), b"{7 off},day"), Ok(false)));
}

const TOKENS: &[u8] = b"\t pattern_1 ( {1 on},day )";

// What is left of them behind a pattern of days; none where they are none.
fn behind_pattern(alloc: Global) -> Option<&'static [u8]> {
    let rest = read_word(TOKENS, b"pattern_1").ok()?;
    if read_sign(rest, b')') != Err(Misfit::At { left: 14 }) {
        return None;
    }
    let (written, rest) = pattern_in(alloc, read_sign(rest, b'(').ok()?).ok()?;
    if written.unit == Unit::Day {
        Some(skip_blanks(rest))
    } else {
        None
    }
}

#[test]
fn tokens_stand_behind_blanks(rt: HostRuntime) {
    assert!(rt; read_word(TOKENS, b"pattern") == Err(Misfit::At { left: 24 }));
    assert!(rt; behind_pattern(rt.alloc()) == Some(b")".as_slice()));
    assert!(rt; plain_front(b"ab1 c") == Some((TokenKind::Word, 3)));
}

#[test]
fn larger_units_are_made_of_smaller_ones(rt: HostRuntime) {
    assert!(rt; factor(Unit::Week, Unit::Hour) == 168);
    assert!(rt; smaller_unit(Unit::Hour, Unit::Week) == Some(Unit::Hour));
    assert!(rt; smaller_unit(Unit::Year, Unit::Month) == Some(Unit::Month));
    assert!(rt; smaller_unit(Unit::Month, Unit::Week).is_none());
}

#[test]
fn the_types_may_go_to_other_threads() {
    goes_to_threads::<Pattern>();
    goes_to_threads::<Run>();
    goes_to_threads::<Junction>();
    goes_to_threads::<WrittenPattern>();
    goes_to_threads::<Misfit>();
}

fn goes_to_threads<T: Send + Sync>() {}
