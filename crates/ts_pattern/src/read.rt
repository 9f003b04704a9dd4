// Reading the text of a pattern.
ghost use Rattle.std.specs.Prelude.{◌≡◌, ◌+◌, ◌^◌, ◌<◌, ◌≤◌, Ok, IfOk, IfErr, IfSome, OnOk, [], length, IsTrue};
ghost use Rattle.ts_text.specs.Misfit.{Refuses, RefusesExactly};
ghost use Rattle.ts_text.specs.Phrase.{ended, repeated, onto};
ghost use Rattle.ts_text.specs.declared.token.TokenKind.TheVariants.{Number};
ghost use Rattle.ts_pattern.specs.Patterns.{are_counts, count_as};
ghost use Rattle.ts_pattern.specs.Patterns;

use crate::Run;
use std::alloc::Global;
use ts_base::Unit;
use ts_text::{
    Misfit, TokenKind, are_digits, behind_sign, number, plain_front, read_end, read_sign,
    skip_blanks,
};

fn flag_of_word(word: &[u8]) -> Option<bool>
    ensures { result ≡ Patterns.flag_of_word word.now }
{
    if word == b"on".as_slice() {
        return Some(true);
    }
    if word == b"off".as_slice() {
        Some(false)
    } else {
        None
    }
}

fn unit_of_word(word: &[u8]) -> Option<Unit>
    ensures { result ≡ Patterns.unit_of_word word.now }
{
    if word == b"second".as_slice() {
        return Some(Unit::Second);
    }
    if word == b"minute".as_slice() {
        return Some(Unit::Minute);
    }
    if word == b"hour".as_slice() {
        return Some(Unit::Hour);
    }
    if word == b"day".as_slice() {
        return Some(Unit::Day);
    }
    if word == b"week".as_slice() {
        return Some(Unit::Week);
    }
    if word == b"month".as_slice() {
        return Some(Unit::Month);
    }
    if word == b"year".as_slice() {
        Some(Unit::Year)
    } else {
        None
    }
}

// On or off.
#[tactic(auto, unfolding(crate::specs::Patterns::flag_in))]
fn flag_in(text: &[u8]) -> Result<(bool, &[u8]), Misfit>
    ensures ok { IfOk result (λ x. Patterns.flag_in text.now ≡ Ok (x.0, x.1.now)) }
    ensures cause { IfErr result (λ misfit. RefusesExactly misfit (Patterns.flag_in text.now)) }
    ensures shorter { IfOk result (λ x. length x.1.now ≤ length text.now) }
{
    let here = skip_blanks(text);
    if let Some((TokenKind::Word, length)) = plain_front(here) {
        let (word, rest) = here.split_at(length);
        if let Some(on) = flag_of_word(word) {
            return Ok((on, rest));
        }
    }
    Err(Misfit::here(here))
}

#[tactic(auto, unfolding(crate::specs::Patterns::unit_in))]
fn unit_in(text: &[u8]) -> Result<(Unit, &[u8]), Misfit>
    ensures ok { IfOk result (λ x. Patterns.unit_in text.now ≡ Ok (x.0, x.1.now)) }
    ensures cause { IfErr result (λ misfit. RefusesExactly misfit (Patterns.unit_in text.now)) }
{
    let here = skip_blanks(text);
    if let Some((TokenKind::Word, length)) = plain_front(here) {
        let (word, rest) = here.split_at(length);
        if let Some(unit) = unit_of_word(word) {
            return Ok((unit, rest));
        }
    }
    Err(Misfit::here(here))
}

// A number of 1 to 9 digits that isn't 0.
#[tactic(auto, unfolding(crate::specs::Patterns::count_in))]
fn count_in(text: &[u8]) -> Result<(u32, &[u8]), Misfit>
    ensures ok { IfOk result (λ x. Patterns.count_in text.now ≡ Ok (x.0, x.1.now)) }
    ensures cause { IfErr result (λ misfit. RefusesExactly misfit (Patterns.count_in text.now)) }
    ensures shorter { IfOk result (λ x. length x.1.now ≤ length text.now) }
    ensures range { IfOk result (λ x. (0 < x.0) × (x.0 < 10 ^ 9)) }
{
    let here = skip_blanks(text);
    if let Some((TokenKind::Number, length)) = plain_front(here) {
        let (digits, rest) = here.split_at(length);
        if let Some(count) = count_of(digits) {
            return Ok((count, rest));
        }
    }
    Err(Misfit::here(here))
}

// The count that digits write.
fn count_of(digits: &[u8]) -> Option<u32>
    ensures value { result ≡ count_as Number digits.now }
    ensures range { IfSome result (λ count. (0 < count) × (count < 10 ^ 9)) }
{
    if digits.len() < 1 || digits.len() > 9 || !are_digits(digits) {
        return None;
    }
    let count = number(digits);
    if count > 0 { Some(count) } else { None }
}

// A count and a flag.
#[tactic(auto, unfolding(crate::specs::Patterns::run_in))]
fn run_in(text: &[u8]) -> Result<(Run, &[u8]), Misfit>
    ensures ok { IfOk result (λ x. Patterns.run_in text.now ≡ Ok (x.0, x.1.now)) }
    ensures cause { IfErr result (λ misfit. RefusesExactly misfit (Patterns.run_in text.now)) }
    ensures shorter { IfOk result (λ x. length x.1.now ≤ length text.now) }
    ensures range { IfOk result (λ x. (0 < x.0.count) × (x.0.count < 10 ^ 9)) }
{
    let (count, rest) = count_in(text)?;
    let (on, rest) = flag_in(rest)?;
    Ok((Run { on, count }, rest))
}

// Further runs, as many as commas stand there.
fn read_runs<'a>(runs: &mut Vec<Run>, text: &'a [u8]) -> Result<&'a [u8], Misfit>
    requires { IsTrue (are_counts runs.old.items) }
    ensures ok { IfOk result (λ rest. onto runs.old.items (repeated Patterns.run_in text.now)
        ≡ Ok (runs.new.items, rest.now)) }
    ensures cause { IfErr result (λ misfit. Refuses misfit (repeated Patterns.run_in text.now)) }
    ensures counts { OnOk result (IsTrue (are_counts runs.new.items)) }
    ensures few { IfOk result
        (λ rest. length runs.new.items + length rest.now ≤ length runs.old.items + length text.now) }
    ensures some { length runs.old.items ≤ length runs.new.items }
{
    let mut rest = text;
    while let Some(behind) = behind_sign(rest, b',') {
        let (run, more) = run_in(behind)?;
        runs.push(run)?;
        rest = more;
    }
    Ok(rest)
}

// Runs with a comma between any two of them, in braces.
#[tactic(auto, unfolding(crate::specs::Patterns::runs_in))]
fn runs_in(alloc: Global, text: &[u8]) -> Result<(Vec<Run>, &[u8]), Misfit>
    ensures ok { IfOk result (λ x. Patterns.runs_in text.now ≡ Ok (x.0.items, x.1.now)) }
    ensures cause { IfErr result (λ misfit. Refuses misfit (Patterns.runs_in text.now)) }
    ensures some { IfOk result (λ x. 0 < length x.0.items) }
    ensures few { IfOk result (λ x. length x.0.items ≤ length text.now) }
    ensures counts { IfOk result (λ x. IsTrue (are_counts x.0.items)) }
{
    let (first, rest) = run_in(read_sign(text, b'{')?)?;
    let mut runs = Vec::new(alloc);
    runs.push(first)?;
    let rest = read_runs(&mut runs, rest)?;
    Ok((runs, read_sign(rest, b'}')?))
}

/// A pattern as it is written: a unit, and runs that need not be merged nor within the limits.
#[derive(Drop)]
pub struct WrittenPattern {
    pub unit: Unit,
    pub runs: Vec<Run>,
    ghost some: { 0 < length runs.items },
    ghost few: { length runs.items < 2 ^ 32 },
    ghost counts: { IsTrue (are_counts runs.items) },
}

/// The pattern at the front of a text, and the text behind it.
#[tactic(auto, unfolding(crate::specs::Patterns::pattern_in))]
pub fn pattern_in(alloc: Global, text: &[u8]) -> Result<(WrittenPattern, &[u8]), Misfit>
    requires { length text.now < 2 ^ 32 }
    ensures ok { IfOk result (λ x. Patterns.pattern_in text.now
        ≡ Ok (record { unit = x.0.unit; runs = x.0.runs.items }, x.1.now)) }
    ensures cause { IfErr result (λ misfit. Refuses misfit (Patterns.pattern_in text.now)) }
{
    let (runs, rest) = runs_in(alloc, text)?;
    let (unit, rest) = unit_in(read_sign(rest, b',')?)?;
    Ok((WrittenPattern { unit, runs }, rest))
}

/// The pattern that a text writes.
pub(crate) fn written_pattern(alloc: Global, text: &[u8]) -> Result<WrittenPattern, Misfit>
    requires { length text.now < 2 ^ 32 }
    ensures ok { IfOk result (λ x. ended [] Patterns.pattern_in text.now
        ≡ Ok (record { unit = x.unit; runs = x.runs.items }, [])) }
    ensures cause { IfErr result (λ misfit. Refuses misfit (ended [] Patterns.pattern_in text.now)) }
{
    let (written, rest) = pattern_in(alloc, text)?;
    read_end(rest, &[])?;
    Ok(written)
}
