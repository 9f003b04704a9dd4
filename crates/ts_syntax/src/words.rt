// Words on a mistake, for who reads them: what stands at its place, and what could. No clause speaks of them.
ghost use Rattle.std.specs.Prelude.{◌≤◌, length};

use std::alloc::{AllocError, Global};
use ts_base::Bytes;
use ts_text::TokenKind;
use ts_tokens::front;

/// The most bytes that are shown of what stands there.
const SHOWN: usize = 40;

/// What stands at a place of a statement, and what could stand there.
pub(crate) fn describe(alloc: Global, before: &[u8], here: &[u8]) -> Result<Bytes, AllocError> {
    let mut words = Bytes::new(alloc);
    if here.is_empty() {
        words.extend_from_slice(b"the statement breaks off here")?;
    } else {
        words.push(b'`')?;
        words.extend_from_slice(shown(here))?;
        words.extend_from_slice(b"` can't stand here")?;
    }
    words.extend_from_slice(b"; ")?;
    words.extend_from_slice(advice(before, here).as_bytes())?;
    Ok(words)
}

// The token that stands in front, or else one byte; not more than are shown.
fn shown(here: &[u8]) -> &[u8] {
    let size = match front(here) {
        Some((_, size)) => size,
        None => 1,
    };
    &here[..size.min(SHOWN).min(here.len())]
}

// What could stand there.
fn advice(before: &[u8], here: &[u8]) -> &'static str {
    if stands_alone(before) {
        return "Begin, Commit and Rollback stand alone, and a `;` ends them";
    }
    match front(here) {
        Some((TokenKind::Word, size)) => advice_on_word(before, &here[..size]),
        Some((TokenKind::Text, _)) => advice_on_text(here),
        Some((TokenKind::Number, _)) => {
            "a number stands only where one is asked for, within its range, a key and a stamp in single quotes"
        }
        Some((TokenKind::Sign, _)) => {
            "an argument is missing here, or one is too many, or is out of its form"
        }
        None => advice_on_byte(here),
    }
}

// Whether the statement begins with a routine that takes no brackets.
fn stands_alone(before: &[u8]) -> bool {
    before.starts_with(b"Begin") || before.starts_with(b"Commit") || before.starts_with(b"Rollback")
}

fn advice_on_word(before: &[u8], word: &[u8]) -> &'static str {
    let Some(last) = before.iter().rev().find(|byte| !byte.is_ascii_whitespace()) else {
        return "no routine has this name; capitals count, as in InsElem";
    };
    if *last == b')' {
        return "the `;` of the statement before it is missing";
    }
    if *last == b'\'' {
        return "a text ends before it: write a quote within a text twice, and a comma between arguments";
    }
    if word.eq_ignore_ascii_case(b"null") {
        return "null is written in small letters, and stands for a value";
    }
    if before.starts_with(b"CreateRowType") {
        return "the first column is of the type datetime, the others are smallint, integer, bigint, decimal(P,S) or varchar(N)";
    }
    "a key, a text and a stamp stand in single quotes; a name has 1 to 32 bytes"
}

fn advice_on_text(here: &[u8]) -> &'static str {
    match here {
        [_, b'0'..=b'9', ..] => {
            "a stamp is 'YYYY-MM-DD HH:MM:SS', perhaps with a point and 1 to 5 digits; a name and a number stand without quotes"
        }
        _ => {
            "a stamp is 'YYYY-MM-DD HH:MM:SS', a key has 1 to 64 bytes, and a name stands without quotes"
        }
    }
}

fn advice_on_byte(here: &[u8]) -> &'static str {
    match here {
        [] => "a `;` ends a statement, and a bracket its arguments",
        [b';', ..] => "an argument or the `)` is missing",
        [b'\'', ..] => {
            "this quote opens a text that isn't closed before the statement breaks off, or that has a control byte in it"
        }
        [b'"', ..] => "a key, a text and a stamp stand in single quotes",
        [b'#' | b'/' | b'-', ..] => "scripts have no comments; a number is -1 or 1.5",
        [b'+' | b'.', ..] =>
            "a number is written as -1 or 1.5, with a digit before the point and no `+`",
        [0xef, 0xbb, 0xbf, ..] => "the script begins with a byte order mark; take it off",
        _ => "no word, number, text or sign begins so",
    }
}
