// The phrases of one token. Each is read from a place on, and gives what it says and the bytes behind it.
ghost use Rattle.std.specs.Prelude.{◌≡◌, ◌<◌, ◌≤◌, [], Ok, Err, IfOk, IfErr, IfSome, IfNone, length};
ghost use Rattle.ts_arguments.specs.Arguments.{a_name, a_key, a_stamp, a_text, a_literal, a_whole, a_small, a_word};
ghost use Rattle.ts_arguments.specs.Arguments.{a_type, a_joined, small_in, whole_in};
ghost use Rattle.ts_tokens.specs.Tokens.{units_of, scale_of};
ghost use Rattle.ts_text.specs.Phrase.{digit_count};
ghost use Rattle.ts_text.specs.Misfit.{Refuses, RefusesExactly};

use crate::word::{Joined, TypeName, are_same, joined_of, type_of};
use std::alloc::Global;
use ts_base::{Bytes, Key, Name, Stamp};
use ts_row::Literal;
use ts_text::{Misfit, TokenKind, are_digits, magnitude, skip_blanks};
use ts_tokens::{bytes_of, front, key_of, scale, stamp_of, units};

/// A name.
#[tactic(auto, unfolding(crate::specs::Arguments::a_name))]
pub(crate) fn read_name(alloc: Global, bytes: &[u8]) -> Result<(Name, &[u8]), Misfit>
    ensures ok { IfOk result (λ found. a_name bytes.now ≡ Ok (found.0, found.1.now)) }
    ensures cause { IfErr result (λ misfit. Refuses misfit (a_name bytes.now)) }
{
    let here = skip_blanks(bytes);
    if let Some((TokenKind::Word, length)) = front(here) {
        let (word, rest) = here.split_at(length);
        if let Some(name) = Name::read(alloc, word)? {
            return Ok((name, rest));
        }
    }
    Err(Misfit::here(here))
}

/// A key.
#[tactic(auto, unfolding(crate::specs::Arguments::a_key))]
pub(crate) fn read_key(alloc: Global, bytes: &[u8]) -> Result<(Key, &[u8]), Misfit>
    ensures ok { IfOk result (λ found. a_key bytes.now ≡ Ok (found.0, found.1.now)) }
    ensures cause { IfErr result (λ misfit. Refuses misfit (a_key bytes.now)) }
{
    let here = skip_blanks(bytes);
    if let Some((TokenKind::Text, length)) = front(here) {
        let (text, rest) = here.split_at(length);
        if let Some(key) = key_of(alloc, text)? {
            return Ok((key, rest));
        }
    }
    Err(Misfit::here(here))
}

/// A stamp.
#[tactic(auto, unfolding(crate::specs::Arguments::a_stamp))]
pub(crate) fn read_stamp(alloc: Global, bytes: &[u8]) -> Result<(Stamp, &[u8]), Misfit>
    ensures ok { IfOk result (λ found. a_stamp bytes.now ≡ Ok (found.0, found.1.now)) }
    ensures cause { IfErr result (λ misfit. Refuses misfit (a_stamp bytes.now)) }
{
    let here = skip_blanks(bytes);
    if let Some((TokenKind::Text, length)) = front(here) {
        let (text, rest) = here.split_at(length);
        if let Some(stamp) = stamp_of(alloc, text)? {
            return Ok((stamp, rest));
        }
    }
    Err(Misfit::here(here))
}

/// A text, as it is said.
#[tactic(auto, unfolding(crate::specs::Arguments::a_text))]
pub(crate) fn read_text(alloc: Global, bytes: &[u8]) -> Result<(Bytes, &[u8]), Misfit>
    ensures ok { IfOk result (λ found. a_text bytes.now ≡ Ok (found.0, found.1.now)) }
    ensures cause { IfErr result (λ misfit. Refuses misfit (a_text bytes.now)) }
{
    let here = skip_blanks(bytes);
    if let Some((TokenKind::Text, length)) = front(here) {
        let (text, rest) = here.split_at(length);
        return Ok((bytes_of(alloc, text)?, rest));
    }
    Err(Misfit::here(here))
}

/// A number of 1 to 3 digits, without sign and point.
#[tactic(auto, unfolding(crate::specs::Arguments::a_small))]
pub(crate) fn read_small(bytes: &[u8]) -> Result<(u16, &[u8]), Misfit>
    ensures ok { IfOk result (λ found. a_small bytes.now ≡ Ok (found.0, found.1.now)) }
    ensures cause { IfErr result (λ misfit. RefusesExactly misfit (a_small bytes.now)) }
{
    let here = skip_blanks(bytes);
    if let Some((TokenKind::Number, length)) = front(here) {
        let (number, rest) = here.split_at(length);
        if let Some(small) = small(number) {
            return Ok((small, rest));
        }
    }
    Err(Misfit::here(here))
}

fn small(token: &[u8]) -> Option<u16>
    ensures { result ≡ small_in TokenKind.Number token.now }
{
    if token.len() <= 3 && are_digits(token) {
        return Some(magnitude(token) as u16);
    }
    None
}

/// The bytes behind this word.
#[tactic(auto, unfolding(crate::specs::Arguments::a_word))]
pub(crate) fn read_word<'a>(bytes: &'a [u8], wanted: &[u8]) -> Result<&'a [u8], Misfit>
    ensures ok { IfOk result (λ rest. a_word wanted.now bytes.now ≡ Ok (tt, rest.now)) }
    ensures cause { IfErr result (λ misfit. RefusesExactly misfit (a_word wanted.now bytes.now)) }
{
    let here = skip_blanks(bytes);
    if let Some((TokenKind::Word, length)) = front(here) {
        let (word, rest) = here.split_at(length);
        if are_same(word, wanted) {
            return Ok(rest);
        }
    }
    Err(Misfit::here(here))
}

/// The name of a value column's type.
#[tactic(auto, unfolding(crate::specs::Arguments::a_type))]
pub(crate) fn read_type(bytes: &[u8]) -> Result<(TypeName, &[u8]), Misfit>
    ensures ok { IfOk result (λ found. a_type bytes.now ≡ Ok (found.0, found.1.now)) }
    ensures cause { IfErr result (λ misfit. RefusesExactly misfit (a_type bytes.now)) }
{
    let here = skip_blanks(bytes);
    if let Some((TokenKind::Word, length)) = front(here) {
        let (word, rest) = here.split_at(length);
        if let Some(name) = type_of(word) {
            return Ok((name, rest));
        }
    }
    Err(Misfit::here(here))
}

/// What a join is of.
#[tactic(auto, unfolding(crate::specs::Arguments::a_joined))]
pub(crate) fn read_joined(bytes: &[u8]) -> Result<(Joined, &[u8]), Misfit>
    ensures ok { IfOk result (λ found. a_joined bytes.now ≡ Ok (found.0, found.1.now)) }
    ensures cause { IfErr result (λ misfit. RefusesExactly misfit (a_joined bytes.now)) }
{
    let here = skip_blanks(bytes);
    if let Some((TokenKind::Word, length)) = front(here) {
        let (word, rest) = here.split_at(length);
        if let Some(joined) = joined_of(word) {
            return Ok((joined, rest));
        }
    }
    Err(Misfit::here(here))
}

/// A value of a row.
#[tactic(auto, unfolding(crate::specs::Arguments::a_literal))]
pub(crate) fn read_literal(alloc: Global, bytes: &[u8]) -> Result<(Literal, &[u8]), Misfit>
    ensures ok { IfOk result (λ found. a_literal bytes.now ≡ Ok (found.0, found.1.now)) }
    ensures cause { IfErr result (λ misfit. Refuses misfit (a_literal bytes.now)) }
{
    let here = skip_blanks(bytes);
    let Some((kind, length)) = front(here) else {
        return Err(Misfit::here(here));
    };
    let (token, rest) = here.split_at(length);
    match kind {
        TokenKind::Word if are_same(token, b"null") => Ok((Literal::Null, rest)),
        TokenKind::Number => Ok((number_of(token), rest)),
        TokenKind::Text => Ok((Literal::Text(bytes_of(alloc, token)?), rest)),
        _ => Err(Misfit::here(here)),
    }
}

fn number_of(token: &[u8]) -> Literal
    requires digits { digit_count token.now ≤ 38 }
    requires short { length token.now ≤ 40 }
    ensures { result ≡ Literal.Number (units_of token.now) (scale_of token.now) }
{
    Literal::Number {
        units: units(token),
        scale: scale(token) as u8,
    }
}

/// A number without a point, between the two.
#[tactic(auto, unfolding(crate::specs::Arguments::a_whole))]
pub(crate) fn read_whole(bytes: &[u8], least: i64, most: i64) -> Result<(i64, &[u8]), Misfit>
    ensures ok { IfOk result (λ found. a_whole least most bytes.now ≡ Ok (found.0, found.1.now)) }
    ensures cause { IfErr result (λ misfit. RefusesExactly misfit (a_whole least most bytes.now)) }
{
    let here = skip_blanks(bytes);
    if let Some((TokenKind::Number, length)) = front(here) {
        let (number, rest) = here.split_at(length);
        if let Some(whole) = whole(number, least, most) {
            return Ok((whole, rest));
        }
    }
    Err(Misfit::here(here))
}

fn whole(token: &[u8], least: i64, most: i64) -> Option<i64>
    requires digits { digit_count token.now ≤ 38 }
    ensures { result ≡ whole_in least most TokenKind.Number token.now }
{
    let units = units(token);
    if scale(token) == 0 && i128::from(least) <= units && units <= i128::from(most) {
        return Some(units as i64);
    }
    None
}
