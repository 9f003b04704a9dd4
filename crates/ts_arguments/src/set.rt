// What stands in the brackets of calls that begin with the key of a rolling set.
ghost use Rattle.std.specs.Prelude.{◌≡◌, Ok, IfOk, IfErr};
ghost use Rattle.ts_text.specs.declared.token.TokenKind.TheVariants.{Text};
ghost use Rattle.ts_text.specs.Misfit.{Refuses};
ghost use Rattle.ts_arguments.specs.Arguments.{a_set, set_in, set_if_any, set_before, set_range, set_stamp_and_values};
ghost use Rattle.ts_arguments.specs.Arguments.{stamp_name_and_whole, name_stamp_name_and_whole};
ghost use Rattle.ts_arguments.specs.Arguments.{set_name_stamp_name_and_whole};

use crate::call::{
    read_name_and_whole, read_name_before, read_stamp_and_values, read_stamp_before,
};
use crate::list::Literals;
use crate::range::read_two_stamps;
use std::alloc::{AllocError, Global};
use ts_base::{Key, Name, Stamp};
use ts_rolling::is_set;
use ts_text::{Misfit, TokenKind, read_sign, skip_blanks};
use ts_tokens::{front, key_of};

// The key of a set.
#[tactic(auto, unfolding(crate::specs::Arguments::a_set))]
fn read_set(alloc: Global, bytes: &[u8]) -> Result<(Key, &[u8]), Misfit>
    ensures ok { IfOk result (λ found. a_set bytes.now ≡ Ok (found.0, found.1.now)) }
    ensures cause { IfErr result (λ misfit. Refuses misfit (a_set bytes.now)) }
{
    let here = skip_blanks(bytes);
    if let Some((TokenKind::Text, length)) = front(here) {
        let (text, rest) = here.split_at(length);
        if let Some(set) = set_of(alloc, text)? {
            return Ok((set, rest));
        }
    }
    Err(Misfit::here(here))
}

// The key of a set that a text token says, if it says one.
fn set_of(alloc: Global, token: &[u8]) -> Result<Option<Key>, AllocError>
    ensures { IfOk result (λ set. set ≡ set_in Text token.now) }
{
    match key_of(alloc, token)? {
        Some(key) => Ok(set_if_any(key)),
        None => Ok(None),
    }
}

// A key that a set may have.
fn set_if_any(key: Key) -> Option<Key>
    ensures { result ≡ set_if_any key }
{
    if is_set(&key) {
        return Some(key);
    }
    None
}

/// A set, and this sign behind it.
#[tactic(auto, unfolding(crate::specs::Arguments::set_before))]
pub fn read_set_before(alloc: Global, bytes: &[u8], sign: u8) -> Result<(Key, &[u8]), Misfit>
    ensures ok { IfOk result (λ found. set_before sign bytes.now ≡ Ok (found.0, found.1.now)) }
    ensures cause { IfErr result (λ misfit. Refuses misfit (set_before sign bytes.now)) }
{
    let (set, rest) = read_set(alloc, bytes)?;
    let rest = read_sign(rest, sign)?;
    Ok((set, rest))
}

/// A set and two stamps.
#[tactic(auto, unfolding(crate::specs::Arguments::set_range))]
pub fn read_set_range(alloc: Global, bytes: &[u8]) -> Result<((Key, (Stamp, Stamp)), &[u8]), Misfit>
    ensures ok { IfOk result (λ found. set_range bytes.now ≡ Ok (found.0, found.1.now)) }
    ensures cause { IfErr result (λ misfit. Refuses misfit (set_range bytes.now)) }
{
    let (set, rest) = read_set_before(alloc, bytes, b',')?;
    match read_two_stamps(alloc, rest) {
        Ok((range, rest)) => Ok(((set, range), rest)),
        Err(misfit) => Err(misfit),
    }
}

/// A set, a stamp and any number of values.
#[tactic(auto, unfolding(crate::specs::Arguments::set_stamp_and_values))]
pub fn read_set_stamp_and_values(
    alloc: Global,
    bytes: &[u8],
) -> Result<((Key, (Stamp, Literals)), &[u8]), Misfit>
    ensures ok { IfOk result (λ found. set_stamp_and_values bytes.now ≡ Ok (found.0, found.1.now)) }
    ensures cause { IfErr result (λ misfit. Refuses misfit (set_stamp_and_values bytes.now)) }
{
    let (set, rest) = read_set_before(alloc, bytes, b',')?;
    match read_stamp_and_values(alloc, rest) {
        Ok((others, rest)) => Ok(((set, others), rest)),
        Err(misfit) => Err(misfit),
    }
}

// A stamp, a name and a whole number between the two.
#[tactic(auto, unfolding(crate::specs::Arguments::stamp_name_and_whole))]
fn read_stamp_name_and_whole(
    alloc: Global,
    bytes: &[u8],
    least: i64,
    most: i64,
) -> Result<((Stamp, (Name, i64)), &[u8]), Misfit>
    ensures ok { IfOk result (λ found. stamp_name_and_whole least most bytes.now ≡ Ok (found.0, found.1.now)) }
    ensures cause { IfErr result (λ misfit. Refuses misfit (stamp_name_and_whole least most bytes.now)) }
{
    match read_stamp_before(alloc, bytes, b',') {
        Ok((stamp, rest)) => {
            let (others, rest) = read_name_and_whole(alloc, rest, least, most)?;
            Ok(((stamp, others), rest))
        }
        Err(misfit) => Err(misfit),
    }
}

// A name, a stamp, a name and a whole number between the two.
#[tactic(auto, unfolding(crate::specs::Arguments::name_stamp_name_and_whole))]
fn read_name_stamp_name_and_whole(
    alloc: Global,
    bytes: &[u8],
    least: i64,
    most: i64,
) -> Result<((Name, (Stamp, (Name, i64))), &[u8]), Misfit>
    ensures ok { IfOk result (λ found. name_stamp_name_and_whole least most bytes.now ≡ Ok (found.0, found.1.now)) }
    ensures cause { IfErr result (λ misfit. Refuses misfit (name_stamp_name_and_whole least most bytes.now)) }
{
    let (name, rest) = read_name_before(alloc, bytes, b',')?;
    match read_stamp_name_and_whole(alloc, rest, least, most) {
        Ok((others, rest)) => Ok(((name, others), rest)),
        Err(misfit) => Err(misfit),
    }
}

/// A set, a name, a stamp, a name and a whole number between the two.
#[tactic(auto, unfolding(crate::specs::Arguments::set_name_stamp_name_and_whole))]
pub fn read_set_name_stamp_name_and_whole(
    alloc: Global,
    bytes: &[u8],
    least: i64,
    most: i64,
) -> Result<((Key, (Name, (Stamp, (Name, i64)))), &[u8]), Misfit>
    ensures ok { IfOk result
        (λ found. set_name_stamp_name_and_whole least most bytes.now ≡ Ok (found.0, found.1.now)) }
    ensures cause { IfErr result (λ misfit. Refuses misfit (set_name_stamp_name_and_whole least most bytes.now)) }
{
    let (set, rest) = read_set_before(alloc, bytes, b',')?;
    match read_name_stamp_name_and_whole(alloc, rest, least, most) {
        Ok((others, rest)) => Ok(((set, others), rest)),
        Err(misfit) => Err(misfit),
    }
}
