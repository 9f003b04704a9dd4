// What stands in the brackets of calls, by its shape.
ghost use Rattle.std.specs.Prelude.{◌≡◌, Ok, IfOk, IfErr};
ghost use Rattle.ts_text.specs.Misfit.{Refuses, RefusesExactly};
ghost use Rattle.ts_text.specs.Phrase.{repeated, onto};
ghost use Rattle.ts_arguments.specs.Arguments.{a_literal, name_before, key_before, text_before, stamp_before};
ghost use Rattle.ts_arguments.specs.Arguments.{whole_before, two_names, three_names, joined_names, name_and_text};
ghost use Rattle.ts_arguments.specs.Arguments.{name_and_whole, two_names_and_whole, key_and_name, key_and_whole};
ghost use Rattle.ts_arguments.specs.Arguments.{key_and_stamp, stamp_and_name, name_stamp_and_name};
ghost use Rattle.ts_arguments.specs.Arguments.{key_name_stamp_and_name, stamp_and_whole, name_stamp_and_whole};
ghost use Rattle.ts_arguments.specs.Arguments.{key_stamp_and_whole, stamp_and_values, key_stamp_and_values};
ghost use Rattle.ts_arguments.specs.Arguments.{some_columns, stamp_and_columns, name_and_columns};

use crate::column::{read_column, read_columns, read_stamp_column};
use crate::list::{Columns, Literals};
use crate::phrase::{
    read_joined, read_key, read_literal, read_name, read_stamp, read_text, read_whole,
};
use crate::word::Joined;
use std::alloc::Global;
use ts_base::{Bytes, Key, Name, Stamp};
use ts_text::{Misfit, behind_sign, read_sign};

/// A name, and this sign behind it.
#[tactic(auto, unfolding(crate::specs::Arguments::name_before))]
pub fn read_name_before(alloc: Global, bytes: &[u8], sign: u8) -> Result<(Name, &[u8]), Misfit>
    ensures ok { IfOk result (λ found. name_before sign bytes.now ≡ Ok (found.0, found.1.now)) }
    ensures cause { IfErr result (λ misfit. Refuses misfit (name_before sign bytes.now)) }
{
    let (name, rest) = read_name(alloc, bytes)?;
    let rest = read_sign(rest, sign)?;
    Ok((name, rest))
}

/// A key, and this sign behind it.
#[tactic(auto, unfolding(crate::specs::Arguments::key_before))]
pub fn read_key_before(alloc: Global, bytes: &[u8], sign: u8) -> Result<(Key, &[u8]), Misfit>
    ensures ok { IfOk result (λ found. key_before sign bytes.now ≡ Ok (found.0, found.1.now)) }
    ensures cause { IfErr result (λ misfit. Refuses misfit (key_before sign bytes.now)) }
{
    let (key, rest) = read_key(alloc, bytes)?;
    let rest = read_sign(rest, sign)?;
    Ok((key, rest))
}

/// A text, and this sign behind it.
#[tactic(auto, unfolding(crate::specs::Arguments::text_before))]
pub(crate) fn read_text_before(
    alloc: Global,
    bytes: &[u8],
    sign: u8,
) -> Result<(Bytes, &[u8]), Misfit>
    ensures ok { IfOk result (λ found. text_before sign bytes.now ≡ Ok (found.0, found.1.now)) }
    ensures cause { IfErr result (λ misfit. Refuses misfit (text_before sign bytes.now)) }
{
    let (text, rest) = read_text(alloc, bytes)?;
    let rest = read_sign(rest, sign)?;
    Ok((text, rest))
}

/// A stamp, and this sign behind it.
#[tactic(auto, unfolding(crate::specs::Arguments::stamp_before))]
pub(crate) fn read_stamp_before(
    alloc: Global,
    bytes: &[u8],
    sign: u8,
) -> Result<(Stamp, &[u8]), Misfit>
    ensures ok { IfOk result (λ found. stamp_before sign bytes.now ≡ Ok (found.0, found.1.now)) }
    ensures cause { IfErr result (λ misfit. Refuses misfit (stamp_before sign bytes.now)) }
{
    match read_stamp(alloc, bytes) {
        Ok((stamp, rest)) => Ok((stamp, read_sign(rest, sign)?)),
        Err(misfit) => Err(misfit),
    }
}

/// A whole number between the two, and this sign behind it.
#[tactic(auto, unfolding(crate::specs::Arguments::whole_before))]
pub(crate) fn read_whole_before(
    bytes: &[u8],
    sign: u8,
    least: i64,
    most: i64,
) -> Result<(i64, &[u8]), Misfit>
    ensures ok { IfOk result (λ found. whole_before sign least most bytes.now ≡ Ok (found.0, found.1.now)) }
    ensures cause { IfErr result (λ misfit. RefusesExactly misfit (whole_before sign least most bytes.now)) }
{
    let (whole, rest) = read_whole(bytes, least, most)?;
    let rest = read_sign(rest, sign)?;
    Ok((whole, rest))
}

/// Two names.
#[tactic(auto, unfolding(crate::specs::Arguments::two_names))]
pub fn read_two_names(alloc: Global, bytes: &[u8]) -> Result<((Name, Name), &[u8]), Misfit>
    ensures ok { IfOk result (λ found. two_names bytes.now ≡ Ok (found.0, found.1.now)) }
    ensures cause { IfErr result (λ misfit. Refuses misfit (two_names bytes.now)) }
{
    let (name, rest) = read_name_before(alloc, bytes, b',')?;
    let (other, rest) = read_name_before(alloc, rest, b')')?;
    Ok(((name, other), rest))
}

// Three names.
#[tactic(auto, unfolding(crate::specs::Arguments::three_names))]
fn read_three_names(alloc: Global, bytes: &[u8]) -> Result<((Name, (Name, Name)), &[u8]), Misfit>
    ensures ok { IfOk result (λ found. three_names bytes.now ≡ Ok (found.0, found.1.now)) }
    ensures cause { IfErr result (λ misfit. Refuses misfit (three_names bytes.now)) }
{
    let (name, rest) = read_name_before(alloc, bytes, b',')?;
    let (others, rest) = read_two_names(alloc, rest)?;
    Ok(((name, others), rest))
}

/// What is joined, and three names.
#[tactic(auto, unfolding(crate::specs::Arguments::joined_names))]
pub fn read_joined_names(
    alloc: Global,
    bytes: &[u8],
) -> Result<((Joined, (Name, (Name, Name))), &[u8]), Misfit>
    ensures ok { IfOk result (λ found. joined_names bytes.now ≡ Ok (found.0, found.1.now)) }
    ensures cause { IfErr result (λ misfit. Refuses misfit (joined_names bytes.now)) }
{
    let (joined, rest) = read_joined(bytes)?;
    let (names, rest) = read_three_names(alloc, read_sign(rest, b',')?)?;
    Ok(((joined, names), rest))
}

/// A name and a text.
#[tactic(auto, unfolding(crate::specs::Arguments::name_and_text))]
pub fn read_name_and_text(alloc: Global, bytes: &[u8]) -> Result<((Name, Bytes), &[u8]), Misfit>
    ensures ok { IfOk result (λ found. name_and_text bytes.now ≡ Ok (found.0, found.1.now)) }
    ensures cause { IfErr result (λ misfit. Refuses misfit (name_and_text bytes.now)) }
{
    let (name, rest) = read_name_before(alloc, bytes, b',')?;
    let (text, rest) = read_text_before(alloc, rest, b')')?;
    Ok(((name, text), rest))
}

// A name and a whole number between the two.
#[tactic(auto, unfolding(crate::specs::Arguments::name_and_whole))]
pub(crate) fn read_name_and_whole(
    alloc: Global,
    bytes: &[u8],
    least: i64,
    most: i64,
) -> Result<((Name, i64), &[u8]), Misfit>
    ensures ok { IfOk result (λ found. name_and_whole least most bytes.now ≡ Ok (found.0, found.1.now)) }
    ensures cause { IfErr result (λ misfit. Refuses misfit (name_and_whole least most bytes.now)) }
{
    let (name, rest) = read_name_before(alloc, bytes, b',')?;
    let (whole, rest) = read_whole_before(rest, b')', least, most)?;
    Ok(((name, whole), rest))
}

/// Two names and a whole number between the two.
#[tactic(auto, unfolding(crate::specs::Arguments::two_names_and_whole))]
pub fn read_two_names_and_whole(
    alloc: Global,
    bytes: &[u8],
    least: i64,
    most: i64,
) -> Result<((Name, (Name, i64)), &[u8]), Misfit>
    ensures ok { IfOk result (λ found. two_names_and_whole least most bytes.now ≡ Ok (found.0, found.1.now)) }
    ensures cause { IfErr result (λ misfit. Refuses misfit (two_names_and_whole least most bytes.now)) }
{
    let (name, rest) = read_name_before(alloc, bytes, b',')?;
    let (others, rest) = read_name_and_whole(alloc, rest, least, most)?;
    Ok(((name, others), rest))
}

/// A key and a name.
#[tactic(auto, unfolding(crate::specs::Arguments::key_and_name))]
pub fn read_key_and_name(alloc: Global, bytes: &[u8]) -> Result<((Key, Name), &[u8]), Misfit>
    ensures ok { IfOk result (λ found. key_and_name bytes.now ≡ Ok (found.0, found.1.now)) }
    ensures cause { IfErr result (λ misfit. Refuses misfit (key_and_name bytes.now)) }
{
    let (key, rest) = read_key_before(alloc, bytes, b',')?;
    let (name, rest) = read_name_before(alloc, rest, b')')?;
    Ok(((key, name), rest))
}

/// A key and a whole number between the two.
#[tactic(auto, unfolding(crate::specs::Arguments::key_and_whole))]
pub fn read_key_and_whole(
    alloc: Global,
    bytes: &[u8],
    least: i64,
    most: i64,
) -> Result<((Key, i64), &[u8]), Misfit>
    ensures ok { IfOk result (λ found. key_and_whole least most bytes.now ≡ Ok (found.0, found.1.now)) }
    ensures cause { IfErr result (λ misfit. Refuses misfit (key_and_whole least most bytes.now)) }
{
    let (key, rest) = read_key_before(alloc, bytes, b',')?;
    let (whole, rest) = read_whole_before(rest, b')', least, most)?;
    Ok(((key, whole), rest))
}

/// A key and a stamp.
#[tactic(auto, unfolding(crate::specs::Arguments::key_and_stamp))]
pub fn read_key_and_stamp(alloc: Global, bytes: &[u8]) -> Result<((Key, Stamp), &[u8]), Misfit>
    ensures ok { IfOk result (λ found. key_and_stamp bytes.now ≡ Ok (found.0, found.1.now)) }
    ensures cause { IfErr result (λ misfit. Refuses misfit (key_and_stamp bytes.now)) }
{
    let (key, rest) = read_key_before(alloc, bytes, b',')?;
    match read_stamp_before(alloc, rest, b')') {
        Ok((stamp, rest)) => Ok(((key, stamp), rest)),
        Err(misfit) => Err(misfit),
    }
}

// A stamp and a name.
#[tactic(auto, unfolding(crate::specs::Arguments::stamp_and_name))]
fn read_stamp_and_name(alloc: Global, bytes: &[u8]) -> Result<((Stamp, Name), &[u8]), Misfit>
    ensures ok { IfOk result (λ found. stamp_and_name bytes.now ≡ Ok (found.0, found.1.now)) }
    ensures cause { IfErr result (λ misfit. Refuses misfit (stamp_and_name bytes.now)) }
{
    match read_stamp_before(alloc, bytes, b',') {
        Ok((stamp, rest)) => {
            let (name, rest) = read_name_before(alloc, rest, b')')?;
            Ok(((stamp, name), rest))
        }
        Err(misfit) => Err(misfit),
    }
}

// A name, a stamp and a name.
#[tactic(auto, unfolding(crate::specs::Arguments::name_stamp_and_name))]
fn read_name_stamp_and_name(
    alloc: Global,
    bytes: &[u8],
) -> Result<((Name, (Stamp, Name)), &[u8]), Misfit>
    ensures ok { IfOk result (λ found. name_stamp_and_name bytes.now ≡ Ok (found.0, found.1.now)) }
    ensures cause { IfErr result (λ misfit. Refuses misfit (name_stamp_and_name bytes.now)) }
{
    let (name, rest) = read_name_before(alloc, bytes, b',')?;
    match read_stamp_and_name(alloc, rest) {
        Ok((others, rest)) => Ok(((name, others), rest)),
        Err(misfit) => Err(misfit),
    }
}

/// A key, a name, a stamp and a name.
#[tactic(auto, unfolding(crate::specs::Arguments::key_name_stamp_and_name))]
pub fn read_key_name_stamp_and_name(
    alloc: Global,
    bytes: &[u8],
) -> Result<((Key, (Name, (Stamp, Name))), &[u8]), Misfit>
    ensures ok { IfOk result (λ found. key_name_stamp_and_name bytes.now ≡ Ok (found.0, found.1.now)) }
    ensures cause { IfErr result (λ misfit. Refuses misfit (key_name_stamp_and_name bytes.now)) }
{
    let (key, rest) = read_key_before(alloc, bytes, b',')?;
    match read_name_stamp_and_name(alloc, rest) {
        Ok((others, rest)) => Ok(((key, others), rest)),
        Err(misfit) => Err(misfit),
    }
}

// A stamp and a whole number between the two.
#[tactic(auto, unfolding(crate::specs::Arguments::stamp_and_whole))]
fn read_stamp_and_whole(
    alloc: Global,
    bytes: &[u8],
    least: i64,
    most: i64,
) -> Result<((Stamp, i64), &[u8]), Misfit>
    ensures ok { IfOk result (λ found. stamp_and_whole least most bytes.now ≡ Ok (found.0, found.1.now)) }
    ensures cause { IfErr result (λ misfit. Refuses misfit (stamp_and_whole least most bytes.now)) }
{
    match read_stamp_before(alloc, bytes, b',') {
        Ok((stamp, rest)) => {
            let (whole, rest) = read_whole_before(rest, b')', least, most)?;
            Ok(((stamp, whole), rest))
        }
        Err(misfit) => Err(misfit),
    }
}

/// A name, a stamp and a whole number between the two.
#[tactic(auto, unfolding(crate::specs::Arguments::name_stamp_and_whole))]
pub fn read_name_stamp_and_whole(
    alloc: Global,
    bytes: &[u8],
    least: i64,
    most: i64,
) -> Result<((Name, (Stamp, i64)), &[u8]), Misfit>
    ensures ok { IfOk result (λ found. name_stamp_and_whole least most bytes.now ≡ Ok (found.0, found.1.now)) }
    ensures cause { IfErr result (λ misfit. Refuses misfit (name_stamp_and_whole least most bytes.now)) }
{
    let (name, rest) = read_name_before(alloc, bytes, b',')?;
    match read_stamp_and_whole(alloc, rest, least, most) {
        Ok((others, rest)) => Ok(((name, others), rest)),
        Err(misfit) => Err(misfit),
    }
}

/// A key, a stamp and a whole number between the two.
#[tactic(auto, unfolding(crate::specs::Arguments::key_stamp_and_whole))]
pub fn read_key_stamp_and_whole(
    alloc: Global,
    bytes: &[u8],
    least: i64,
    most: i64,
) -> Result<((Key, (Stamp, i64)), &[u8]), Misfit>
    ensures ok { IfOk result (λ found. key_stamp_and_whole least most bytes.now ≡ Ok (found.0, found.1.now)) }
    ensures cause { IfErr result (λ misfit. Refuses misfit (key_stamp_and_whole least most bytes.now)) }
{
    let (key, rest) = read_key_before(alloc, bytes, b',')?;
    match read_stamp_and_whole(alloc, rest, least, most) {
        Ok((others, rest)) => Ok(((key, others), rest)),
        Err(misfit) => Err(misfit),
    }
}

// A stamp and any number of values.
#[tactic(auto, unfolding(crate::specs::Arguments::stamp_and_values))]
pub(crate) fn read_stamp_and_values(
    alloc: Global,
    bytes: &[u8],
) -> Result<((Stamp, Literals), &[u8]), Misfit>
    ensures ok { IfOk result (λ found. stamp_and_values bytes.now ≡ Ok (found.0, found.1.now)) }
    ensures cause { IfErr result (λ misfit. Refuses misfit (stamp_and_values bytes.now)) }
{
    match read_stamp(alloc, bytes) {
        Ok((stamp, rest)) => {
            let (values, rest) = read_literals(alloc, rest)?;
            Ok(((stamp, values), read_sign(rest, b')')?))
        }
        Err(misfit) => Err(misfit),
    }
}

/// A key, a stamp and any number of values.
#[tactic(auto, unfolding(crate::specs::Arguments::key_stamp_and_values))]
pub fn read_key_stamp_and_values(
    alloc: Global,
    bytes: &[u8],
) -> Result<((Key, (Stamp, Literals)), &[u8]), Misfit>
    ensures ok { IfOk result (λ found. key_stamp_and_values bytes.now ≡ Ok (found.0, found.1.now)) }
    ensures cause { IfErr result (λ misfit. Refuses misfit (key_stamp_and_values bytes.now)) }
{
    let (key, rest) = read_key_before(alloc, bytes, b',')?;
    match read_stamp_and_values(alloc, rest) {
        Ok((others, rest)) => Ok(((key, others), rest)),
        Err(misfit) => Err(misfit),
    }
}

// One value column at least.
#[tactic(auto, unfolding(crate::specs::Arguments::some_columns))]
fn read_some_columns(alloc: Global, bytes: &[u8]) -> Result<(Columns, &[u8]), Misfit>
    ensures ok { IfOk result (λ found. some_columns bytes.now ≡ Ok (found.0, found.1.now)) }
    ensures cause { IfErr result (λ misfit. Refuses misfit (some_columns bytes.now)) }
{
    let (first, rest) = read_column(alloc, bytes)?;
    let mut columns = Columns::new(alloc);
    columns.push(first)?;
    let rest = read_columns(alloc, &mut columns, rest)?;
    let rest = read_sign(rest, b')')?;
    Ok((columns, rest))
}

// The stamp's column and one value column at least.
#[tactic(auto, unfolding(crate::specs::Arguments::stamp_and_columns))]
fn read_stamp_and_columns(alloc: Global, bytes: &[u8]) -> Result<((Name, Columns), &[u8]), Misfit>
    ensures ok { IfOk result (λ found. stamp_and_columns bytes.now ≡ Ok (found.0, found.1.now)) }
    ensures cause { IfErr result (λ misfit. Refuses misfit (stamp_and_columns bytes.now)) }
{
    let (stamp, rest) = read_stamp_column(alloc, bytes)?;
    let (columns, rest) = read_some_columns(alloc, read_sign(rest, b',')?)?;
    Ok(((stamp, columns), rest))
}

/// A name, the stamp's column and one value column at least.
#[tactic(auto, unfolding(crate::specs::Arguments::name_and_columns))]
pub fn read_name_and_columns(
    alloc: Global,
    bytes: &[u8],
) -> Result<((Name, (Name, Columns)), &[u8]), Misfit>
    ensures ok { IfOk result (λ found. name_and_columns bytes.now ≡ Ok (found.0, found.1.now)) }
    ensures cause { IfErr result (λ misfit. Refuses misfit (name_and_columns bytes.now)) }
{
    let (name, rest) = read_name_before(alloc, bytes, b',')?;
    let (columns, rest) = read_stamp_and_columns(alloc, rest)?;
    Ok(((name, columns), rest))
}

// Values, as many as commas stand there.
fn read_literals(alloc: Global, bytes: &[u8]) -> Result<(Literals, &[u8]), Misfit>
    ensures ok { IfOk result (λ found. repeated a_literal bytes.now ≡ Ok (found.0, found.1.now)) }
    ensures cause { IfErr result (λ misfit. Refuses misfit (repeated a_literal bytes.now)) }
{
    let mut values = Literals::new(alloc);
    let mut rest = bytes;
    while let Some(behind) = behind_sign(rest, b',') {
        let (value, more) = read_literal(alloc, behind)?;
        values.push(value)?;
        rest = more;
    }
    Ok((values, rest))
}
