// Calls that end with a range: two stamps behind what else stands there.
ghost use Rattle.std.specs.Prelude.{◌≡◌, Ok, IfOk, IfErr};
ghost use Rattle.ts_text.specs.Misfit.{Refuses};
ghost use Rattle.ts_arguments.specs.Arguments.{two_stamps, name_range, key_range, two_keys_range, name_key_range};
ghost use Rattle.ts_arguments.specs.Arguments.{text_key_range, text_name_range, text_name_key_range, whole_range};
ghost use Rattle.ts_arguments.specs.Arguments.{key_whole_range, text_key_whole_range};

use crate::call::{
    read_key_before, read_name_before, read_stamp_before, read_text_before, read_whole_before,
};
use std::alloc::Global;
use ts_base::{Bytes, Key, Name, Stamp};
use ts_text::Misfit;

// Two stamps.
#[tactic(auto, unfolding(crate::specs::Arguments::two_stamps))]
pub(crate) fn read_two_stamps(
    alloc: Global,
    bytes: &[u8],
) -> Result<((Stamp, Stamp), &[u8]), Misfit>
    ensures ok { IfOk result (λ found. two_stamps bytes.now ≡ Ok (found.0, found.1.now)) }
    ensures cause { IfErr result (λ misfit. Refuses misfit (two_stamps bytes.now)) }
{
    match read_stamp_before(alloc, bytes, b',') {
        Ok((from, rest)) => match read_stamp_before(alloc, rest, b')') {
            Ok((to, rest)) => Ok(((from, to), rest)),
            Err(misfit) => Err(misfit),
        },
        Err(misfit) => Err(misfit),
    }
}

/// A name and two stamps.
#[tactic(auto, unfolding(crate::specs::Arguments::name_range))]
pub fn read_name_range(
    alloc: Global,
    bytes: &[u8],
) -> Result<((Name, (Stamp, Stamp)), &[u8]), Misfit>
    ensures ok { IfOk result (λ found. name_range bytes.now ≡ Ok (found.0, found.1.now)) }
    ensures cause { IfErr result (λ misfit. Refuses misfit (name_range bytes.now)) }
{
    let (name, rest) = read_name_before(alloc, bytes, b',')?;
    match read_two_stamps(alloc, rest) {
        Ok((range, rest)) => Ok(((name, range), rest)),
        Err(misfit) => Err(misfit),
    }
}

/// A key and two stamps.
#[tactic(auto, unfolding(crate::specs::Arguments::key_range))]
pub fn read_key_range(alloc: Global, bytes: &[u8]) -> Result<((Key, (Stamp, Stamp)), &[u8]), Misfit>
    ensures ok { IfOk result (λ found. key_range bytes.now ≡ Ok (found.0, found.1.now)) }
    ensures cause { IfErr result (λ misfit. Refuses misfit (key_range bytes.now)) }
{
    let (key, rest) = read_key_before(alloc, bytes, b',')?;
    match read_two_stamps(alloc, rest) {
        Ok((range, rest)) => Ok(((key, range), rest)),
        Err(misfit) => Err(misfit),
    }
}

/// Two keys and two stamps.
#[tactic(auto, unfolding(crate::specs::Arguments::two_keys_range))]
pub fn read_two_keys_range(
    alloc: Global,
    bytes: &[u8],
) -> Result<((Key, (Key, (Stamp, Stamp))), &[u8]), Misfit>
    ensures ok { IfOk result (λ found. two_keys_range bytes.now ≡ Ok (found.0, found.1.now)) }
    ensures cause { IfErr result (λ misfit. Refuses misfit (two_keys_range bytes.now)) }
{
    let (first, rest) = read_key_before(alloc, bytes, b',')?;
    match read_key_range(alloc, rest) {
        Ok((second, rest)) => Ok(((first, second), rest)),
        Err(misfit) => Err(misfit),
    }
}

// A name, a key and two stamps.
#[tactic(auto, unfolding(crate::specs::Arguments::name_key_range))]
fn read_name_key_range(
    alloc: Global,
    bytes: &[u8],
) -> Result<((Name, (Key, (Stamp, Stamp))), &[u8]), Misfit>
    ensures ok { IfOk result (λ found. name_key_range bytes.now ≡ Ok (found.0, found.1.now)) }
    ensures cause { IfErr result (λ misfit. Refuses misfit (name_key_range bytes.now)) }
{
    let (name, rest) = read_name_before(alloc, bytes, b',')?;
    match read_key_range(alloc, rest) {
        Ok((key, rest)) => Ok(((name, key), rest)),
        Err(misfit) => Err(misfit),
    }
}

/// A text, a key and two stamps.
#[tactic(auto, unfolding(crate::specs::Arguments::text_key_range))]
pub fn read_text_key_range(
    alloc: Global,
    bytes: &[u8],
) -> Result<((Bytes, (Key, (Stamp, Stamp))), &[u8]), Misfit>
    ensures ok { IfOk result (λ found. text_key_range bytes.now ≡ Ok (found.0, found.1.now)) }
    ensures cause { IfErr result (λ misfit. Refuses misfit (text_key_range bytes.now)) }
{
    let (text, rest) = read_text_before(alloc, bytes, b',')?;
    match read_key_range(alloc, rest) {
        Ok((key, rest)) => Ok(((text, key), rest)),
        Err(misfit) => Err(misfit),
    }
}

/// A text, a name and two stamps.
#[tactic(auto, unfolding(crate::specs::Arguments::text_name_range))]
pub fn read_text_name_range(
    alloc: Global,
    bytes: &[u8],
) -> Result<((Bytes, (Name, (Stamp, Stamp))), &[u8]), Misfit>
    ensures ok { IfOk result (λ found. text_name_range bytes.now ≡ Ok (found.0, found.1.now)) }
    ensures cause { IfErr result (λ misfit. Refuses misfit (text_name_range bytes.now)) }
{
    let (text, rest) = read_text_before(alloc, bytes, b',')?;
    match read_name_range(alloc, rest) {
        Ok((name, rest)) => Ok(((text, name), rest)),
        Err(misfit) => Err(misfit),
    }
}

/// A text, a name, a key and two stamps.
#[tactic(auto, unfolding(crate::specs::Arguments::text_name_key_range))]
pub fn read_text_name_key_range(
    alloc: Global,
    bytes: &[u8],
) -> Result<((Bytes, (Name, (Key, (Stamp, Stamp)))), &[u8]), Misfit>
    ensures ok { IfOk result (λ found. text_name_key_range bytes.now ≡ Ok (found.0, found.1.now)) }
    ensures cause { IfErr result (λ misfit. Refuses misfit (text_name_key_range bytes.now)) }
{
    let (text, rest) = read_text_before(alloc, bytes, b',')?;
    match read_name_key_range(alloc, rest) {
        Ok((name, rest)) => Ok(((text, name), rest)),
        Err(misfit) => Err(misfit),
    }
}

// A whole number between the two and two stamps.
#[tactic(auto, unfolding(crate::specs::Arguments::whole_range))]
fn read_whole_range(
    alloc: Global,
    bytes: &[u8],
    least: i64,
    most: i64,
) -> Result<((i64, (Stamp, Stamp)), &[u8]), Misfit>
    ensures ok { IfOk result (λ found. whole_range least most bytes.now ≡ Ok (found.0, found.1.now)) }
    ensures cause { IfErr result (λ misfit. Refuses misfit (whole_range least most bytes.now)) }
{
    let (whole, rest) = read_whole_before(bytes, b',', least, most)?;
    match read_two_stamps(alloc, rest) {
        Ok((range, rest)) => Ok(((whole, range), rest)),
        Err(misfit) => Err(misfit),
    }
}

// A key, a whole number between the two and two stamps.
#[tactic(auto, unfolding(crate::specs::Arguments::key_whole_range))]
fn read_key_whole_range(
    alloc: Global,
    bytes: &[u8],
    least: i64,
    most: i64,
) -> Result<((Key, (i64, (Stamp, Stamp))), &[u8]), Misfit>
    ensures ok { IfOk result (λ found. key_whole_range least most bytes.now ≡ Ok (found.0, found.1.now)) }
    ensures cause { IfErr result (λ misfit. Refuses misfit (key_whole_range least most bytes.now)) }
{
    let (key, rest) = read_key_before(alloc, bytes, b',')?;
    match read_whole_range(alloc, rest, least, most) {
        Ok((whole, rest)) => Ok(((key, whole), rest)),
        Err(misfit) => Err(misfit),
    }
}

/// A text, a key, a whole number between the two and two stamps.
#[tactic(auto, unfolding(crate::specs::Arguments::text_key_whole_range))]
pub fn read_text_key_whole_range(
    alloc: Global,
    bytes: &[u8],
    least: i64,
    most: i64,
) -> Result<((Bytes, (Key, (i64, (Stamp, Stamp)))), &[u8]), Misfit>
    ensures ok { IfOk result (λ found. text_key_whole_range least most bytes.now ≡ Ok (found.0, found.1.now)) }
    ensures cause { IfErr result (λ misfit. Refuses misfit (text_key_whole_range least most bytes.now)) }
{
    let (text, rest) = read_text_before(alloc, bytes, b',')?;
    match read_key_whole_range(alloc, rest, least, most) {
        Ok((key, rest)) => Ok(((text, key), rest)),
        Err(misfit) => Err(misfit),
    }
}
