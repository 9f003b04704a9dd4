// Numbers with digits after a point.
ghost use Rattle.std.specs.Prelude.{◌≡◌, ◌≤◌, ◌<◌, ◌^◌, ◌∷◌, ◌++◌, [], decimal, drop, OnOk, OnErr};
ghost use Rattle.ts_row.specs.Row.{last_digits, number_text, size_text, Extends};
ghost use Rattle.ts_expr.specs.Aggregates.{most_scale};

use crate::pairs::two_digits;
use itoa::{Buffer, Integer};
use std::alloc::AllocError;
use ts_base::Reply;
use ts_row::SHORT_DIGITS;

/// Ten to the power of each number up to 18.
static POWERS: [u64; 19] = [
    1,
    10,
    100,
    1000,
    10_000,
    100_000,
    1_000_000,
    10_000_000,
    100_000_000,
    1_000_000_000,
    10_000_000_000,
    100_000_000_000,
    1_000_000_000_000,
    10_000_000_000_000,
    100_000_000_000_000,
    1_000_000_000_000_000,
    10_000_000_000_000_000,
    100_000_000_000_000_000,
    1_000_000_000_000_000_000,
];

/// Says a whole number, and a byte behind it.
pub(crate) fn say_whole(out: &mut Reply, number: i64, behind: u8) -> Result<(), AllocError>
    ensures ok { OnOk result (out.new ≡ out.old ++ number_text 0 number ++ behind ∷ []) }
    ensures err { OnErr result (Extends out.old out.new) }
{
    if number >= 0 && number < 100_000_000 {
        return say_few_digits(out, number as u32, behind);
    }
    say_many_digits(out, number, behind)
}

// Says a whole number of any sign and size, and a byte behind it.
#[inline(never)]
fn say_many_digits(out: &mut Reply, number: i64, behind: u8) -> Result<(), AllocError>
    ensures ok { OnOk result (out.new ≡ out.old ++ number_text 0 number ++ behind ∷ []) }
    ensures err { OnErr result (Extends out.old out.new) }
{
    let mut buffer = Buffer::new();
    out.extend_from_slice(buffer.format(number).as_bytes())?;
    out.push(behind)
}

// Says the digits of a number, at most eight, and a byte behind them, in one piece of a length that the compiler knows.
fn say_few_digits(out: &mut Reply, number: u32, behind: u8) -> Result<(), AllocError>
    requires { number < 100_000_000 }
    ensures ok { OnOk result (out.new ≡ out.old ++ decimal number ++ behind ∷ []) }
    ensures err { OnErr result (Extends out.old out.new) }
{
    if number < 100 {
        return say_two_digits(out, number, behind);
    }
    if number < 10_000 {
        return say_four_digits(out, number, behind);
    }
    if number < 1_000_000 {
        return say_six_digits(out, number, behind);
    }
    say_eight_digits(out, number, behind)
}

// Says a number of one digit or two, and a byte behind it.
fn say_two_digits(out: &mut Reply, number: u32, behind: u8) -> Result<(), AllocError>
    requires { number < 100 }
    ensures ok { OnOk result (out.new ≡ out.old ++ decimal number ++ behind ∷ []) }
    ensures err { OnErr result (Extends out.old out.new) }
{
    let [a, b] = two_digits(number);
    if number < 10 {
        return out.extend_from_slice(&[b, behind]);
    }
    out.extend_from_slice(&[a, b, behind])
}

// Says a number of three digits or four, and a byte behind it.
fn say_four_digits(out: &mut Reply, number: u32, behind: u8) -> Result<(), AllocError>
    requires least { 100 ≤ number }
    requires most { number < 10_000 }
    ensures ok { OnOk result (out.new ≡ out.old ++ decimal number ++ behind ∷ []) }
    ensures err { OnErr result (Extends out.old out.new) }
{
    let [a, b] = two_digits(number / 100);
    let [c, d] = two_digits(number % 100);
    if number < 1000 {
        return out.extend_from_slice(&[b, c, d, behind]);
    }
    out.extend_from_slice(&[a, b, c, d, behind])
}

// Says a number of five digits or six, and a byte behind it.
fn say_six_digits(out: &mut Reply, number: u32, behind: u8) -> Result<(), AllocError>
    requires least { 10_000 ≤ number }
    requires most { number < 1_000_000 }
    ensures ok { OnOk result (out.new ≡ out.old ++ decimal number ++ behind ∷ []) }
    ensures err { OnErr result (Extends out.old out.new) }
{
    let [a, b] = two_digits(number / 10_000);
    let [c, d] = two_digits(number / 100 % 100);
    let [e, f] = two_digits(number % 100);
    if number < 100_000 {
        return out.extend_from_slice(&[b, c, d, e, f, behind]);
    }
    out.extend_from_slice(&[a, b, c, d, e, f, behind])
}

// Says a number of seven digits or eight, and a byte behind it.
fn say_eight_digits(out: &mut Reply, number: u32, behind: u8) -> Result<(), AllocError>
    requires least { 1_000_000 ≤ number }
    requires most { number < 100_000_000 }
    ensures ok { OnOk result (out.new ≡ out.old ++ decimal number ++ behind ∷ []) }
    ensures err { OnErr result (Extends out.old out.new) }
{
    let [a, b] = two_digits(number / 1_000_000);
    let [c, d] = two_digits(number / 10_000 % 100);
    let [e, f] = two_digits(number / 100 % 100);
    let [g, h] = two_digits(number % 100);
    if number < 10_000_000 {
        return out.extend_from_slice(&[b, c, d, e, f, g, h, behind]);
    }
    out.extend_from_slice(&[a, b, c, d, e, f, g, h, behind])
}

/// Says a number with so many digits after the point, and a byte behind it. Most sums are small whole numbers; others
/// stand by themselves, so that those are said with no register kept.
pub(crate) fn say_scaled(
    out: &mut Reply,
    number: i128,
    scale: u32,
    behind: u8,
) -> Result<(), AllocError>
    requires { scale ≤ most_scale }
    ensures ok { OnOk result (out.new ≡ out.old ++ number_text scale number ++ behind ∷ []) }
    ensures err { OnErr result (Extends out.old out.new) }
{
    if scale == 0 && number >= 0 && number < 100_000_000 {
        return say_few_digits(out, number as u32, behind);
    }
    say_any_decimal(out, number, scale, behind)
}

// The same of any number, by 64 bits where they are enough.
#[inline(never)]
fn say_any_decimal(out: &mut Reply, number: i128, scale: u32, behind: u8) -> Result<(), AllocError>
    requires { scale ≤ most_scale }
    ensures ok { OnOk result (out.new ≡ out.old ++ number_text scale number ++ behind ∷ []) }
    ensures err { OnErr result (Extends out.old out.new) }
{
    match i64::try_from(number) {
        Ok(short) if scale <= SHORT_DIGITS as u32 => say_short_decimal(out, short, scale, behind),
        _ => say_long_decimal(out, number, scale, behind),
    }
}

/// Says a number of 64 bits with so many digits after the point, and a byte behind it.
pub(crate) fn say_short_decimal(
    out: &mut Reply,
    number: i64,
    scale: u32,
    behind: u8,
) -> Result<(), AllocError>
    requires { scale ≤ SHORT_DIGITS }
    ensures ok { OnOk result (out.new ≡ out.old ++ number_text scale number ++ behind ∷ []) }
    ensures err { OnErr result (Extends out.old out.new) }
{
    if number < 0 {
        out.push(b'-')?;
    }
    say_short_size(out, number.unsigned_abs(), scale, behind)
}

// Says a size of 64 bits with so many digits after the point, and a byte behind it.
#[tactic(auto, using(ts_row::proofs::LiteralLemmas::powers, crate::proofs::NumberLemmas::bounds))]
fn say_short_size(out: &mut Reply, size: u64, scale: u32, behind: u8) -> Result<(), AllocError>
    requires { scale ≤ SHORT_DIGITS }
    ensures ok { OnOk result (out.new ≡ out.old ++ size_text scale size ++ behind ∷ []) }
    ensures err { OnErr result (Extends out.old out.new) }
{
    if scale == 0 {
        return say_size(out, size, behind);
    }
    let one = short_power(scale);
    say_size(out, size / one, b'.')?;
    say_fraction(out, size % one, scale, behind)
}

// Says so many digits after a point, and a byte behind them.
fn say_fraction(out: &mut Reply, part: u64, scale: u32, behind: u8) -> Result<(), AllocError>
    requires scale { scale ≤ SHORT_DIGITS }
    requires part { part < 10 ^ scale }
    ensures ok { OnOk result (out.new ≡ out.old ++ last_digits scale part ++ behind ∷ []) }
    ensures err { OnErr result (Extends out.old out.new) }
{
    if scale > 8 {
        return say_long_fraction(out, part, scale, behind);
    }
    let before = out.as_slice().len();
    out.extend_from_slice(&eight_digits((part * short_power(8 - scale)) as u32))?;
    out.truncate(before + scale as usize);
    out.push(behind)
}

// The same of any number of digits: those of a number behind a one, without the one.
#[inline(never)]
fn say_long_fraction(out: &mut Reply, part: u64, scale: u32, behind: u8) -> Result<(), AllocError>
    requires scale { scale ≤ SHORT_DIGITS }
    requires part { part < 10 ^ scale }
    ensures ok { OnOk result (out.new ≡ out.old ++ last_digits scale part ++ behind ∷ []) }
    ensures err { OnErr result (Extends out.old out.new) }
{
    say_without_first(out, short_power(scale) + part)?;
    out.push(behind)
}

// The last eight digits of a number.
#[inline(always)]
fn eight_digits(number: u32) -> [u8; 8]
    requires { number < 100_000_000 }
    ensures { result ≡ last_digits 8 number }
{
    let [a, b] = two_digits(number / 1_000_000);
    let [c, d] = two_digits(number / 10_000 % 100);
    let [e, f] = two_digits(number / 100 % 100);
    let [g, h] = two_digits(number % 100);
    [a, b, c, d, e, f, g, h]
}

// Ten to the power of a decimal's scale.
#[inline(always)]
fn short_power(scale: u32) -> u64
    requires { scale ≤ SHORT_DIGITS }
    ensures { result ≡ 10 ^ scale }
{
    POWERS[scale as usize]
}

// Says a size of 64 bits, and a byte behind it.
fn say_size(out: &mut Reply, size: u64, behind: u8) -> Result<(), AllocError>
    ensures ok { OnOk result (out.new ≡ out.old ++ decimal size ++ behind ∷ []) }
    ensures err { OnErr result (Extends out.old out.new) }
{
    if size < 100_000_000 {
        return say_few_digits(out, size as u32, behind);
    }
    say_digits(out, size)?;
    out.push(behind)
}

// Says a number of 128 bits with so many digits after the point, and a byte behind it.
fn say_long_decimal(out: &mut Reply, number: i128, scale: u32, behind: u8) -> Result<(), AllocError>
    requires { scale ≤ most_scale }
    ensures ok { OnOk result (out.new ≡ out.old ++ number_text scale number ++ behind ∷ []) }
    ensures err { OnErr result (Extends out.old out.new) }
{
    if number < 0 {
        out.push(b'-')?;
    }
    say_long_size(out, number.unsigned_abs(), scale)?;
    out.push(behind)
}

// Says a size of 128 bits with so many digits after the point.
#[tactic(auto, using(ts_row::proofs::LiteralLemmas::powers, crate::proofs::NumberLemmas::bounds))]
fn say_long_size(out: &mut Reply, size: u128, scale: u32) -> Result<(), AllocError>
    requires { scale ≤ most_scale }
    ensures ok { OnOk result (out.new ≡ out.old ++ size_text scale size) }
    ensures err { OnErr result (Extends out.old out.new) }
{
    if scale == 0 {
        return say_digits(out, size);
    }
    let one = 10u128.pow(scale);
    say_parts(out, size / one, one + size % one)
}

// Says a number before the point, and behind it the digits of another without its first.
fn say_parts<I: Integer>(out: &mut Reply, whole: I, behind: I) -> Result<(), AllocError>
    ensures ok { OnOk result (out.new ≡ out.old ++ I.text whole ++ 46 ∷ drop 1 (I.text behind)) }
    ensures err { OnErr result (Extends out.old out.new) }
{
    say_digits(out, whole)?;
    out.push(b'.')?;
    say_without_first(out, behind)
}

// Says the digits of a number without its first.
fn say_without_first<I: Integer>(out: &mut Reply, number: I) -> Result<(), AllocError>
    ensures ok { OnOk result (out.new ≡ out.old ++ drop 1 (I.text number)) }
    ensures err { OnErr result (Extends out.old out.new) }
{
    let mut buffer = Buffer::new();
    let Some((_, digits)) = buffer.format(number).as_bytes().split_first() else {
        return Ok(());
    };
    out.extend_from_slice(digits)
}

// Says the digits of a number.
fn say_digits<I: Integer>(out: &mut Reply, number: I) -> Result<(), AllocError>
    ensures ok { OnOk result (out.new ≡ out.old ++ I.text number) }
    ensures err { OnErr result (Extends out.old out.new) }
{
    let mut buffer = Buffer::new();
    out.extend_from_slice(buffer.format(number).as_bytes())
}
