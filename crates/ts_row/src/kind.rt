ghost use Rattle.std.specs.Prelude.{◌≡◌, ◌<◌, ◌≤◌, ◌^◌, nat_lt, if◌then◌else◌, IsTrue};
ghost use Rattle.ts_row.specs.Row.{column_width, is_kind, is_long, scale_of, holds_size, holds_text, takes_scale};

use ts_base::{Name, is_text};

/// The most digits of a decimal.
pub const MOST_DIGITS: u16 = 28;

/// The most digits of a decimal whose numbers have eight bytes; with more they have sixteen.
pub const SHORT_DIGITS: u16 = 18;

/// The type of a value column.
#[derive(Clone, Copy, Debug, PartialEq, Eq)]
pub enum ColumnKind {
    SmallInt,
    Integer,
    BigInt,
    /// Numbers of this many digits, of which `scale` stand after the point.
    Decimal { digits: u16, scale: u16 },
    /// Texts of at most this many bytes.
    VarChar { length: u16 },
}

/// A value column of a row type.
#[derive(Debug, Drop)]
pub struct Column {
    pub name: Name,
    pub kind: ColumnKind,
}

impl ColumnKind {
    /// The bytes that a column has in a row.
    pub fn width(self) -> usize
        ensures { result ≡ column_width self }
    {
        match self {
            ColumnKind::SmallInt => 3,
            ColumnKind::Integer => 5,
            ColumnKind::BigInt => 9,
            ColumnKind::Decimal { digits, .. } => decimal_width(digits),
            ColumnKind::VarChar { length } => length as usize + 2,
        }
    }

    /// Whether it is a decimal of over 18 digits.
    pub fn is_long(self) -> bool
        ensures { result ≡ is_long self }
    {
        match self {
            ColumnKind::Decimal { digits, .. } => digits > SHORT_DIGITS,
            _ => false,
        }
    }

    /// The digits after the point of the column's numbers.
    pub fn scale(self) -> u16
        ensures { result ≡ scale_of self }
    {
        match self {
            ColumnKind::Decimal { scale, .. } => scale,
            _ => 0,
        }
    }

    // Whether its digits, its scale or its length is one that may be.
    pub(crate) fn is_valid(self) -> bool
        ensures { result ≡ is_kind self }
    {
        match self {
            ColumnKind::Decimal { digits, scale } => {
                1 <= digits && digits <= MOST_DIGITS && scale <= digits
            }
            ColumnKind::VarChar { length } => 1 <= length && length <= 255,
            _ => true,
        }
    }

    // Whether the column holds numbers of this size.
    pub(crate) fn holds_size(self, size: u128) -> bool
        requires { IsTrue (is_kind self) }
        ensures { result ≡ holds_size self size }
    {
        match self {
            ColumnKind::SmallInt => size <= 32_767,
            ColumnKind::Integer => size <= 2_147_483_647,
            ColumnKind::BigInt => size <= 9_223_372_036_854_775_807,
            ColumnKind::Decimal { digits, .. } => size < power_of_ten(digits),
            ColumnKind::VarChar { .. } => false,
        }
    }

    // Whether the column holds this text.
    pub(crate) fn holds_text(self, text: &[u8]) -> bool
        ensures { result ≡ holds_text self text.now }
    {
        match self {
            ColumnKind::VarChar { length } => text.len() <= length as usize && is_text(text),
            _ => false,
        }
    }

    // Whether the column takes numbers that are written with so many digits after a point.
    pub(crate) fn takes_scale(self, scale: u8) -> bool
        ensures { result ≡ takes_scale self scale }
    {
        match self {
            ColumnKind::Decimal { .. } => true,
            ColumnKind::VarChar { .. } => false,
            _ => scale == 0,
        }
    }
}

// The bytes that a decimal has in a row.
fn decimal_width(digits: u16) -> usize
    ensures { result ≡ (if nat_lt SHORT_DIGITS digits then 17 else 9) }
{
    if digits > SHORT_DIGITS { 17 } else { 9 }
}

// Ten to the power of a decimal's digits; up to 18 digits it is made in 64 bits.
#[tactic(auto, using(crate::proofs::LiteralLemmas::powers))]
fn power_of_ten(digits: u16) -> u128
    requires { digits ≤ MOST_DIGITS }
    ensures { result ≡ 10 ^ digits }
{
    if digits > SHORT_DIGITS {
        10u128.pow(digits as u32)
    } else {
        10u64.pow(digits as u32) as u128
    }
}
