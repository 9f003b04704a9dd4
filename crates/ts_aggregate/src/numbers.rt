// The numbers that the bytes of a column are.
ghost use Rattle.std.specs.Prelude.{◌≡◌, ◌+◌, ◌^◌, ◌≤◌, unsigned_abs, length};
ghost use Rattle.std.specs.Int.{cast_signed, from_be_bytes, w64};
ghost use Rattle.ts_row.specs.Row.{column_width};
ghost use Rattle.ts_row.specs.Decoding.{number_in};
ghost use Rattle.ts_aggregate.specs.Column.{long_number};
ghost use Rattle.ts_aggregate.specs.Totals.{bytes_in};
ghost use Rattle.ts_aggregate.specs.Totals;

use ts_row::{ColumnKind, SHORT_DIGITS};

/// How many bytes a column's numbers have.
#[derive(Clone, Copy, Debug, PartialEq, Eq)]
pub(crate) enum NumberSize {
    Two,
    Four,
    Eight,
    Sixteen,
}

/// The same of a kind of column.
pub(crate) fn size_of(kind: ColumnKind) -> NumberSize
    ensures { result ≡ Totals.size_of kind }
{
    match kind {
        ColumnKind::SmallInt => NumberSize::Two,
        ColumnKind::Integer => NumberSize::Four,
        ColumnKind::Decimal { digits, .. } if digits > SHORT_DIGITS => NumberSize::Sixteen,
        _ => NumberSize::Eight,
    }
}

/// The number that at most four bytes are.
#[inline(always)]
pub(crate) fn short_number_of_size(size: NumberSize, bytes: &[u8]) -> i64
    requires size { length bytes.now ≡ bytes_in size }
    requires short { bytes_in size ≤ 4 }
    ensures value { result ≡ Totals.number_of_size size bytes.now }
    ensures short { unsigned_abs result ≤ 2 ^ 31 }
{
    match size {
        NumberSize::Two => i16::from_be_bytes([bytes[0], bytes[1]]) as i64,
        NumberSize::Four => i32::from_be_bytes([bytes[0], bytes[1], bytes[2], bytes[3]]) as i64,
        _ => 0,
    }
}

/// The number that so many bytes are.
#[inline(always)]
pub(crate) fn number_of_size(size: NumberSize, bytes: &[u8]) -> i128
    requires { length bytes.now ≡ bytes_in size }
    ensures { result ≡ Totals.number_of_size size bytes.now }
{
    match size {
        NumberSize::Two => i16::from_be_bytes([bytes[0], bytes[1]]) as i128,
        NumberSize::Four => { i32::from_be_bytes([bytes[0], bytes[1], bytes[2], bytes[3]]) as i128 }
        NumberSize::Eight => eight_bytes(bytes) as i128,
        NumberSize::Sixteen => sixteen_bytes(bytes),
    }
}

/// The number that the bytes of a column are.
pub fn number(kind: ColumnKind, bytes: &[u8]) -> i128
    requires { length bytes.now + 1 ≡ column_width kind }
    ensures { result ≡ number_in kind bytes.now }
{
    match kind {
        ColumnKind::Decimal { digits, .. } if digits > SHORT_DIGITS => sixteen_bytes(bytes),
        ColumnKind::VarChar { .. } => 0,
        _ => short_number(kind, bytes) as i128,
    }
}

// The number that at most eight bytes are.
#[inline(always)]
fn short_number(kind: ColumnKind, bytes: &[u8]) -> i64
    requires size { length bytes.now + 1 ≡ column_width kind }
    requires short { length bytes.now ≤ 8 }
    ensures { result ≡ number_in kind bytes.now }
{
    match kind {
        ColumnKind::SmallInt => i16::from_be_bytes([bytes[0], bytes[1]]) as i64,
        ColumnKind::Integer => i32::from_be_bytes([bytes[0], bytes[1], bytes[2], bytes[3]]) as i64,
        ColumnKind::BigInt | ColumnKind::Decimal { .. } => eight_bytes(bytes),
        ColumnKind::VarChar { .. } => 0,
    }
}

// The number that eight bytes are.
#[inline(always)]
fn eight_bytes(bytes: &[u8]) -> i64
    requires { length bytes.now ≡ 8 }
    ensures { result ≡ cast_signed w64 (from_be_bytes w64 bytes.now) }
{
    i64::from_be_bytes([
        bytes[0], bytes[1], bytes[2], bytes[3], bytes[4], bytes[5], bytes[6], bytes[7],
    ])
}

// The number that sixteen bytes are.
#[inline(always)]
fn sixteen_bytes(bytes: &[u8]) -> i128
    requires { length bytes.now ≡ 16 }
    ensures { result ≡ long_number bytes.now }
{
    i128::from_be_bytes([
        bytes[0], bytes[1], bytes[2], bytes[3], bytes[4], bytes[5], bytes[6], bytes[7], bytes[8],
        bytes[9], bytes[10], bytes[11], bytes[12], bytes[13], bytes[14], bytes[15],
    ])
}
