// The row that bytes are: each function takes the first column and goes on with the others, at most 32 in all.
ghost use Rattle.std.specs.Prelude.{◌≡◌, ◌≤◌, ◌+◌, ◌∷◌, ◌++◌, nat_lt, if◌then◌else◌, IsTrue, IfOk, MatchOption, length};
ghost use Rattle.std.specs.Prelude.{true, false};
ghost use Rattle.std.specs.List.{list_all};
ghost use Rattle.std.specs.Int.{cast_signed, from_be_bytes, w64, w128};
ghost use Rattle.ts_row.specs.Row.{column_width, is_kind};
ghost use Rattle.ts_row.specs.Decoding.{all_zero, number_in, text_in, filled_in, value_in, values_in, row_in};

use crate::mark::{is_mark, unmarked};
use crate::zeros::is_zero;
use crate::{Column, ColumnKind, Row, SHORT_DIGITS, Value};
use std::alloc::{AllocError, Global};
use ts_base::{Bytes, is_text};

/// The row that bytes are, if they are one's.
pub(crate) fn decode(
    alloc: Global,
    columns: &[Column],
    from: &[u8],
) -> Result<Option<Row>, AllocError>
    requires kinds { IsTrue (list_all (λ c. is_kind c.kind) columns.now) }
    requires some { 1 ≤ length columns.now }
    ensures { IfOk result (λ found. found ≡ row_in columns.now from.now) }
{
    let Some((first, behind)) = from.split_first() else {
        return Ok(None);
    };
    let mut values = Vec::with_capacity(alloc, columns.len())?;
    if !decode_values(alloc, columns, unmarked(*first), behind, &mut values)? {
        return Ok(None);
    }
    let mut row = Row::of(values);
    row.mark(is_mark(*first));
    Ok(Some(row))
}

// Puts the values that a byte and those behind it are to the end of others, and says whether they are values.
fn decode_values(
    alloc: Global,
    columns: &[Column],
    flag: u8,
    behind: &[u8],
    values: &mut Vec<Value>,
) -> Result<bool, AllocError>
    requires kinds { IsTrue (list_all (λ c. is_kind c.kind) columns.now) }
    ensures { IfOk result (λ found. MatchOption (values_in columns.now (flag ∷ behind.now)) (found ≡ false)
        (λ more. (found ≡ true) × (values.new.items ≡ values.old.items ++ more))) }
{
    let Some((column, columns)) = columns.split_first() else {
        return Ok(false);
    };
    let size = column.kind.width() - 1;
    if behind.len() < size {
        return Ok(false);
    }
    let (bytes, rest) = behind.split_at(size);
    let Some(value) = decode_value(alloc, column.kind, flag, bytes)? else {
        return Ok(false);
    };
    values.push(value)?;
    let Some((flag, behind)) = rest.split_first() else {
        return Ok(columns.is_empty());
    };
    decode_values(alloc, columns, *flag, behind, values)
}

// The value that the bytes of a column are, if they are one's.
fn decode_value(
    alloc: Global,
    kind: ColumnKind,
    flag: u8,
    bytes: &[u8],
) -> Result<Option<Value>, AllocError>
    requires kind { IsTrue (is_kind kind) }
    requires room { length bytes.now + 1 ≡ column_width kind }
    ensures { IfOk result (λ found. found ≡ value_in kind (flag ∷ bytes.now)) }
{
    match flag {
        0 => Ok(if is_zero(bytes) {
            Some(Value::Null)
        } else {
            None
        }),
        1 => decode_filled(alloc, kind, bytes),
        _ => Ok(None),
    }
}

// The value that bytes are, which aren't NULL's.
fn decode_filled(alloc: Global, kind: ColumnKind, bytes: &[u8]) -> Result<Option<Value>, AllocError>
    requires kind { IsTrue (is_kind kind) }
    requires room { length bytes.now + 1 ≡ column_width kind }
    ensures { IfOk result (λ found. found ≡ filled_in kind bytes.now) }
{
    if let ColumnKind::VarChar { length } = kind {
        return decode_text(alloc, length, bytes);
    }
    let number = decode_number(kind, bytes);
    Ok(if kind.holds_size(number.unsigned_abs()) {
        Some(Value::Number(number))
    } else {
        None
    })
}

/// The number that bytes are.
pub(crate) fn decode_number(kind: ColumnKind, bytes: &[u8]) -> i128
    requires room { length bytes.now + 1 ≡ column_width kind }
    ensures { result ≡ number_in kind bytes.now }
{
    match kind {
        ColumnKind::SmallInt => i16::from_be_bytes([bytes[0], bytes[1]]) as i128,
        ColumnKind::Integer => {
            i32::from_be_bytes([bytes[0], bytes[1], bytes[2], bytes[3]]) as i128
        }
        ColumnKind::BigInt => eight_bytes(bytes) as i128,
        ColumnKind::Decimal { digits, .. } => decode_decimal(digits, bytes),
        ColumnKind::VarChar { .. } => 0,
    }
}

// The number of a decimal that bytes are.
fn decode_decimal(digits: u16, bytes: &[u8]) -> i128
    requires { length bytes.now ≡ (if nat_lt SHORT_DIGITS digits then 16 else 8) }
    ensures { result ≡ (if nat_lt SHORT_DIGITS digits then cast_signed w128 (from_be_bytes w128 bytes.now)
        else cast_signed w64 (from_be_bytes w64 bytes.now)) }
{
    if digits > SHORT_DIGITS {
        sixteen_bytes(bytes)
    } else {
        eight_bytes(bytes) as i128
    }
}

// The number that sixteen bytes are.
fn sixteen_bytes(bytes: &[u8]) -> i128
    requires { length bytes.now ≡ 16 }
    ensures { result ≡ cast_signed w128 (from_be_bytes w128 bytes.now) }
{
    i128::from_be_bytes([
        bytes[0], bytes[1], bytes[2], bytes[3], bytes[4], bytes[5], bytes[6], bytes[7], bytes[8],
        bytes[9], bytes[10], bytes[11], bytes[12], bytes[13], bytes[14], bytes[15],
    ])
}

// The number that eight bytes are.
fn eight_bytes(bytes: &[u8]) -> i64
    requires { length bytes.now ≡ 8 }
    ensures { result ≡ cast_signed w64 (from_be_bytes w64 bytes.now) }
{
    i64::from_be_bytes([
        bytes[0], bytes[1], bytes[2], bytes[3], bytes[4], bytes[5], bytes[6], bytes[7],
    ])
}

// The text that a length, bytes and zeros are.
fn decode_text(alloc: Global, most: u16, bytes: &[u8]) -> Result<Option<Value>, AllocError>
    requires { length bytes.now ≡ most + 1 }
    ensures { IfOk result (λ found. found ≡ text_in most bytes.now) }
{
    let Some((length, bytes)) = bytes.split_first() else {
        return Ok(None);
    };
    let length = *length as usize;
    if length > most as usize {
        return Ok(None);
    }
    let (text, padding) = bytes.split_at(length);
    if !is_zero(padding) || !is_text(text) {
        return Ok(None);
    }
    Ok(Some(Value::Text(Bytes::from_slice(alloc, text)?)))
}
