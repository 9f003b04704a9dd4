// The bytes of values: each function takes the first column and goes on with the others, at most 32 in all.
ghost use Rattle.std.specs.Prelude.{◌≡◌, ◌+◌, ◌-◌, ◌^◌, ◌<◌, ◌≤◌, nat_lt, if◌then◌else◌, IsTrue, ◌∷◌, ◌++◌, length};
ghost use Rattle.std.specs.Prelude.{unsigned_abs, replicate};
ghost use Rattle.std.specs.List.{list_all};
ghost use Rattle.std.specs.Int.{w64, w128, to_be_bytes, cast_unsigned};
ghost use Rattle.ts_row.specs.Row.{column_width, is_kind, width_of, holds, holds_size, hold};
ghost use Rattle.ts_row.specs.Encoding.{number_bytes, value_bytes, values_bytes};

use crate::{Column, ColumnKind, SHORT_DIGITS, Value};

/// Writes the bytes of values.
#[tactic(auto, using(crate::proofs::EncodingLemmas::parts))]
pub(crate) fn encode_values(columns: &[Column], values: &[Value], into: &mut [u8])
    requires kinds { IsTrue (list_all (λ c. is_kind c.kind) columns.now) }
    requires hold { IsTrue (hold columns.now values.now) }
    requires room { length into.old ≡ width_of columns.now }
    ensures { into.new ≡ values_bytes columns.now values.now }
{
    let Some((column, columns)) = columns.split_first() else {
        return;
    };
    let Some((value, values)) = values.split_first() else {
        return;
    };
    let width = column.kind.width();
    encode_value(column.kind, value, &mut into[..width]);
    encode_values(columns, values, &mut into[width..]);
}

// Writes the bytes of a value.
fn encode_value(kind: ColumnKind, value: &Value, cell: &mut [u8])
    requires kind { IsTrue (is_kind kind) }
    requires holds { IsTrue (holds kind value.now) }
    requires room { length cell.old ≡ column_width kind }
    ensures { cell.new ≡ value_bytes kind value.now }
{
    match value {
        Value::Null => cell.fill(0),
        Value::Number(number) => encode_number(kind, *number, cell),
        Value::Text(text) => encode_text(text.as_slice(), cell),
    }
}

// Writes the bytes of a number.
fn encode_number(kind: ColumnKind, number: i128, cell: &mut [u8])
    requires kind { IsTrue (is_kind kind) }
    requires holds { IsTrue (holds_size kind (unsigned_abs number)) }
    requires room { length cell.old ≡ column_width kind }
    ensures { cell.new ≡ 1 ∷ number_bytes kind number }
{
    match kind {
        ColumnKind::SmallInt => encode_filled(&(number as i16).to_be_bytes(), cell),
        ColumnKind::Integer => encode_filled(&(number as i32).to_be_bytes(), cell),
        ColumnKind::BigInt => encode_eight(number, cell),
        ColumnKind::Decimal { digits, .. } => encode_decimal(digits, number, cell),
        ColumnKind::VarChar { .. } => unreachable!(),
    }
}

// Writes a number of a decimal.
fn encode_decimal(digits: u16, number: i128, cell: &mut [u8])
    requires below { unsigned_abs number < 10 ^ digits }
    requires room { length cell.old ≡ (if nat_lt SHORT_DIGITS digits then 17 else 9) }
    ensures { cell.new ≡ 1 ∷ (if nat_lt SHORT_DIGITS digits then to_be_bytes w128 (cast_unsigned w128 number)
        else to_be_bytes w64 (cast_unsigned w64 number)) }
{
    if digits > SHORT_DIGITS {
        encode_filled(&number.to_be_bytes(), cell);
    } else {
        encode_eight(number, cell);
    }
}

// Writes a number of 64 bits.
fn encode_eight(number: i128, cell: &mut [u8])
    requires fits { unsigned_abs number < 2 ^ 63 }
    requires room { length cell.old ≡ 9 }
    ensures { cell.new ≡ 1 ∷ to_be_bytes w64 (cast_unsigned w64 number) }
{
    encode_filled(&(number as i64).to_be_bytes(), cell);
}

// Writes that there is a value, and its bytes.
#[tactic(auto, using(crate::proofs::EncodingLemmas::behind_one))]
fn encode_filled(bytes: &[u8], cell: &mut [u8])
    requires { length bytes.now + 1 ≡ length cell.old }
    ensures { cell.new ≡ 1 ∷ bytes.now }
{
    cell[0] = 1;
    cell[1..].copy_from_slice(bytes);
}

// Writes the bytes of a text.
#[tactic(auto, using(crate::proofs::EncodingLemmas::behind_two))]
fn encode_text(text: &[u8], cell: &mut [u8])
    requires short { length text.now < 256 }
    requires room { length text.now + 2 ≤ length cell.old }
    ensures { cell.new ≡ 1 ∷ length text.now ∷ text.now
        ++ replicate (length cell.old - 2 - length text.now) 0 }
{
    cell[0] = 1;
    cell[1] = text.len() as u8;
    pad(text, &mut cell[2..]);
}

// Writes a text and zeros.
#[tactic(auto, using(crate::proofs::EncodingLemmas::over_zeros))]
fn pad(text: &[u8], into: &mut [u8])
    requires { length text.now ≤ length into.old }
    ensures { into.new ≡ text.now ++ replicate (length into.old - length text.now) 0 }
{
    into.fill(0);
    into[..text.len()].copy_from_slice(text);
}
