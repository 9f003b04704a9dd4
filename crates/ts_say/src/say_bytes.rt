// Values said straight from the bytes of their columns, at most 32.
ghost use Rattle.std.specs.Prelude.{◌≡◌, ◌≤◌, ◌+◌, [], ◌∷◌, ◌++◌, nat_lt, if◌then◌else◌, IsTrue, Some, length};
ghost use Rattle.std.specs.Prelude.{OnOk, OnErr};
ghost use Rattle.std.specs.List.{list_all};
ghost use Rattle.std.specs.Int.{cast_signed, from_be_bytes, w64, w128};
ghost use Rattle.ts_row.specs.declared.value.Value.{Value};
ghost use Rattle.ts_row.specs.Row.{column_width, is_kind, scale_of, width_of, Values, number_text, value_text};
ghost use Rattle.ts_row.specs.Row.{values_text, Extends};
ghost use Rattle.ts_row.specs.Decoding.{text_in, filled_in, value_in, values_in};

use crate::say_numbers::{say_scaled, say_short_decimal, say_whole};
use crate::say_values::{say_null, say_text};
use std::alloc::AllocError;
use ts_base::Reply;
use ts_row::{Column, ColumnKind, MOST_DIGITS, SHORT_DIGITS};

/// Says the values that bytes are, with commas between them and a line feed behind the last. Bytes that are no values
/// are said as any.
pub(crate) fn say_values_in(
    out: &mut Reply,
    columns: &[Column],
    bytes: &[u8],
) -> Result<(), AllocError>
    requires kinds { IsTrue (list_all (λ c. is_kind c.kind) columns.now) }
    requires size { length bytes.now ≡ width_of columns.now }
    ensures ok { OnOk result ((values : Values) → values_in columns.now bytes.now ≡ Some values
        → out.new ≡ out.old ++ values_text columns.now values ++ 10 ∷ []) }
    ensures err { OnErr result (Extends out.old out.new) }
{
    let Some((column, others)) = columns.split_first() else {
        return out.push(b'\n');
    };
    // Of one column the bytes are all that there are.
    if others.is_empty() {
        return say_value_in(out, &column.kind, bytes, b'\n');
    }
    say_each_in(out, columns, bytes)
}

// The same of any number of columns, one by one.
#[inline(never)]
fn say_each_in(out: &mut Reply, columns: &[Column], bytes: &[u8]) -> Result<(), AllocError>
    requires kinds { IsTrue (list_all (λ c. is_kind c.kind) columns.now) }
    requires size { length bytes.now ≡ width_of columns.now }
    ensures ok { OnOk result ((values : Values) → values_in columns.now bytes.now ≡ Some values
        → out.new ≡ out.old ++ values_text columns.now values ++ 10 ∷ []) }
    ensures err { OnErr result (Extends out.old out.new) }
{
    let Some((column, columns)) = columns.split_first() else {
        return out.push(b'\n');
    };
    let (cell, rest) = bytes.split_at(column.kind.width());
    if columns.is_empty() {
        return say_value_in(out, &column.kind, cell, b'\n');
    }
    say_value_in(out, &column.kind, cell, b',')?;
    say_each_in(out, columns, rest)
}

// Says the value that the bytes of a column are, and a byte behind it; behind what was said, whatever the bytes are.
fn say_value_in(
    out: &mut Reply,
    kind: &ColumnKind,
    cell: &[u8],
    behind: u8,
) -> Result<(), AllocError>
    requires kind { IsTrue (is_kind kind.now) }
    requires size { length cell.now ≡ column_width kind.now }
    ensures ok { OnOk result ((value : Value) → value_in kind.now cell.now ≡ Some value
        → out.new ≡ out.old ++ value_text (scale_of kind.now) value ++ behind ∷ []) }
    ensures front { OnOk result (Extends out.old out.new) }
    ensures err { OnErr result (Extends out.old out.new) }
{
    let Some((flag, bytes)) = cell.split_first() else {
        return Ok(());
    };
    if *flag == 0 {
        return say_null(out, behind);
    }
    say_filled_in(out, kind, bytes, behind)
}

// Says the value that bytes are, which aren't NULL's, and a byte behind it. What is said in many steps stands by
// itself, so that a whole number is said with no register kept.
fn say_filled_in(
    out: &mut Reply,
    kind: &ColumnKind,
    bytes: &[u8],
    behind: u8,
) -> Result<(), AllocError>
    requires kind { IsTrue (is_kind kind.now) }
    requires size { length bytes.now + 1 ≡ column_width kind.now }
    ensures ok { OnOk result ((value : Value) → filled_in kind.now bytes.now ≡ Some value
        → out.new ≡ out.old ++ value_text (scale_of kind.now) value ++ behind ∷ []) }
    ensures front { OnOk result (Extends out.old out.new) }
    ensures err { OnErr result (Extends out.old out.new) }
{
    match kind {
        ColumnKind::SmallInt => {
            let number = i16::from_be_bytes([bytes[0], bytes[1]]);
            say_whole(out, number as i64, behind)
        }
        ColumnKind::Integer => {
            let number = i32::from_be_bytes([bytes[0], bytes[1], bytes[2], bytes[3]]);
            say_whole(out, number as i64, behind)
        }
        ColumnKind::BigInt => say_whole(out, eight_bytes(bytes), behind),
        ColumnKind::Decimal { digits, scale } => {
            say_decimal_in(out, *digits, *scale, bytes, behind)
        }
        ColumnKind::VarChar { length } => say_text_in(out, *length, bytes, behind),
    }
}

// Says the number of a decimal that bytes are, and a byte behind it.
#[inline(never)]
fn say_decimal_in(
    out: &mut Reply,
    digits: u16,
    scale: u16,
    bytes: &[u8],
    behind: u8,
) -> Result<(), AllocError>
    requires digits { digits ≤ MOST_DIGITS }
    requires scale { scale ≤ digits }
    requires size { length bytes.now ≡ (if nat_lt SHORT_DIGITS digits then 16 else 8) }
    ensures ok { OnOk result (out.new ≡ out.old ++ number_text scale (if nat_lt SHORT_DIGITS digits
        then cast_signed w128 (from_be_bytes w128 bytes.now) else cast_signed w64 (from_be_bytes w64 bytes.now))
        ++ behind ∷ []) }
    ensures err { OnErr result (Extends out.old out.new) }
{
    if digits > SHORT_DIGITS {
        say_scaled(out, sixteen_bytes(bytes), scale as u32, behind)
    } else {
        say_short_decimal(out, eight_bytes(bytes), scale as u32, behind)
    }
}

// The number that sixteen bytes are.
fn sixteen_bytes(bytes: &[u8]) -> i128
    requires { length bytes.now ≡ 16 }
    ensures { result ≡ cast_signed w128 (from_be_bytes w128 bytes.now) }
{
    i128::from_be_bytes([
        bytes[0], bytes[1], bytes[2], bytes[3], bytes[4], bytes[5], bytes[6], bytes[7], bytes[8],
        bytes[9], bytes[10], bytes[11], bytes[12], bytes[13], bytes[14], bytes[15],
    ])
}

// The number that eight bytes are.
fn eight_bytes(bytes: &[u8]) -> i64
    requires { length bytes.now ≡ 8 }
    ensures { result ≡ cast_signed w64 (from_be_bytes w64 bytes.now) }
{
    i64::from_be_bytes([
        bytes[0], bytes[1], bytes[2], bytes[3], bytes[4], bytes[5], bytes[6], bytes[7],
    ])
}

// Says the text that a length, bytes and zeros are, and a byte behind it.
#[inline(never)]
fn say_text_in(out: &mut Reply, most: u16, bytes: &[u8], behind: u8) -> Result<(), AllocError>
    requires { length bytes.now ≡ most + 1 }
    ensures ok { OnOk result ((value : Value) → text_in most bytes.now ≡ Some value
        → out.new ≡ out.old ++ value_text 0 value ++ behind ∷ []) }
    ensures front { OnOk result (Extends out.old out.new) }
    ensures err { OnErr result (Extends out.old out.new) }
{
    let Some((length, bytes)) = bytes.split_first() else {
        return Ok(());
    };
    let Some(text) = bytes.get(..*length as usize) else {
        return Ok(());
    };
    say_text(out, text, behind)
}
