// What is printed of values.
ghost use Rattle.std.specs.Prelude.{◌≡◌, ◌↔◌, ◌⊎◌, ◌≤◌, ◌++◌, IsTrue, OnOk, OnErr, length};
ghost use Rattle.std.specs.List.{list_all, flat_map};
ghost use Rattle.std.specs.Fmt.{decimal};
ghost use Rattle.ts_row.specs.Row.{is_kind, last_digits, fraction_text, size_text, number_text, quoted, value_text};
ghost use Rattle.ts_row.specs.Row.{values_text, Extends};

use crate::{Column, Value};
use std::alloc::{AllocError, Global};
use ts_base::Bytes;

/// Prints a value, a number as a decimal with this scale. Want of memory changes nothing.
#[tactic(auto, using(crate::proofs::PrintLemmas::cut_back))]
pub fn print_value(
    _alloc: Global,
    value: &Value,
    scale: u8,
    out: &mut Bytes,
) -> Result<(), AllocError>
    requires { scale ≤ 34 }
    ensures ok { OnOk result (out.new ≡ out.old ++ value_text scale value.now) }
    ensures err { OnErr result (out.new ≡ out.old) }
{
    let before = out.as_slice().len();
    match print_scaled(value, scale as u32, out) {
        Ok(()) => Ok(()),
        Err(error) => {
            out.truncate(before);
            Err(error)
        }
    }
}

// Prints values, each as its column prints it, with commas between them.
pub(crate) fn print_values(
    columns: &[Column],
    values: &[Value],
    out: &mut Bytes,
) -> Result<(), AllocError>
    requires kinds { IsTrue (list_all (λ c. is_kind c.kind) columns.now) }
    ensures ok { OnOk result (out.new ≡ out.old ++ values_text columns.now values.now) }
    ensures err { OnErr result (Extends out.old out.new) }
{
    let Some((column, columns)) = columns.split_first() else {
        return Ok(());
    };
    let Some((value, values)) = values.split_first() else {
        return Ok(());
    };
    print_scaled(value, column.kind.scale() as u32, out)?;
    if is_end(columns, values) {
        return Ok(());
    }
    out.push(b',')?;
    print_values(columns, values, out)
}

// Whether there are no columns or no values.
fn is_end(columns: &[Column], values: &[Value]) -> bool
    ensures { IsTrue result ↔ (length columns.now ≡ 0) ⊎ (length values.now ≡ 0) }
{
    columns.is_empty() || values.is_empty()
}

// Prints a value, a number as a decimal with this scale.
fn print_scaled(value: &Value, scale: u32, out: &mut Bytes) -> Result<(), AllocError>
    requires { scale ≤ 34 }
    ensures ok { OnOk result (out.new ≡ out.old ++ value_text scale value.now) }
    ensures err { OnErr result (Extends out.old out.new) }
{
    match value {
        Value::Null => out.extend_from_slice(b"null"),
        Value::Number(number) => print_number(*number, scale, out),
        Value::Text(text) => print_text(text.as_slice(), out),
    }
}

// Prints a number with so many digits after the point.
#[tactic(auto, using(crate::proofs::LiteralLemmas::powers))]
fn print_number(number: i128, scale: u32, out: &mut Bytes) -> Result<(), AllocError>
    requires { scale ≤ 34 }
    ensures ok { OnOk result (out.new ≡ out.old ++ number_text scale number) }
    ensures err { OnErr result (Extends out.old out.new) }
{
    if number < 0 {
        out.push(b'-')?;
    }
    let size = number.unsigned_abs();
    print_decimal(size / 10u128.pow(scale), out)?;
    if scale == 0 {
        return Ok(());
    }
    out.push(b'.')?;
    print_last_digits(scale, size, out)
}

// Prints a number with no leading zeros.
#[tactic(auto, using(crate::proofs::PrintLemmas::digits))]
fn print_decimal(number: u128, out: &mut Bytes) -> Result<(), AllocError>
    ensures ok { OnOk result (out.new ≡ out.old ++ decimal number) }
    ensures err { OnErr result (Extends out.old out.new) }
{
    if number < 10 {
        return out.push(b'0' + number as u8);
    }
    print_decimal(number / 10, out)?;
    out.push(b'0' + (number % 10) as u8)
}

// Prints the last digits of a number, this many.
fn print_last_digits(count: u32, number: u128, out: &mut Bytes) -> Result<(), AllocError>
    ensures ok { OnOk result (out.new ≡ out.old ++ last_digits count number) }
    ensures err { OnErr result (Extends out.old out.new) }
{
    if count == 0 {
        return Ok(());
    }
    print_last_digits(count - 1, number / 10, out)?;
    out.push(b'0' + (number % 10) as u8)
}

// Prints a text in quotes, each quote in it twice.
fn print_text(text: &[u8], out: &mut Bytes) -> Result<(), AllocError>
    ensures ok { OnOk result (out.new ≡ out.old ++ value_text 0 (Value.Text text.now)) }
    ensures err { OnErr result (Extends out.old out.new) }
{
    out.push(b'\'')?;
    for byte in text {
        if *byte == b'\'' {
            out.push(b'\'')?;
        }
        out.push(*byte)?;
    }
    out.push(b'\'')
}
