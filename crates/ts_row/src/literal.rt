// The values that literals give: the number units / 10^written is brought to the column's scale.
ghost use Rattle.std.specs.Prelude.{◌≡◌, ◌-◌, ◌*◌, ◌/◌, ◌%◌, ◌^◌, ◌==◌, ◌<◌, ◌≤◌, IsTrue, IfOk, IfErr, OnOk, IsOkAnd};
ghost use Rattle.std.specs.Prelude.{IfSome, ◌+◌, ◌++◌, length, Some, None, if◌then◌else◌};
ghost use Rattle.std.specs.Option.{option_and_then};
ghost use Rattle.ts_row.specs.Row.{is_kind, rescaled, size_if_any, size_if_fits, value_if_any, with_sign, values_from};
ghost use Rattle.ts_row.specs.Row.{IsTroubleOf};
ghost use Rattle.std.specs.List.{list_all};
ghost use Rattle.ts_base.specs.declared.fault.Trouble.TheVariants.{Refused};
ghost use Rattle.ts_base.specs.declared.refusal.Refusal.TheVariants.{RowMismatch};
ghost use Rattle.ts_row.specs.declared.value.Literal.TheVariants.{Number as NumberLiteral};

use crate::{Column, ColumnKind, Literal, Value};
use std::alloc::AllocError;
use ts_base::{Refusal, Trouble};

// Puts the values that literals give to the end of others: that of the first column, then those of the rest.
// The columns, at most 32 in all, count from `number`.
pub(crate) fn read_values(
    columns: &[Column],
    literals: &[Literal],
    number: u8,
    given: &mut Vec<Value>,
) -> Result<(), Trouble>
    requires kinds { IsTrue (list_all (λ c. is_kind c.kind) columns.now) }
    requires few { number + length columns.now ≤ 33 }
    ensures ok { OnOk result (IsOkAnd (values_from number columns.now literals.now)
        (λ values. given.new.items ≡ given.old.items ++ values)) }
    ensures cause { IfErr result (IsTroubleOf (values_from number columns.now literals.now)) }
{
    let Some((column, columns)) = columns.split_first() else {
        return if literals.is_empty() {
            Ok(())
        } else {
            Err(mismatch(number))
        };
    };
    let Some((literal, literals)) = literals.split_first() else {
        return Err(mismatch(number));
    };
    let Some(value) = value_of(column.kind, literal)? else {
        return Err(mismatch(number));
    };
    given.push(value)?;
    read_values(columns, literals, number + 1, given)
}

// The refusal of a row at this column.
fn mismatch(column: u8) -> Trouble
    ensures { result ≡ Refused (RowMismatch column) }
{
    Trouble::Refused(Refusal::RowMismatch { column })
}

// The value of a column that a literal gives, if it fits.
fn value_of(kind: ColumnKind, literal: &Literal) -> Result<Option<Value>, AllocError>
    requires { IsTrue (is_kind kind) }
    ensures { IfOk result (λ found. found ≡ value_if_any kind literal.now) }
{
    match literal {
        Literal::Null => Ok(Some(Value::Null)),
        Literal::Number { units, scale } => Ok(number_of(kind, *units, *scale)),
        Literal::Text(text) => {
            if !kind.holds_text(text.as_slice()) {
                return Ok(None);
            }
            Ok(Some(Value::Text(text.copy()?)))
        }
    }
}

// The value that the number units / 10^written gives.
fn number_of(kind: ColumnKind, units: i128, written: u8) -> Option<Value>
    requires { IsTrue (is_kind kind) }
    ensures { result ≡ value_if_any kind (NumberLiteral units written) }
{
    let size = size_of(kind, units.unsigned_abs(), written)?;
    Some(Value::Number(with_sign(units, size)))
}

// A number of this size with the sign of another.
fn with_sign(units: i128, size: u128) -> i128
    requires { size < 2 ^ 127 }
    ensures { result ≡ with_sign units size }
{
    let size = size as i128;
    if units < 0 { -size } else { size }
}

// The size of the number, if the column takes it.
#[tactic(auto, using(crate::proofs::LiteralLemmas::held))]
fn size_of(kind: ColumnKind, size: u128, written: u8) -> Option<u128>
    requires { IsTrue (is_kind kind) }
    ensures value { result ≡ size_if_any kind size written }
    ensures bound { IfSome result (λ n. n < 2 ^ 127) }
{
    if !kind.takes_scale(written) {
        return None;
    }
    let size = rescale(size, written as u32, kind.scale() as u32)?;
    if kind.holds_size(size) {
        Some(size)
    } else {
        None
    }
}

// A number of one scale as one of another, where it is whole and fits.
#[tactic(auto, using(crate::proofs::LiteralLemmas::scales))]
fn rescale(size: u128, written: u32, scale: u32) -> Option<u128>
    requires { scale < 32 }
    ensures { result ≡ option_and_then size_if_fits (rescaled size written scale) }
{
    if written <= scale {
        raise(size, scale - written)
    } else {
        lower(size, written - scale)
    }
}

// With so many digits more after the point.
#[tactic(auto, using(crate::proofs::LiteralLemmas::ten_pow_small))]
fn raise(size: u128, by: u32) -> Option<u128>
    requires { by < 32 }
    ensures { result ≡ size_if_fits (size * 10 ^ by) }
{
    size.checked_mul(10u128.pow(by))
}

// With so many digits fewer after the point, where all these are 0.
#[tactic(auto, using(crate::proofs::LiteralLemmas::ten_pow_positive, crate::proofs::LiteralLemmas::lower_too_far))]
fn lower(size: u128, by: u32) -> Option<u128>
    requires { 0 < by }
    ensures { result ≡ (if size % 10 ^ by == 0 then Some (size / 10 ^ by) else None) }
{
    let Some(power) = 10u128.checked_pow(by) else {
        return if size == 0 { Some(0) } else { None };
    };
    if size % power == 0 {
        Some(size / power)
    } else {
        None
    }
}
