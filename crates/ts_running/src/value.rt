// The values of expressions over the numbers of a row.
ghost use Rattle.std.specs.Prelude.{◌≡◌, ◌+ℤ◌, ◌-ℤ◌, ◌*ℤ◌, neg_ℤ, Some, None, IfOk, IfErr, OnOk, [], map};
ghost use Rattle.std.specs.Prelude.{reverse, slice_index_or};
ghost use Rattle.std.specs.Option.{option_and_then};
ghost use Rattle.ts_row.specs.Row.{Values};
ghost use Rattle.ts_running.specs.Binding.{onto_stack, over_one, over_two, checked, value_if_any, applied, Applies};
ghost use Rattle.ts_running.specs.Binding.{Leaves, ApplyFails};
ghost use Rattle.ts_running.specs.Binding;
ghost use Rattle.ts_running.specs.Instructions.{after_instruction, after_instructions, opposite_if_any, sum_if_any};
ghost use Rattle.ts_running.specs.Instructions.{difference_if_any, product_if_any};
ghost use Rattle.ts_running.specs.Instructions;

use crate::bind::BoundExpr;
use crate::fault::ApplyError;
use crate::instruction::{Instruction, Powers};
use std::alloc::{AllocError, Global};
use std::marker::Model;
use ts_row::{Elem, Row, Value};

/// Room for what expressions make of a row, whose memory stays from row to row. It is seen as the numbers that were
/// made last.
#[derive(Debug, Drop)]
pub struct ApplyRoom {
    stack: Vec<Option<i128>>,
}

impl Model for ApplyRoom {
    ghost use Rattle.std.specs.Prelude.{List, Option, ℤ};

    ghost Value = { List (Option ℤ) };

    ghost view = { λ r. r.stack.items };
}

impl ApplyRoom {
    /// No numbers; it takes no memory.
    pub fn new(alloc: Global) -> ApplyRoom
        ensures { result ≡ [] }
    {
        ApplyRoom {
            stack: Vec::new(alloc),
        }
    }

    /// The numbers that were made last, one for each expression; none for NULL.
    pub fn numbers(&self) -> &[Option<i128>]
        ensures { result.now ≡ self.now }
    {
        self.stack.as_slice()
    }
}

impl BoundExpr {
    /// The visible row of the values of the expressions over the values of an element, whether it is hidden or not.
    /// Overflow comes exactly where some number has no place: what an operation without NULL makes, or an operand of it
    /// that is brought to the scale of the other.
    pub fn apply(&self, elem: &Elem) -> Result<Row, ApplyError>
        ensures { Applies (applied self.now elem.now.row.values) result }
    {
        let alloc = self.allocator();
        let numbers = numbers_of(alloc, elem.row.values())?;
        let mut room = ApplyRoom::new(alloc);
        self.apply_to(numbers.as_slice(), &mut room)?;
        let values = values_of(alloc, room.numbers())?;
        Ok(Row::of(values))
    }

    /// The same of the numbers of a row, one for each column, with none for NULL and for a text: the values are made in
    /// room that is kept.
    pub fn apply_to(&self, numbers: &[Option<i128>], room: &mut ApplyRoom) -> Result<(), ApplyError>
        ensures { (values : Values) → numbers.now ≡ Binding.numbers_of values
            → Leaves (applied self.now values) room.new result }
    {
        let _scales = self.scales();
        carry_out(self.instructions(), numbers, &mut room.stack)
    }
}

// The numbers of values.
fn numbers_of(alloc: Global, values: &[Value]) -> Result<Vec<Option<i128>>, AllocError>
    ensures { IfOk result (λ numbers. numbers.items ≡ Binding.numbers_of values.now) }
{
    let mut numbers = Vec::with_capacity(alloc, values.len())?;
    for value in values {
        numbers.push(number_of(value))?;
    }
    Ok(numbers)
}

// The number of a value: none of NULL and of a text.
fn number_of(value: &Value) -> Option<i128>
    ensures { result ≡ Binding.number_if_any value.now }
{
    match value {
        Value::Number(number) => Some(*number),
        _ => None,
    }
}

// Numbers as values.
fn values_of(alloc: Global, numbers: &[Option<i128>]) -> Result<Vec<Value>, AllocError>
    ensures { IfOk result (λ values. values.items ≡ map value_if_any numbers.now) }
{
    let mut values = Vec::with_capacity(alloc, numbers.len())?;
    for number in numbers {
        values.push(value_of(*number))?;
    }
    Ok(values)
}

fn value_of(number: Option<i128>) -> Value
    ensures { result ≡ value_if_any number }
{
    match number {
        None => Value::Null,
        Some(number) => Value::Number(number),
    }
}

// Carries instructions out over the numbers of a row: the stack that they leave has the last one in front.
fn carry_out(
    instructions: &[Instruction],
    numbers: &[Option<i128>],
    stack: &mut Vec<Option<i128>>,
) -> Result<(), ApplyError>
    ensures ok { OnOk result
        (after_instructions numbers.now instructions.now [] ≡ Some (reverse stack.new.items)) }
    ensures cause { IfErr result (ApplyFails (after_instructions numbers.now instructions.now [])) }
{
    stack.clear();
    for instruction in instructions {
        let Some(made) = made_by(instruction, numbers, stack) else {
            return Err(ApplyError::Overflow);
        };
        stack.push(made)?;
    }
    Ok(())
}

// What an instruction leaves, and the numbers that it takes for it.
#[inline(always)]
fn made_by(
    instruction: &Instruction,
    numbers: &[Option<i128>],
    stack: &mut Vec<Option<i128>>,
) -> Option<Option<i128>>
    ensures { after_instruction numbers.now instruction.now (reverse stack.old.items)
        ≡ onto_stack (reverse stack.new.items) result }
{
    match instruction {
        Instruction::Column(source) => Some(number_in(numbers, source.column)),
        Instruction::Digits(number) => Some(Some(i128::from(*number))),
        Instruction::Opposite => opposite_made(stack),
        Instruction::Plus(powers) => sum_made(*powers, stack),
        Instruction::Less(powers) => difference_made(*powers, stack),
        Instruction::Times => product_made(stack),
    }
}

// The number in a column.
#[inline(always)]
fn number_in(numbers: &[Option<i128>], column: usize) -> Option<i128>
    ensures { result ≡ slice_index_or numbers.now column None }
{
    match numbers.get(column) {
        Some(number) => *number,
        None => None,
    }
}

// The number of opposite sign in place of the last one.
#[inline(always)]
fn opposite_made(stack: &mut Vec<Option<i128>>) -> Option<Option<i128>>
    ensures { over_one opposite_if_any (reverse stack.old.items) ≡ onto_stack (reverse stack.new.items) result }
{
    let a = stack.pop()?;
    opposite_if_any(a)
}

// The sum in place of the last two.
#[inline(always)]
fn sum_made(powers: Powers, stack: &mut Vec<Option<i128>>) -> Option<Option<i128>>
    ensures { over_two (sum_if_any powers) (reverse stack.old.items) ≡ onto_stack (reverse stack.new.items) result }
{
    let b = stack.pop()?;
    let a = stack.pop()?;
    sum_if_any(powers, a, b)
}

// The difference in place of the last two.
#[inline(always)]
fn difference_made(powers: Powers, stack: &mut Vec<Option<i128>>) -> Option<Option<i128>>
    ensures { over_two (difference_if_any powers) (reverse stack.old.items)
        ≡ onto_stack (reverse stack.new.items) result }
{
    let b = stack.pop()?;
    let a = stack.pop()?;
    difference_if_any(powers, a, b)
}

// The product in place of the last two.
#[inline(always)]
fn product_made(stack: &mut Vec<Option<i128>>) -> Option<Option<i128>>
    ensures { over_two product_if_any (reverse stack.old.items) ≡ onto_stack (reverse stack.new.items) result }
{
    let b = stack.pop()?;
    let a = stack.pop()?;
    product_if_any(a, b)
}

#[inline(always)]
fn opposite_if_any(a: Option<i128>) -> Option<Option<i128>>
    ensures { result ≡ Instructions.opposite_if_any a }
{
    let Some(x) = a else {
        return Some(None);
    };
    Some(Some(opposite(x)?))
}

#[inline(always)]
fn sum_if_any(powers: Powers, a: Option<i128>, b: Option<i128>) -> Option<Option<i128>>
    ensures { result ≡ Instructions.sum_if_any powers a b }
{
    let (Some(x), Some(y)) = (a, b) else {
        return Some(None);
    };
    let x = brought(powers.left, x)?;
    let y = brought(powers.right, y)?;
    Some(Some(sum(x, y)?))
}

#[inline(always)]
fn difference_if_any(powers: Powers, a: Option<i128>, b: Option<i128>) -> Option<Option<i128>>
    ensures { result ≡ Instructions.difference_if_any powers a b }
{
    let (Some(x), Some(y)) = (a, b) else {
        return Some(None);
    };
    let x = brought(powers.left, x)?;
    let y = brought(powers.right, y)?;
    Some(Some(difference(x, y)?))
}

#[inline(always)]
fn product_if_any(a: Option<i128>, b: Option<i128>) -> Option<Option<i128>>
    ensures { result ≡ Instructions.product_if_any a b }
{
    let (Some(x), Some(y)) = (a, b) else {
        return Some(None);
    };
    Some(Some(product(x, y)?))
}

// A number multiplied by a power of ten, mostly by 1.
#[inline(always)]
fn brought(power: i128, number: i128) -> Option<i128>
    ensures { result ≡ checked (number *ℤ power) }
{
    if power == 1 {
        return in_range(Some(number));
    }
    product(number, power)
}

fn opposite(number: i128) -> Option<i128>
    ensures { result ≡ checked (neg_ℤ number) }
{
    in_range(number.checked_neg())
}

fn sum(a: i128, b: i128) -> Option<i128>
    ensures { result ≡ checked (a +ℤ b) }
{
    in_range(a.checked_add(b))
}

fn difference(a: i128, b: i128) -> Option<i128>
    ensures { result ≡ checked (a -ℤ b) }
{
    in_range(a.checked_sub(b))
}

// Most products are of two numbers of 64 bits.
fn product(a: i128, b: i128) -> Option<i128>
    ensures { result ≡ checked (a *ℤ b) }
{
    match (i64::try_from(a), i64::try_from(b)) {
        (Ok(a), Ok(b)) => Some(short_product(a, b)),
        _ => in_range(a.checked_mul(b)),
    }
}

#[inline(always)]
fn short_product(a: i64, b: i64) -> i128
    ensures value { result ≡ a *ℤ b }
    ensures small { checked (a *ℤ b) ≡ Some (a *ℤ b) }
{
    a as i128 * b as i128
}

// The number, but for the least one of 128 bits.
fn in_range(number: Option<i128>) -> Option<i128>
    ensures { result ≡ option_and_then checked number }
{
    match number {
        Some(i128::MIN) => None,
        other => other,
    }
}
