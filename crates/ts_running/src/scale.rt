// The digits after the point of expressions, and the instructions that know them.
ghost use Rattle.std.specs.Prelude.{◌≡◌, ◌≤◌, ◌^◌, max, pos, IfOk, IfSome, [], reverse};
ghost use Rattle.std.specs.Option.{option_map};
ghost use Rattle.ts_running.specs.Binding.{onto_stack, over_two, after_step, after_steps, most_part_scale};
ghost use Rattle.ts_running.specs.Binding.{scale_if_small, part_scales};
ghost use Rattle.ts_running.specs.Binding;
ghost use Rattle.ts_running.specs.Instructions.{instruction_of, instructions_of};
ghost use Rattle.ts_running.specs.Instructions;

use crate::bind::{MOST_PART_SCALE, Source};
use crate::instruction::{Instruction, Powers};
use crate::step::{Operation, Step};
use std::alloc::{AllocError, Global};

/// The instructions of expressions, and the scale of each.
#[derive(Drop)]
pub(crate) struct ScaledExprs {
    pub instructions: Vec<Instruction>,
    pub scales: Vec<u8>,
}

/// The instructions and the scales of the expressions that have these steps, if each part has a scale that may be.
pub(crate) fn scaled_exprs(
    alloc: Global,
    steps: &[Step<Source>],
) -> Result<Option<ScaledExprs>, AllocError>
    ensures scales { IfOk result (λ found.
        after_steps part_scales steps.now [] ≡ option_map (λ exprs. reverse exprs.scales.items) found) }
    ensures instructions { IfOk result (λ found.
        IfSome found (λ exprs. exprs.instructions.items ≡ instructions_of [] steps.now)) }
{
    let mut instructions = Vec::with_capacity(alloc, steps.len())?;
    let mut scales = Vec::new(alloc);
    for step in steps {
        let Some((instruction, scale)) = scaled_step(step, &mut scales) else {
            return Ok(None);
        };
        instructions.push(instruction)?;
        scales.push(scale)?;
    }
    Ok(Some(ScaledExprs {
        instructions,
        scales,
    }))
}

// The instruction of a step and the scale that it leaves, and the scales that it takes for it.
fn scaled_step(step: &Step<Source>, stack: &mut Vec<u8>) -> Option<(Instruction, u8)>
    ensures scale { after_step part_scales step.now (reverse stack.old.items)
        ≡ onto_stack (reverse stack.new.items) (option_map (λ made. made.1) result) }
    ensures instruction { IfSome result (λ made. made.0 ≡ instruction_of (reverse stack.old.items) step.now) }
{
    match step {
        Step::Column(source) => {
            let scale = if_small(source.scale)?;
            Some((Instruction::Column(*source), scale))
        }
        Step::Digits(number) => Some((Instruction::Digits(*number), 0)),
        Step::Opposite => {
            let scale = stack.pop()?;
            Some((Instruction::Opposite, scale))
        }
        Step::Joined(operation) => scaled_operation(*operation, stack),
    }
}

// The same of an operation on the last two.
fn scaled_operation(operation: Operation, stack: &mut Vec<u8>) -> Option<(Instruction, u8)>
    ensures scale { over_two (part_scales.joined operation) (reverse stack.old.items)
        ≡ onto_stack (reverse stack.new.items) (option_map (λ made. made.1) result) }
    ensures instruction { IfSome result (λ made.
        made.0 ≡ Instructions.of_last_scales operation (reverse stack.old.items)) }
{
    let b = stack.pop()?;
    let a = stack.pop()?;
    let scale = joined_scale(operation, a, b)?;
    Some((of_scales(operation, a, b), scale))
}

fn joined_scale(operation: Operation, a: u8, b: u8) -> Option<u8>
    ensures { result ≡ scale_if_small (Binding.joined_scale operation a b) }
{
    match operation {
        Operation::Times => if_small(a.checked_add(b)?),
        _ => if_small(a.max(b)),
    }
}

fn if_small(scale: u8) -> Option<u8>
    ensures { result ≡ scale_if_small scale }
{
    if scale <= MOST_PART_SCALE {
        Some(scale)
    } else {
        None
    }
}

// An operation on two operands of these scales.
fn of_scales(operation: Operation, a: u8, b: u8) -> Instruction
    requires { Binding.joined_scale operation a b ≤ most_part_scale }
    ensures { result ≡ Instructions.of_scales operation a b }
{
    match operation {
        Operation::Plus => Instruction::Plus(powers(a, b)),
        Operation::Less => Instruction::Less(powers(a, b)),
        Operation::Times => Instruction::Times,
    }
}

// What brings two operands of these scales to the greater one.
fn powers(a: u8, b: u8) -> Powers
    requires { max a b ≤ most_part_scale }
    ensures { result ≡ Instructions.powers a b }
{
    let scale = a.max(b);
    Powers {
        left: power_of_ten(scale - a),
        right: power_of_ten(scale - b),
    }
}

fn power_of_ten(digits: u8) -> i128
    requires { digits ≤ most_part_scale }
    ensures { result ≡ pos (10 ^ digits) }
{
    let power = 10u128.pow(digits as u32);
    power as i128
}
