// Reading the text of expressions.
ghost use Rattle.std.specs.Prelude.{◌≡◌, ◌-◌, ◌<◌, ◌≤◌, ◌^◌, Ok, Some, None, IfOk, IfErr, IfSome, IfNone, [], length};
ghost use Rattle.ts_text.specs.Phrase.{magnitude_of, ended, sign_in};
ghost use Rattle.ts_text.specs.Misfit.{Refuses, RefusesExactly};
ghost use Rattle.ts_running.specs.Grammar;
ghost use Rattle.ts_running.specs.Reading.{Reads, ReadsAll};

use crate::front::expr_front;
use crate::list::MOST_EXPRS;
use crate::step::{Operation, Step};
use std::alloc::Global;
use ts_base::Name;
use ts_text::{Misfit, TokenKind, behind_sign, magnitude, read_end, read_sign, skip_blanks};

/// The most digits of a number.
pub const MOST_DIGITS: usize = 18;

/// How many factors may stand inside a factor, each inside the one before: it and they are 64.
pub const MOST_INSIDE: u8 = 63;

/// A word of 1 to 32 bytes.
#[tactic(auto, unfolding(crate::specs::Grammar::name_in))]
pub(crate) fn name_in(alloc: Global, text: &[u8]) -> Result<(Name, &[u8]), Misfit>
    ensures ok { IfOk result (λ x. Grammar.name_in text.now ≡ Ok (x.0, x.1.now)) }
    ensures cause { IfErr result (λ misfit. Refuses misfit (Grammar.name_in text.now)) }
    ensures shorter { IfOk result (λ x. length x.1.now ≤ length text.now) }
{
    let here = skip_blanks(text);
    if let Some((TokenKind::Word, length)) = expr_front(here) {
        let (word, rest) = here.split_at(length);
        if let Some(name) = Name::read(alloc, word)? {
            return Ok((name, rest));
        }
    }
    Err(Misfit::here(here))
}

// A number of 1 to 18 digits.
#[tactic(auto, unfolding(crate::specs::Grammar::digits_in))]
fn digits_in(text: &[u8]) -> Result<(u64, &[u8]), Misfit>
    ensures ok { IfOk result (λ x. Grammar.digits_in text.now ≡ Ok (x.0, x.1.now)) }
    ensures cause { IfErr result (λ misfit. RefusesExactly misfit (Grammar.digits_in text.now)) }
    ensures shorter { IfOk result (λ x. length x.1.now ≤ length text.now) }
{
    let here = skip_blanks(text);
    if let Some((TokenKind::Number, length)) = expr_front(here) {
        let (digits, rest) = here.split_at(length);
        if length <= MOST_DIGITS {
            return Ok((small_number(digits), rest));
        }
    }
    Err(Misfit::here(here))
}

// The number that at most 18 bytes write.
fn small_number(digits: &[u8]) -> u64
    requires { length digits.now ≤ Grammar.most_digits }
    ensures { result ≡ magnitude_of digits.now }
{
    let number = magnitude(digits);
    number as u64
}

// A column behind a `$`, or digits.
fn read_leaf<'a>(
    alloc: Global,
    steps: &mut Vec<Step<Name>>,
    text: &'a [u8],
) -> Result<&'a [u8], Misfit>
    ensures ok { IfOk result (λ rest. Reads Grammar.leaf_in text.now steps.old.items steps.new.items rest.now) }
    ensures cause { IfErr result (λ misfit. Refuses misfit (Grammar.leaf_in text.now)) }
    ensures shorter { IfOk result (λ rest. length rest.now ≤ length text.now) }
{
    if let Some(behind) = behind_sign(text, b'$') {
        let (name, rest) = name_in(alloc, behind)?;
        steps.push(Step::Column(name))?;
        return Ok(rest);
    }
    let (number, rest) = digits_in(text)?;
    steps.push(Step::Digits(number))?;
    Ok(rest)
}

// A factor: a leaf, the opposite of a factor, or a sum in brackets. At most `inside` factors stand inside it.
#[cycle(factor)]
fn read_factor<'a>(
    alloc: Global,
    inside: u8,
    steps: &mut Vec<Step<Name>>,
    text: &'a [u8],
) -> Result<&'a [u8], Misfit>
    ensures ok { IfOk result
        (λ rest. Reads (Grammar.factor_in inside) text.now steps.old.items steps.new.items rest.now) }
    ensures cause { IfErr result (λ misfit. Refuses misfit (Grammar.factor_in inside text.now)) }
    ensures shorter { IfOk result (λ rest. length rest.now ≤ length text.now) }
{
    if inside == 0 {
        return read_leaf(alloc, steps, text);
    }
    if let Some(behind) = behind_sign(text, b'-') {
        let rest = read_factor(alloc, inside - 1, steps, behind)?;
        steps.push(Step::Opposite)?;
        return Ok(rest);
    }
    if let Some(behind) = behind_sign(text, b'(') {
        let rest = read_sum(alloc, inside - 1, steps, behind)?;
        let rest = read_sign(rest, b')')?;
        return Ok(rest);
    }
    read_leaf(alloc, steps, text)
}

// Factors with `*` between them.
#[cycle(factor)]
fn read_term<'a>(
    alloc: Global,
    inside: u8,
    steps: &mut Vec<Step<Name>>,
    text: &'a [u8],
) -> Result<&'a [u8], Misfit>
    ensures ok { IfOk result
        (λ rest. Reads (Grammar.term_of (Grammar.factor_in inside)) text.now steps.old.items steps.new.items rest.now) }
    ensures cause { IfErr result (λ misfit. Refuses misfit (Grammar.term_of (Grammar.factor_in inside) text.now)) }
    ensures shorter { IfOk result (λ rest. length rest.now ≤ length text.now) }
{
    let mut rest = read_factor(alloc, inside, steps, text)?;
    while let Some((operation, behind)) = times_sign(rest) {
        rest = read_factor(alloc, inside, steps, behind)?;
        steps.push(Step::Joined(operation))?;
    }
    Ok(rest)
}

// Terms with `+` and `-` between them.
#[cycle(factor)]
fn read_sum<'a>(
    alloc: Global,
    inside: u8,
    steps: &mut Vec<Step<Name>>,
    text: &'a [u8],
) -> Result<&'a [u8], Misfit>
    ensures ok { IfOk result
        (λ rest. Reads (Grammar.sum_of (Grammar.factor_in inside)) text.now steps.old.items steps.new.items rest.now) }
    ensures cause { IfErr result (λ misfit. Refuses misfit (Grammar.sum_of (Grammar.factor_in inside) text.now)) }
    ensures shorter { IfOk result (λ rest. length rest.now ≤ length text.now) }
{
    let mut rest = read_term(alloc, inside, steps, text)?;
    while let Some((operation, behind)) = sum_sign(rest) {
        rest = read_term(alloc, inside, steps, behind)?;
        steps.push(Step::Joined(operation))?;
    }
    Ok(rest)
}

// The sign between factors, if it stands there.
fn times_sign(text: &[u8]) -> Option<(Operation, &[u8])>
    ensures some { IfSome result (λ x. sign_in Grammar.times_signs text.now ≡ Some (x.0, x.1.now)) }
    ensures none { IfNone result (sign_in Grammar.times_signs text.now ≡ None) }
    ensures shorter { IfSome result (λ x. length x.1.now < length text.now) }
{
    let behind = behind_sign(text, b'*')?;
    Some((Operation::Times, behind))
}

// One of the signs between terms, if it stands there.
fn sum_sign(text: &[u8]) -> Option<(Operation, &[u8])>
    ensures some { IfSome result (λ x. sign_in Grammar.sum_signs text.now ≡ Some (x.0, x.1.now)) }
    ensures none { IfNone result (sign_in Grammar.sum_signs text.now ≡ None) }
    ensures shorter { IfSome result (λ x. length x.1.now < length text.now) }
{
    if let Some(behind) = behind_sign(text, b'+') {
        return Some((Operation::Plus, behind));
    }
    let behind = behind_sign(text, b'-')?;
    Some((Operation::Less, behind))
}

// An expression.
#[tactic(auto, unfolding(crate::specs::Grammar::expr_in))]
fn read_expr<'a>(
    alloc: Global,
    steps: &mut Vec<Step<Name>>,
    text: &'a [u8],
) -> Result<&'a [u8], Misfit>
    ensures ok { IfOk result (λ rest. Reads Grammar.expr_in text.now steps.old.items steps.new.items rest.now) }
    ensures cause { IfErr result (λ misfit. Refuses misfit (Grammar.expr_in text.now)) }
{
    read_sum(alloc, MOST_INSIDE, steps, text)
}

// Further expressions, as many as commas stand there, up to the most that a list has.
fn read_more<'a>(
    alloc: Global,
    steps: &mut Vec<Step<Name>>,
    text: &'a [u8],
) -> Result<&'a [u8], Misfit>
    ensures ok { IfOk result
        (λ rest. ReadsAll (Grammar.further (Grammar.most_exprs - 1)) text.now steps.old.items steps.new.items
        rest.now) }
    ensures cause { IfErr result (λ misfit. Refuses misfit (Grammar.further (Grammar.most_exprs - 1) text.now)) }
{
    let mut rest = text;
    for _ in 1..MOST_EXPRS {
        let Some(behind) = behind_sign(rest, b',') else {
            return Ok(rest);
        };
        rest = read_expr(alloc, steps, behind)?;
    }
    Ok(rest)
}

/// The steps of the expressions that a text writes.
pub(crate) fn written_steps(alloc: Global, text: &[u8]) -> Result<Vec<Step<Name>>, Misfit>
    ensures ok { IfOk result (λ steps. ReadsAll (ended [] Grammar.list_in) text.now [] steps.items []) }
    ensures cause { IfErr result (λ misfit. Refuses misfit (ended [] Grammar.list_in text.now)) }
{
    let mut steps = Vec::new(alloc);
    let rest = read_expr(alloc, &mut steps, text)?;
    let rest = read_more(alloc, &mut steps, rest)?;
    read_end(rest, &[])?;
    Ok(steps)
}
