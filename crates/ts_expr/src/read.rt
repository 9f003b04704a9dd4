// Reading the text of an aggregate list.
ghost use Rattle.std.specs.Prelude.{◌≡◌, ◌-◌, ◌≤◌, Ok, IfOk, IfErr, OnOk, [], length};
ghost use Rattle.ts_text.specs.Misfit.{Refuses, RefusesExactly};
ghost use Rattle.ts_text.specs.Phrase.{ended, onto};
ghost use Rattle.ts_expr.specs.Aggregates;

use crate::list::MOST_ITEMS;
use crate::{Function, Item};
use std::alloc::Global;
use ts_base::Name;
use ts_text::{Misfit, TokenKind, behind_sign, plain_front, read_end, read_sign, skip_blanks};

// The word of a function.
#[tactic(auto, unfolding(crate::specs::Aggregates::function_in))]
fn function_in(text: &[u8]) -> Result<(Function, &[u8]), Misfit>
    ensures ok { IfOk result (λ x. Aggregates.function_in text.now ≡ Ok (x.0, x.1.now)) }
    ensures cause { IfErr result (λ misfit. RefusesExactly misfit (Aggregates.function_in text.now)) }
{
    let here = skip_blanks(text);
    if let Some((TokenKind::Word, length)) = plain_front(here) {
        let (word, rest) = here.split_at(length);
        if let Some(function) = Function::of_word(word) {
            return Ok((function, rest));
        }
    }
    Err(Misfit::here(here))
}

// A word of 1 to 32 bytes.
#[tactic(auto, unfolding(crate::specs::Aggregates::name_in))]
fn name_in(alloc: Global, text: &[u8]) -> Result<(Name, &[u8]), Misfit>
    ensures ok { IfOk result (λ x. Aggregates.name_in text.now ≡ Ok (x.0, x.1.now)) }
    ensures cause { IfErr result (λ misfit. Refuses misfit (Aggregates.name_in text.now)) }
{
    let here = skip_blanks(text);
    if let Some((TokenKind::Word, length)) = plain_front(here) {
        let (word, rest) = here.split_at(length);
        if let Some(name) = Name::read(alloc, word)? {
            return Ok((name, rest));
        }
    }
    Err(Misfit::here(here))
}

// The name of a column behind a `$`, in brackets.
#[tactic(auto, unfolding(crate::specs::Aggregates::column_in))]
fn column_in(alloc: Global, text: &[u8]) -> Result<(Name, &[u8]), Misfit>
    ensures ok { IfOk result (λ x. Aggregates.column_in text.now ≡ Ok (x.0, x.1.now)) }
    ensures cause { IfErr result (λ misfit. Refuses misfit (Aggregates.column_in text.now)) }
{
    let rest = read_sign(read_sign(text, b'(')?, b'$')?;
    let (column, rest) = name_in(alloc, rest)?;
    Ok((column, read_sign(rest, b')')?))
}

// A function and its column.
#[tactic(auto, unfolding(crate::specs::Aggregates::item_in))]
fn item_in(alloc: Global, text: &[u8]) -> Result<(Item, &[u8]), Misfit>
    ensures ok { IfOk result (λ x. Aggregates.item_in text.now ≡ Ok (x.0, x.1.now)) }
    ensures cause { IfErr result (λ misfit. Refuses misfit (Aggregates.item_in text.now)) }
{
    let (function, rest) = function_in(text)?;
    let (column, rest) = column_in(alloc, rest)?;
    Ok((Item { function, column }, rest))
}

// Further items, as many as commas stand there, up to the most that a list has.
fn read_items<'a>(alloc: Global, items: &mut Vec<Item>, text: &'a [u8]) -> Result<&'a [u8], Misfit>
    requires { length items.old.items ≡ 1 }
    ensures ok { IfOk result (λ rest. onto items.old.items (Aggregates.further (Aggregates.most_items - 1) text.now)
        ≡ Ok (items.new.items, rest.now)) }
    ensures cause { IfErr result (λ misfit. Refuses misfit (Aggregates.further (Aggregates.most_items - 1) text.now)) }
    ensures some { OnOk result (1 ≤ length items.new.items) }
    ensures few { OnOk result (length items.new.items ≤ Aggregates.most_items) }
{
    let mut rest = text;
    for _ in 1..MOST_ITEMS {
        let Some(behind) = behind_sign(rest, b',') else {
            return Ok(rest);
        };
        let (item, more) = item_in(alloc, behind)?;
        items.push(item)?;
        rest = more;
    }
    Ok(rest)
}

/// The items that a text writes.
#[tactic(auto, unfolding(crate::specs::Aggregates::list_in))]
pub(crate) fn written_items(alloc: Global, text: &[u8]) -> Result<Vec<Item>, Misfit>
    ensures ok { IfOk result (λ items. ended [] Aggregates.list_in text.now ≡ Ok (items.items, [])) }
    ensures cause { IfErr result (λ misfit. Refuses misfit (ended [] Aggregates.list_in text.now)) }
    ensures some { IfOk result (λ items. 1 ≤ length items.items) }
    ensures few { IfOk result (λ items. length items.items ≤ Aggregates.most_items) }
{
    let (first, rest) = item_in(alloc, text)?;
    let mut items = Vec::new(alloc);
    items.push(first)?;
    let rest = read_items(alloc, &mut items, rest)?;
    read_end(rest, &[])?;
    Ok(items)
}
