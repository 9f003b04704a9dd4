// Aggregate lists as texts: `sum($v), count($v)`.
ghost use Rattle.std.specs.Prelude.{◌≡◌, ◌≤◌, ◌<◌, ◌^◌, ◌↔◌, ℕ, List, Ok, length};
ghost use Rattle.ts_text.specs.Place.{everywhere, RefusesInPlace};
ghost use Rattle.ts_text.specs.Phrase.{plain_front};
ghost use Rattle.ts_expr.specs.declared.item.Item.{Item};
ghost use Rattle.ts_base.specs.Answer.{Answers};
ghost use Rattle.ts_expr.specs.Aggregates.{most_items, read_list, written_list};
ghost use Rattle.ts_expr.specs.Spelling.{IsListText};

use crate::Item;
use crate::read::written_items;
use std::alloc::Global;
use std::marker::Model;
use ts_base::{Refusal, Trouble};
use ts_text::Misfit;

/// The most items of a list.
pub const MOST_ITEMS: usize = 32;

/// An aggregate list: 1 to 32 functions, each of the values of a column.
#[derive(Debug, Drop)]
pub struct AggList {
    items: Vec<Item>,
}

impl Model for AggList {
    ghost use Rattle.std.specs.Prelude.{◌≤◌, List, length};
    ghost use Rattle.ts_expr.specs.declared.item.Item.{Item};
    ghost use Rattle.ts_expr.specs.Aggregates.{most_items};

    ghost Value = { List Item };

    ghost view = { λ l. l.items.items };

    ghost invariant = { λ l. (1 ≤ length l.items.items) × (length l.items.items ≤ most_items) };
}

impl AggList {
    /// The list that a text writes; a place counts the bytes before what can't stand there.
    pub fn read(alloc: Global, text: &[u8]) -> Result<AggList, Trouble>
        requires { length text.now < 2 ^ 32 }
        ensures { Answers (read_list text.now) result }
    {
        match written_items(alloc, text) {
            Ok(items) => Ok(AggList { items }),
            Err(Misfit::At { left }) => {
                let place = text.len().saturating_sub(left) as u32;
                Err(Trouble::Refused(Refusal::BadExpression { place }))
            }
            Err(Misfit::Memory(error)) => Err(Trouble::Memory(error)),
        }
    }

    /// The items, in their order.
    pub fn items(&self) -> &[Item]
        ensures value { result.now ≡ self.now }
        ensures some { 1 ≤ length self.now }
        ensures few { length self.now ≤ most_items }
    {
        self.items.as_slice()
    }

    pub(crate) fn allocator(&self) -> Global {
        *self.items.allocator()
    }
}

/// A text is read as an aggregate list exactly where it is that list's tokens with blanks between them.
pub fn aggregate_texts_are_tokens()
    ensures { (text : List ℕ) → (items : List Item) → written_list text ≡ Ok items ↔ IsListText items text }
{}

/// Where a text is refused as an aggregate list, what stands before the place goes on to a list's text; with the token
/// that stands at the place none does: whatever comes behind it that leaves it this token, the text is refused at this
/// place. Nothing is said of bytes that begin no token.
pub fn aggregates_are_refused_in_place()
    ensures { RefusesInPlace (everywhere plain_front) written_list }
{}
