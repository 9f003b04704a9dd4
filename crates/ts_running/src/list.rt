// Lists of expressions as texts: `$v*$w+1, -$v`.
ghost use Rattle.std.specs.Prelude.{◌≡◌, ◌<◌, ◌^◌, ◌↔◌, ℕ, List, Ok, length};
ghost use Rattle.ts_text.specs.Place.{everywhere, RefusesInPlace};
ghost use Rattle.ts_base.specs.Answer.{Answers};
ghost use Rattle.ts_running.specs.Grammar.{all_steps, expr_front, Named, read_exprs, written_exprs};
ghost use Rattle.ts_running.specs.Spelling.{IsListText};

use crate::read::written_steps;
use crate::step::Step;
use std::alloc::Global;
use std::marker::Model;
use ts_base::{Name, Refusal, Trouble};
use ts_text::Misfit;

/// The most expressions of a list.
pub const MOST_EXPRS: usize = 32;

/// A list of 1 to 32 expressions over columns that are given by their names.
#[derive(Debug, Drop)]
pub struct ExprList {
    steps: Vec<Step<Name>>,
}

impl Model for ExprList {
    ghost use Rattle.std.specs.Prelude.{◌≡◌, List};
    ghost use Rattle.ts_running.specs.Grammar.{all_steps, Named};
    ghost use Rattle.ts_running.specs.Binding.{exprs_of};
    ghost use Rattle.ts_running.specs.Codes.{named_code};

    ghost Value = { List Named };

    ghost coded = { named_code };

    ghost view = { λ l. exprs_of l.steps.items };

    ghost invariant = { λ l. l.steps.items ≡ all_steps (exprs_of l.steps.items) };
}

impl ExprList {
    /// The expressions that a text writes; a place counts the bytes before what can't stand there.
    pub fn read(alloc: Global, text: &[u8]) -> Result<ExprList, Trouble>
        requires { length text.now < 2 ^ 32 }
        ensures { Answers (read_exprs text.now) result }
    {
        match written_steps(alloc, text) {
            Ok(steps) => Ok(ExprList { steps }),
            Err(Misfit::At { left }) => {
                let place = text.len().saturating_sub(left) as u32;
                Err(Trouble::Refused(Refusal::BadExpression { place }))
            }
            Err(Misfit::Memory(error)) => Err(Trouble::Memory(error)),
        }
    }

    pub(crate) fn steps(&self) -> &[Step<Name>]
        ensures { result.now ≡ all_steps self.now }
    {
        self.steps.as_slice()
    }

    pub(crate) fn allocator(&self) -> Global {
        *self.steps.allocator()
    }
}

/// A text is read as a list of expressions exactly where it is that list's tokens with blanks between them.
pub fn expression_texts_are_tokens()
    ensures { (text : List ℕ) → (exprs : List Named) → written_exprs text ≡ Ok exprs ↔ IsListText exprs text }
{}

/// Where a text is refused as a list of expressions, what stands before the place goes on to a list's text; with the
/// token that stands at the place none does: whatever comes behind it that leaves it this token, the text is refused at
/// this place. Nothing is said of bytes that begin no token.
pub fn expressions_are_refused_in_place()
    ensures { RefusesInPlace (everywhere expr_front) written_exprs }
{}
