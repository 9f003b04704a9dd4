// The column of a running value, as in `$v`.
ghost use Rattle.std.specs.Prelude.{◌≡◌, ◌<◌, ◌≤◌, ◌^◌, Ok, IfOk, IfErr, IsTrue, [], length};
ghost use Rattle.ts_base.specs.Answer.{Answers};
ghost use Rattle.ts_text.specs.Misfit.{Refuses};
ghost use Rattle.ts_text.specs.Phrase.{ended};
ghost use Rattle.ts_expr.specs.Aggregates.{item, bound, most_scale};
ghost use Rattle.ts_running.specs.Grammar.{column_in, read_column};
ghost use Rattle.ts_running.specs.Places.{is_running};

use crate::bind::{Source, source_named};
use crate::read::name_in;
use std::alloc::Global;
use ts_base::{Name, Refusal, Trouble};
use ts_expr::{BoundItem, Function};
use ts_row::RowType;
use ts_text::{Misfit, read_end, read_sign};

/// The name of the column that a text names behind a `$`; a place counts the bytes before what can't stand there.
pub fn read_column(alloc: Global, text: &[u8]) -> Result<Name, Trouble>
    requires { length text.now < 2 ^ 32 }
    ensures { Answers (read_column text.now) result }
{
    match written_column(alloc, text) {
        Ok(name) => Ok(name),
        Err(Misfit::At { left }) => {
            let place = text.len().saturating_sub(left) as u32;
            Err(Trouble::Refused(Refusal::BadExpression { place }))
        }
        Err(Misfit::Memory(error)) => Err(Trouble::Memory(error)),
    }
}

// The name that a text is.
#[tactic(auto, unfolding(crate::specs::Grammar::column_in))]
fn written_column(alloc: Global, text: &[u8]) -> Result<Name, Misfit>
    ensures ok { IfOk result (λ name. ended [] column_in text.now ≡ Ok (name, [])) }
    ensures cause { IfErr result (λ misfit. Refuses misfit (ended [] column_in text.now)) }
{
    let rest = read_sign(text, b'$')?;
    let (name, rest) = name_in(alloc, rest)?;
    read_end(rest, &[])?;
    Ok(name)
}

/// The sum or the mean of a column: its number, and the digits after the point, for a mean six more than the column
/// has. Else why there is none: no value column has the name, or it is one of texts.
pub fn bind_column(function: Function, name: &[u8], kind: &RowType) -> Result<BoundItem, Trouble>
    requires running { IsTrue (is_running function) }
    ensures value { Answers (bound kind.now.columns (item function name.now)) result }
    ensures scale { IfOk result (λ bound. bound.scale ≤ most_scale) }
{
    let Source { column, scale } = source_named(kind.columns(), name)?;
    let scale = match function {
        Function::Avg => scale + 6,
        _ => scale,
    };
    Ok(BoundItem {
        function,
        column,
        scale,
    })
}
