// The routine that creates a row type.
ghost use Rattle.std.specs.Prelude.{ℕ, IfOk};
ghost use Rattle.ts_row.specs.Row.{bad_column};
ghost use Rattle.ts_command.specs.declared.command.Command.TheVariants.{CreateRowType};
ghost use Rattle.ts_command.specs.Form.{HasForm};
ghost use Rattle.ts_model.specs.declared.kind.Kind.TheVariants.{RowType as RowTypes};
ghost use Rattle.ts_answer.specs.Answer.{no_bad_column};
ghost use Rattle.ts_answer.specs.Decided.{IsDecision, FitsSlot};
ghost use Rattle.ts_answer.specs.Tried.{IsTried};
ghost use Rattle.ts_define.specs.RowTypes.{MakesRowType};

use crate::format::in_format;
use crate::slots::slot_for;
use std::alloc::Global;
use ts_base::{Name, Trouble};
use ts_command::Columns;
use ts_model::{Def, Defs, Kind};
use ts_row::{RowType, copy_columns};

/// The definition of a new row type, and the slot for it.
pub fn new_row_type(
    alloc: Global,
    defs: &Defs,
    name: &Name,
    stamp: &Name,
    columns: &Columns,
) -> Result<(u16, Option<Def>), Trouble>
    requires form { HasForm (CreateRowType name.now stamp.now columns.now) }
    ensures fits { IfOk result (λ change. FitsSlot RowTypes change.0 change.1 defs.now.definitions) }
    ensures decision { (count : ℕ)
        → IsDecision RowTypes (CreateRowType name.now stamp.now columns.now) result defs.now.definitions count }
{
    let kind = row_type_of(alloc, stamp, columns)?;
    in_format(defs, kind.has_long_decimal())?;
    let slot = slot_for(defs, Kind::RowType, name)?;
    let copied = name.copy()?;
    Ok((slot, Some(Def::RowType { name: copied, kind })))
}

// The row type of these columns, or the first that breaks a rule.
fn row_type_of(alloc: Global, stamp: &Name, columns: &Columns) -> Result<RowType, Trouble>
    ensures { IsTried result (no_bad_column (bad_column stamp.now columns.now)) (MakesRowType stamp.now columns.now) }
{
    let copied = copy_columns(alloc, columns.as_slice())?;
    let stamp = stamp.copy()?;
    RowType::make(alloc, stamp, copied)
}
