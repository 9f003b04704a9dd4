// Rows of many lines, said from their values.
ghost use Rattle.std.specs.Prelude.{◌≡◌, ◌↔◌, ◌⊎◌, ◌≤◌, [], ◌∷◌, ◌++◌, IsTrue, IfSome, OnOk, OnErr, length, replicate};
ghost use Rattle.std.specs.List.{list_all};
ghost use Rattle.std.specs.Option.{option_copied};
ghost use Rattle.ts_row.specs.declared.value.Value.TheVariants.{Null};
ghost use Rattle.ts_row.specs.Row.{is_kind, fits, visible, value_text, values_text, Extends};
ghost use Rattle.ts_combine.specs.Combine.{values_or_nulls};
ghost use Rattle.ts_expr.specs.Aggregates.{most_scale};
ghost use Rattle.ts_answer.specs.Reply.{element_line};

use crate::day_text::DayText;
use crate::say_numbers::say_scaled;
use crate::say_values::{say_null, say_text};
use std::alloc::AllocError;
use ts_base::{Reply, Stamp};
use ts_row::{Column, Row, RowType, Value};

/// Says an element in a line.
#[tactic(auto, unfolding(ts_answer::specs::Reply::element_line))]
pub fn say_line(
    out: &mut Reply,
    day: &mut DayText,
    kind: &RowType,
    stamp: Stamp,
    row: &Row,
) -> Result<(), AllocError>
    ensures ok { OnOk result (out.new ≡ out.old ++ element_line kind.now.columns (stamp, row.now)) }
    ensures err { OnErr result (Extends out.old out.new) }
{
    day.say(out, stamp)?;
    say_values(out, kind.columns(), row.values(), b'\n')
}

/// Says in a line what two series have at a stamp: the values of both, NULL in each column of one that has no row.
pub fn say_joined(
    out: &mut Reply,
    day: &mut DayText,
    first_kind: &RowType,
    second_kind: &RowType,
    stamp: Stamp,
    first: Option<&Row>,
    second: Option<&Row>,
) -> Result<(), AllocError>
    ensures ok { OnOk result (IfSome first.entry (λ r. IsTrue (fits first_kind.now.columns r.now))
        → IfSome second.entry (λ r. IsTrue (fits second_kind.now.columns r.now))
        → out.new ≡ out.old ++ element_line (first_kind.now.columns ++ second_kind.now.columns) (
          stamp,
          visible (values_or_nulls (length first_kind.now.columns) (option_copied first.entry)
              ++ values_or_nulls (length second_kind.now.columns) (option_copied second.entry)),
        )) }
    ensures err { OnErr result (Extends out.old out.new) }
{
    day.say(out, stamp)?;
    say_side(out, first_kind.columns(), first, b',')?;
    say_side(out, second_kind.columns(), second, b'\n')
}

// Says the values of a row, or NULL for each column where there is none, and a byte behind them.
fn say_side(
    out: &mut Reply,
    columns: &[Column],
    row: Option<&Row>,
    behind: u8,
) -> Result<(), AllocError>
    requires { IsTrue (list_all (λ c. is_kind c.kind) columns.now) }
    ensures ok { OnOk result (out.new ≡ out.old
        ++ values_text columns.now (values_or_nulls (length columns.now) (option_copied row.entry)) ++ behind ∷ []) }
    ensures err { OnErr result (Extends out.old out.new) }
{
    match row {
        Some(row) => say_values(out, columns, row.values(), behind),
        None => say_nulls(out, columns, behind),
    }
}

// Says values, each as its column prints it, with commas between them, and a byte behind them.
fn say_values(
    out: &mut Reply,
    columns: &[Column],
    values: &[Value],
    behind: u8,
) -> Result<(), AllocError>
    requires { IsTrue (list_all (λ c. is_kind c.kind) columns.now) }
    ensures ok { OnOk result (out.new ≡ out.old ++ values_text columns.now values.now ++ behind ∷ []) }
    ensures err { OnErr result (Extends out.old out.new) }
{
    let Some((column, columns)) = columns.split_first() else {
        return out.push(behind);
    };
    let Some((value, values)) = values.split_first() else {
        return out.push(behind);
    };
    let scale = column.kind.scale() as u32;
    if is_end(columns, values) {
        return say_value(out, value, scale, behind);
    }
    say_value(out, value, scale, b',')?;
    say_values(out, columns, values, behind)
}

// Whether there are no columns or no values.
fn is_end(columns: &[Column], values: &[Value]) -> bool
    ensures { IsTrue result ↔ (length columns.now ≡ 0) ⊎ (length values.now ≡ 0) }
{
    columns.is_empty() || values.is_empty()
}

// Says NULL for each column, and a byte behind the last.
fn say_nulls(out: &mut Reply, columns: &[Column], behind: u8) -> Result<(), AllocError>
    ensures ok { OnOk result (out.new ≡ out.old
        ++ values_text columns.now (replicate (length columns.now) Null) ++ behind ∷ []) }
    ensures err { OnErr result (Extends out.old out.new) }
{
    let Some((_, columns)) = columns.split_first() else {
        return out.push(behind);
    };
    if columns.is_empty() {
        return say_null(out, behind);
    }
    say_null(out, b',')?;
    say_nulls(out, columns, behind)
}

/// Says a value, a number with so many digits after the point, and a byte behind it.
pub(crate) fn say_value(
    out: &mut Reply,
    value: &Value,
    scale: u32,
    behind: u8,
) -> Result<(), AllocError>
    requires { scale ≤ most_scale }
    ensures ok { OnOk result (out.new ≡ out.old ++ value_text scale value.now ++ behind ∷ []) }
    ensures err { OnErr result (Extends out.old out.new) }
{
    match value {
        Value::Null => say_null(out, behind),
        Value::Number(number) => say_scaled(out, *number, scale, behind),
        Value::Text(text) => say_text(out, text.as_slice(), behind),
    }
}
