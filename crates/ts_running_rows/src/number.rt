// The numbers in the columns of a row, read from its bytes: each function takes the first column and goes on with the
// others, at most 32 in all.
ghost use Rattle.std.specs.Prelude.{◌≡◌, ◌++◌, ◌==◌, drop, if◌then◌else◌, length, slice_index_or, All, IfSome, IsTrue};
ghost use Rattle.std.specs.Prelude.{OnOk, Some, None};
ghost use Rattle.std.specs.List.{list_all};
ghost use Rattle.ts_row.specs.declared.value.Value.{Value};
ghost use Rattle.ts_row.specs.Row.{column_width, is_kind, width_of, Values, Row as TheRow};
ghost use Rattle.ts_row.specs.Decoding.{number_in, value_in, values_in};
ghost use Rattle.ts_entry.specs.Entry.{AreSeenBytes};
ghost use Rattle.ts_expr.specs.Aggregates.{value_at};
ghost use Rattle.ts_running.specs.Rows.{IsSmall};
ghost use Rattle.ts_running.specs.Places;
ghost use Rattle.ts_running.specs.Binding.{number_if_any, numbers_of};

use std::alloc::AllocError;
use ts_aggregate::number;
use ts_row::{Column, ColumnKind, RowType};

/// A number of 29 digits.
const TOO_LONG: u128 = 10_000_000_000_000_000_000_000_000_000;

/// The place that the row of these bytes takes in a window: the number in a column, or none where it is NULL. Bytes
/// that are no row's take any.
pub(crate) fn place_in(kind: &RowType, column: usize, row: &[u8]) -> Option<i128>
    requires { length row.now ≡ width_of kind.now.columns }
    ensures value { (r : TheRow) → AreSeenBytes kind.now.columns row.now r → result ≡ Places.place_of column r }
    ensures small { IfSome result IsSmall }
{
    place_at(kind.columns(), column, row)
}

// The place that a column of these has.
fn place_at(columns: &[Column], column: usize, bytes: &[u8]) -> Option<i128>
    requires kinds { IsTrue (list_all (λ c. is_kind c.kind) columns.now) }
    requires size { length bytes.now ≡ width_of columns.now }
    ensures value { (values : Values) → values_in columns.now bytes.now ≡ Some values
        → result ≡ Places.place_if_any (value_at column values) }
    ensures small { IfSome result IsSmall }
{
    let Some((first, others)) = columns.split_first() else {
        return None;
    };
    let (cell, behind) = bytes.split_at(first.kind.width());
    if column > 0 {
        return place_at(others, column - 1, behind);
    }
    place_of_cell(first.kind, cell)
}

// The place that the bytes of a column have.
fn place_of_cell(kind: ColumnKind, cell: &[u8]) -> Option<i128>
    requires kind { IsTrue (is_kind kind) }
    requires size { length cell.now ≡ column_width kind }
    ensures value { (value : Value) → value_in kind cell.now ≡ Some value → result ≡ Places.place_if_any value }
    ensures small { IfSome result IsSmall }
{
    let number = number_of_cell(kind, cell)?;
    if number.unsigned_abs() >= TOO_LONG {
        return None;
    }
    Some(number)
}

/// Puts the numbers of a row of these bytes, one for each column, in place of others; none for NULL and for a text.
/// Bytes that are no row's have any.
pub(crate) fn numbers_in(
    kind: &RowType,
    row: &[u8],
    numbers: &mut Vec<Option<i128>>,
) -> Result<(), AllocError>
    requires { length row.now ≡ width_of kind.now.columns }
    ensures { OnOk result ((r : TheRow) → AreSeenBytes kind.now.columns row.now r
        → numbers.new.items ≡ numbers_of r.values) }
{
    numbers.clear();
    put_numbers(kind.columns(), row, numbers)
}

// Puts the numbers of the columns behind others.
fn put_numbers(
    columns: &[Column],
    bytes: &[u8],
    numbers: &mut Vec<Option<i128>>,
) -> Result<(), AllocError>
    requires kinds { IsTrue (list_all (λ c. is_kind c.kind) columns.now) }
    requires size { length bytes.now ≡ width_of columns.now }
    ensures { OnOk result ((values : Values) → values_in columns.now bytes.now ≡ Some values
        → numbers.new.items ≡ numbers.old.items ++ numbers_of values) }
{
    let Some((first, others)) = columns.split_first() else {
        return Ok(());
    };
    let (cell, behind) = bytes.split_at(first.kind.width());
    numbers.push(operand_of_cell(first.kind, cell))?;
    put_numbers(others, behind, numbers)
}

// The number in the bytes of a column, for an expression.
fn operand_of_cell(kind: ColumnKind, cell: &[u8]) -> Option<i128>
    requires kind { IsTrue (is_kind kind) }
    requires size { length cell.now ≡ column_width kind }
    ensures { (value : Value) → value_in kind cell.now ≡ Some value → result ≡ number_if_any value }
{
    match kind {
        ColumnKind::VarChar { .. } => None,
        _ => number_of_cell(kind, cell),
    }
}

// The number that the bytes of a column are, unless they are NULL's.
fn number_of_cell(kind: ColumnKind, cell: &[u8]) -> Option<i128>
    requires { length cell.now ≡ column_width kind }
    ensures { result ≡ (if slice_index_or cell.now 0 0 == 1 then Some (number_in kind (drop 1 cell.now)) else None) }
{
    let Some((flag, bytes)) = cell.split_first() else {
        return None;
    };
    if *flag != 1 {
        return None;
    }
    Some(number(kind, bytes))
}
