// A fold of rows in their bytes.
ghost use Rattle.std.specs.Prelude.{◌≡◌, ℕ, ◌+◌, ◌*◌, ◌≤◌, ◌<◌, [], ◌∷◌, ◌++◌, IfOk, OnOk, IsTrue, All, List, Option};
ghost use Rattle.std.specs.Prelude.{if◌then◌else◌, length, map, take};
ghost use Rattle.std.specs.List.{list_all};
ghost use Rattle.ts_row.specs.Row.{Row as TheRow, is_kind, visible, width_of};
ghost use Rattle.ts_entry.specs.Rows.{AreCellsWith, rows_in};
ghost use Rattle.ts_expr.specs.Aggregates.{folded_row};
ghost use Rattle.ts_expr.specs.Running.{after, value_of};
ghost use Rattle.ts_aggregate.specs.Fold.{HasTaken, AreTallies, Takes, most_folded};
ghost use Rattle.ts_aggregate.specs.Column.{AreRowCells};

use crate::cells::{Cells, RowCells, ValuePosition};
use crate::column::{is_told, take_column, take_totals};
use crate::totals::{Sought, Totals};
use std::alloc::{AllocError, Global};
use std::marker::Model;
use ts_entry::{RowVisitor, Stamps};
use ts_expr::{Bound, BoundItem, Function, Tally};
use ts_row::{Column, Row, RowType, Value};

/// A fold of an aggregate list over rows that it takes in their bytes.
#[derive(Drop)]
pub struct Folding<'a> {
    bound: &'a Bound,
    tallies: Vec<Tally>,
}

impl<'a> Model for Folding<'a> {
    ghost use Rattle.ts_aggregate.specs.Fold.{Fold, AreTallies};

    ghost Value = { Fold };

    ghost view = { λ f. record { binding = f.bound.now; tallies = f.tallies.items } };

    ghost invariant = { λ f. AreTallies f.bound.now.items f.tallies.items };
}

impl<'a> Folding<'a> {
    /// A fold that has taken no rows.
    pub fn new(bound: &'a Bound) -> Result<Folding<'a>, AllocError>
        ensures binding { IfOk result (λ folding. folding.binding ≡ bound.now) }
        ensures none { IfOk result (λ folding. HasTaken folding []) }
    {
        let tallies = bound.tallies()?;
        Ok(Folding { bound, tallies })
    }

    /// What the items make of the rows that it has taken, of which the sums of 2^32 fit. It then has taken none.
    pub fn finish(&mut self) -> Result<Row, AllocError>
        ensures made { IfOk result (λ row. (rows : List TheRow) → HasTaken self.old rows → length rows ≤ most_folded
            → row ≡ folded_row self.old.binding.items rows) }
        ensures same { self.new.binding ≡ self.old.binding }
        ensures none { OnOk result (HasTaken self.new []) }
    {
        let mut values = Vec::with_capacity(*self.tallies.allocator(), self.bound.items().len())?;
        self.finish_in(&mut values)?;
        Ok(Row::of(values))
    }

    /// The same, where the values of the row stand in the memory of a list.
    #[inline(always)]
    pub(crate) fn finish_in(&mut self, values: &mut Vec<Value>) -> Result<(), AllocError>
        ensures made { OnOk result ((rows : List TheRow) → HasTaken self.old rows → length rows ≤ most_folded
            → visible values.new.items ≡ folded_row self.old.binding.items rows) }
        ensures same { self.new.binding ≡ self.old.binding }
        ensures none { OnOk result (HasTaken self.new []) }
    {
        renew_all(self.bound.items(), &mut self.tallies, values)?;
        Ok(())
    }

    /// A list with no values.
    pub(crate) fn no_values(&self) -> Vec<Value>
        ensures { result.items ≡ [] }
    {
        Vec::new(*self.tallies.allocator())
    }
}

impl<'a> Folding<'a> {
    /// Takes the rows in cells that stand one behind the other, in each behind so many bytes, hidden ones too.
    fn take(&mut self, kind: &RowType, cells: &[u8], front: usize) -> Result<(), AllocError>
        requires front { 0 < front }
        requires whole { (n : ℕ) × (length cells.now ≡ n * (front + width_of kind.now.columns)) }
        requires few { length cells.now ≤ 4064 }
        ensures took { OnOk result ((found : List (Option TheRow)) → AreCellsWith kind.now.columns front cells.now found
            → Takes kind.now.columns self.old (rows_in found) self.new) }
    {
        if cells.is_empty() {
            return Ok(());
        }
        let size = front + kind.width();
        let row_cells = RowCells {
            size,
            front,
            left: cells.len() / size,
            bytes: cells,
        };
        self.take_cells(kind, row_cells)
    }

    /// The same where it is known how many cells they are.
    pub(crate) fn take_cells(
        &mut self,
        kind: &RowType,
        cells: RowCells<'_>,
    ) -> Result<(), AllocError>
        requires { AreRowCells kind.now.columns cells }
        ensures took { OnOk result ((found : List (Option TheRow))
            → AreCellsWith kind.now.columns cells.entry.front cells.entry.bytes.now found
            → Takes kind.now.columns self.old (rows_in found) self.new) }
    {
        if kind.width() != self.bound.kind().width() {
            return Ok(());
        }
        let alloc = *self.tallies.allocator();
        take_items(
            alloc,
            self.bound.items(),
            self.bound.kind().columns(),
            cells,
            &mut self.tallies,
        )
    }
}

impl<'a> RowVisitor for Folding<'a> {
    ghost use Rattle.std.specs.Prelude.{map};
    ghost use Rattle.ts_aggregate.specs.Fold.{Takes};
    ghost use Rattle.ts_aggregate.specs.Takes.{none_taken, elements_taken};

    ghost took = { λ columns v es w. Takes columns v (map (λ e. e.1) es) w };

    fn rows(
        &mut self,
        kind: &RowType,
        cells: &[u8],
        front: usize,
        _stamps: &Stamps<'_>,
    ) -> Result<(), AllocError> {
        self.take(kind, cells, front)
    }

    ghost none = { none_taken };

    ghost then = { λ columns a b c es others p q. elements_taken columns a b c es others p q };
}

// What the items make of what is known of the rows, in place of some values; then nothing is known.
#[inline(always)]
fn renew_all(
    items: &[BoundItem],
    tallies: &mut [Tally],
    values: &mut Vec<Value>,
) -> Result<(), AllocError>
    requires { AreTallies items.now tallies.old }
    ensures kept { AreTallies items.now tallies.new }
    ensures value { OnOk result (values.new.items ≡ map value_of tallies.old) }
    ensures none { OnOk result (tallies.new ≡ after items.now []) }
{
    values.truncate(items.len());
    for (number, item) in items.iter().enumerate() {
        let value = tallies[number].renew(item.function);
        put(values, number, value)?;
    }
    Ok(())
}

// Puts a value in its place among some, or behind them.
#[inline(always)]
fn put(values: &mut Vec<Value>, number: usize, value: Value) -> Result<(), AllocError>
    requires { number ≤ length values.old.items }
    ensures items { OnOk result (take (number + 1) values.new.items ≡ take number values.old.items ++ value ∷ []) }
    ensures there { OnOk result (number + 1 ≤ length values.new.items) }
    ensures most { OnOk result ((n : ℕ) → length values.old.items ≤ n → number < n → length values.new.items ≤ n) }
{
    if number < values.len() {
        values[number] = value;
        return Ok(());
    }
    values.push(value)?;
    Ok(())
}

// Each item takes the values of its column. Items of one column that stand beside each other look at its cells once.
fn take_items(
    alloc: Global,
    items: &[BoundItem],
    columns: &[Column],
    row_cells: RowCells<'_>,
    tallies: &mut [Tally],
) -> Result<(), AllocError>
    requires tallies { AreTallies items.now tallies.old }
    requires places { All (λ i. i.column < length columns.now) items.now }
    requires whole { AreRowCells columns.now row_cells }
    ensures kept { AreTallies items.now tallies.new }
    ensures took { OnOk result ((found : List (Option TheRow)) → IsTrue (list_all (λ c. is_kind c.kind) columns.now)
        → AreCellsWith columns.now row_cells.entry.front row_cells.entry.bytes.now found
        → (before : List TheRow) → length before + length (rows_in found) ≤ most_folded
        → tallies.old ≡ after items.now before → tallies.new ≡ after items.now (before ++ rows_in found)) }
{
    // The column of which the totals are, or none.
    let mut column = columns.len();
    let mut totals = Totals {
        count: 0,
        sum: 0,
        least: None,
        greatest: None,
    };
    for (number, item) in items.iter().enumerate() {
        if item.column == column && is_told(&tallies[number], &totals) {
            take_totals(&mut tallies[number], &totals);
            continue;
        }
        let kind = columns[item.column].kind;
        let position = ValuePosition {
            size: row_cells.size,
            front: row_cells.front,
            place: row_cells.front + width_before(columns, item.column),
            width: kind.width() - 1,
        };
        let cells = Cells {
            position,
            left: row_cells.left,
            bytes: row_cells.bytes,
        };
        let wanted = wanted_of(&items[number + 1..], item.column);
        let told = take_column(
            alloc,
            &mut tallies[number],
            cells,
            kind,
            wanted,
            &mut totals,
        )?;
        column = told_column(told, item.column, column);
    }
    Ok(())
}

// A column that was told of, or else the one before.
fn told_column(told: bool, column: usize, before: usize) -> usize
    ensures { result ≡ (if told then column else before) }
{
    if told { column } else { before }
}

// What some items want of the least and the greatest of a column.
fn wanted_of(items: &[BoundItem], column: usize) -> Sought {
    let mut wanted = Sought {
        least: false,
        greatest: false,
    };
    for item in items {
        if item.column == column {
            match item.function {
                Function::Min => wanted.least = true,
                Function::Max => wanted.greatest = true,
                _ => {}
            }
        }
    }
    wanted
}

// The bytes of the columns before one.
fn width_before(columns: &[Column], column: usize) -> usize
    requires within { column ≤ length columns.now }
    requires narrow { width_of columns.now ≤ 1000 }
    ensures { result ≡ width_of (take column columns.now) }
{
    let mut width = 0;
    for column in &columns[..column] {
        width += column.kind.width();
    }
    width
}
