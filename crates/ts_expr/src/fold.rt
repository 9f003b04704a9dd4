// The fold of rows, one after the other.
ghost use Rattle.std.specs.Prelude.{◌≡◌, ◌-◌, ◌≤◌, ◌<◌, ◌^◌, List, [], ◌∷◌, ◌++◌, IfOk, OnOk, IsTrue, All, length, map};
ghost use Rattle.ts_row.specs.Row.{Row, visible, fits};
ghost use Rattle.ts_expr.specs.declared.item.BoundItem.{BoundItem};
ghost use Rattle.ts_expr.specs.Aggregates.{folded, rows_of};
ghost use Rattle.ts_expr.specs.Sums.{most_values};
ghost use Rattle.ts_expr.specs.Running.{after, IsAfter, count_of, all_taken, value_of, IsSmall};

use crate::BoundItem;
use crate::bind::Bound;
use crate::tally::Tally;
use std::alloc::{AllocError, Global};
use std::marker::Model;
use ts_row::{Elem, Row, Value};

/// A fold that is under way: it is given the rows of elements one after the other, in order of their stamps.
#[derive(Debug, Drop)]
pub struct Running {
    tallies: Vec<Tally>,
}

impl Model for Running {
    ghost use Rattle.std.specs.Prelude.{List};
    ghost use Rattle.ts_expr.specs.declared.tally.Tally.{Tally};

    ghost Value = { List Tally };

    ghost view = { λ r. r.tallies.items };
}

impl Bound {
    /// What the items make of elements in order of stamps, hidden ones and NULLs left out: one value for each item, a
    /// count of 0 or NULL where there are no values. The sum of so many numbers of at most 28 digits fits.
    pub fn fold(&self, elems: &[Elem]) -> Result<Row, AllocError>
        requires fits { All (λ e. IsTrue (fits self.now.columns e.row)) elems.now }
        requires few { length elems.now ≤ 2 ^ 32 }
        ensures { IfOk result (λ row. row ≡ visible (folded self.now.items (rows_of elems.now))) }
    {
        let mut running = self.start()?;
        for elem in elems {
            running.take(self, &elem.row)?;
        }
        running.finish()
    }

    /// The fold of no row.
    pub fn start(&self) -> Result<Running, AllocError>
        ensures { IfOk result (λ running. running ≡ after self.now.items []) }
    {
        let tallies = self.tallies()?;
        Ok(Running { tallies })
    }

    /// What is known of no values, for each item.
    pub fn tallies(&self) -> Result<Vec<Tally>, AllocError>
        ensures { IfOk result (λ tallies. tallies.items ≡ after self.now.items []) }
    {
        no_tallies(self.allocator(), self.items())
    }
}

impl Running {
    /// One more row. What is known of rows is then known of these and this one.
    pub fn take(&mut self, bound: &Bound, row: &Row) -> Result<(), AllocError>
        requires so_far { IsAfter bound.now.items self.old (2 ^ 32 - 1) }
        requires fits { IsTrue (fits bound.now.columns row.now) }
        ensures { OnOk result ((rows : List Row) → self.old ≡ after bound.now.items rows
            → self.new ≡ after bound.now.items (rows ++ row.now ∷ [])) }
    {
        if row.hidden() {
            return Ok(());
        }
        take_values(bound.items(), row.values(), &mut self.tallies)?;
        Ok(())
    }

    /// What the items make of the rows.
    pub fn finish(self) -> Result<Row, AllocError>
        requires { (items : List BoundItem) × IsAfter items self (2 ^ 32) }
        ensures { IfOk result (λ row. (items : List BoundItem) (rows : List Row) → self ≡ after items rows
            → row ≡ visible (folded items rows)) }
    {
        Ok(Row::of(values_of(self.tallies)?))
    }
}

// What is known of no values.
fn no_tallies(alloc: Global, items: &[BoundItem]) -> Result<Vec<Tally>, AllocError>
    ensures { IfOk result (λ tallies. tallies.items ≡ after items.now []) }
{
    let mut tallies = Vec::with_capacity(alloc, items.len())?;
    for item in items {
        tallies.push(Tally::new(item.function))?;
    }
    Ok(tallies)
}

// The values of a row, each taken by the items of its column.
fn take_values(
    items: &[BoundItem],
    values: &[Value],
    tallies: &mut [Tally],
) -> Result<(), AllocError>
    requires items { length tallies.old ≡ length items.now }
    requires places { All (λ i. i.column < length values.now) items.now }
    requires few { All (λ t. count_of t < most_values) tallies.old }
    requires small { All IsSmall values.now }
    ensures { OnOk result (tallies.new ≡ all_taken items.now values.now tallies.old) }
{
    for (number, item) in items.iter().enumerate() {
        tallies[number].take(&values[item.column])?;
    }
    Ok(())
}

// What the items make of what is known.
fn values_of(tallies: Vec<Tally>) -> Result<Vec<Value>, AllocError>
    requires { All (λ t. count_of t ≤ most_values) tallies.items }
    ensures { IfOk result (λ values. values.items ≡ map value_of tallies.items) }
{
    let mut values = Vec::with_capacity(*tallies.allocator(), tallies.len())?;
    for tally in tallies {
        values.push(tally.into_value())?;
    }
    Ok(values)
}
