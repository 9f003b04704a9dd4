// An aggregate list with the columns that it takes its values from.
ghost use Rattle.std.specs.Prelude.{◌≡◌, ◌<◌, ◌≤◌, Ok, IfOk, IfErr, IfSome, IsTrue, All, length, map};
ghost use Rattle.std.specs.List.{list_all};
ghost use Rattle.ts_row.specs.Row.{is_kind};
ghost use Rattle.ts_base.specs.Answer.{Answers, Fails};
ghost use Rattle.ts_expr.specs.Aggregates.{most_scale, binding, IsBinding};
ghost use Rattle.ts_expr.specs.Aggregates;

use crate::{AggList, BoundItem, Function, Item};
use std::alloc::{AllocError, Global};
use std::marker::Model;
use ts_base::{Refusal, Trouble};
use ts_row::{Column, ColumnKind, RowType};

/// An aggregate list bound to a row type: each item has its column.
#[derive(Debug, Drop)]
pub struct Bound {
    kind: RowType,
    items: Vec<BoundItem>,
    scales: Vec<u8>,
}

impl Model for Bound {
    ghost use Rattle.std.specs.Prelude.{◌≡◌, map};
    ghost use Rattle.ts_expr.specs.Aggregates.{Binding, IsBinding};

    ghost Value = { Binding };

    ghost view = { λ b. record { columns = b.kind.columns; items = b.items.items } };

    ghost invariant = { λ b. IsBinding (record { columns = b.kind.columns; items = b.items.items })
        × (b.scales.items ≡ map (λ i. i.scale) b.items.items) };
}

impl AggList {
    /// The list bound to the columns of a row type; else why the first item that can't be isn't: no value column has
    /// the name, or it is the sum or the mean of texts.
    pub fn bind(&self, kind: &RowType) -> Result<Bound, Trouble>
        ensures value { Answers (binding kind.now.columns self.now) result }
        ensures columns { IfOk result (λ bound. bound.columns ≡ kind.now.columns) }
    {
        let alloc = self.allocator();
        let items = bound_items(alloc, kind.columns(), self.items())?;
        let scales = scales_of(alloc, &items)?;
        let kind = kind.copy()?;
        Ok(Bound {
            kind,
            items,
            scales,
        })
    }
}

impl Bound {
    /// The digits after the point of what each item makes: none for a count or a text, those of the column, or six
    /// more.
    pub fn scales(&self) -> &[u8]
        ensures value { result.now ≡ map (λ i. i.scale) self.now.items }
        ensures most { All (λ s. s ≤ most_scale) result.now }
    {
        self.scales.as_slice()
    }

    /// The row type that the list is bound to.
    pub fn kind(&self) -> &RowType
        ensures { result.now.columns ≡ self.now.columns }
    {
        &self.kind
    }

    /// The items, with their columns.
    pub fn items(&self) -> &[BoundItem]
        ensures value { result.now ≡ self.now.items }
        ensures rules { IsBinding self.now }
    {
        self.items.as_slice()
    }

    pub(crate) fn allocator(&self) -> Global {
        *self.items.allocator()
    }
}

// The items of a list with their columns, from left to right.
fn bound_items(alloc: Global, columns: &[Column], items: &[Item]) -> Result<Vec<BoundItem>, Trouble>
    requires { IsTrue (list_all (λ c. is_kind c.kind) columns.now) }
    ensures ok { IfOk result (λ bound. Aggregates.bound_items columns.now items.now ≡ Ok bound.items) }
    ensures cause { IfErr result (λ trouble. Fails (Aggregates.bound_items columns.now items.now) trouble) }
    ensures places { IfOk result (λ bound. All (λ i. i.column < length columns.now) bound.items) }
    ensures scales { IfOk result (λ bound. All (λ i. i.scale ≤ most_scale) bound.items) }
{
    let mut bound = Vec::with_capacity(alloc, items.len())?;
    for item in items {
        let one = bound_item(columns, item)?;
        bound.push(one)?;
    }
    Ok(bound)
}

// An item of the column that has its name.
fn bound_item(columns: &[Column], item: &Item) -> Result<BoundItem, Trouble>
    requires { IsTrue (list_all (λ c. is_kind c.kind) columns.now) }
    ensures value { Answers (Aggregates.bound columns.now item.now) result }
    ensures within { IfOk result (λ bound. bound.column < length columns.now) }
    ensures scale { IfOk result (λ bound. bound.scale ≤ most_scale) }
{
    let Some((column, kind)) = column_named(columns, item.column.as_slice()) else {
        return Err(Trouble::Refused(Refusal::UnknownColumn));
    };
    if !takes_kind(item.function, kind) {
        return Err(Trouble::Refused(Refusal::BadExpression { place: 0 }));
    }
    Ok(BoundItem {
        function: item.function,
        column,
        scale: made_scale(item.function, kind),
    })
}

// The number and the type of the column that has this name.
fn column_named(columns: &[Column], name: &[u8]) -> Option<(usize, ColumnKind)>
    requires { IsTrue (list_all (λ c. is_kind c.kind) columns.now) }
    ensures value { result ≡ Aggregates.column_from 0 name.now columns.now }
    ensures within { IfSome result (λ c. c.0 < length columns.now) }
    ensures kind { IfSome result (λ c. IsTrue (is_kind c.1)) }
{
    for (number, column) in columns.iter().enumerate() {
        if column.name.as_slice() == name {
            return Some((number, column.kind));
        }
    }
    None
}

// Whether a function takes the values of a column.
fn takes_kind(function: Function, kind: ColumnKind) -> bool
    ensures { result ≡ Aggregates.takes_kind function kind }
{
    match (function, kind) {
        (Function::Sum | Function::Avg, ColumnKind::VarChar { .. }) => false,
        _ => true,
    }
}

// The digits after the point of what a function makes of a column's values.
fn made_scale(function: Function, kind: ColumnKind) -> u8
    requires { IsTrue (is_kind kind) }
    ensures value { result ≡ Aggregates.made_scale function kind }
    ensures most { result ≤ most_scale }
{
    match function {
        Function::Count => 0,
        Function::Avg => kind.scale() as u8 + 6,
        _ => kind.scale() as u8,
    }
}

fn scales_of(alloc: Global, items: &[BoundItem]) -> Result<Vec<u8>, AllocError>
    ensures { IfOk result (λ scales. scales.items ≡ map (λ i. i.scale) items.now) }
{
    let mut scales = Vec::with_capacity(alloc, items.len())?;
    for item in items {
        scales.push(item.scale)?;
    }
    Ok(scales)
}
