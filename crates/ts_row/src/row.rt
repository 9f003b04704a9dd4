ghost use Rattle.std.specs.Prelude.{◌≡◌, IfOk};
ghost use Rattle.ts_row.specs.Row.{visible, marked};

use crate::{RowType, Value};
use std::alloc::{AllocError, Global};
use std::marker::Model;
use ts_base::Stamp;

/// The values of an element, one for each value column, and whether the element is hidden.
#[derive(Debug, Drop)]
pub struct Row {
    values: Vec<Value>,
    hidden: bool,
}

impl Model for Row {
    ghost use Rattle.ts_row.specs.Row.{Row};

    ghost Value = { Row };

    ghost view = { λ r. record { values = r.values.items; hidden = r.hidden } };
}

impl Row {
    /// The visible row of these values.
    pub fn of(values: Vec<Value>) -> Row
        ensures { result ≡ visible values.items }
    {
        Row {
            values,
            hidden: false,
        }
    }

    pub fn values(&self) -> &[Value]
        ensures { result.now ≡ self.now.values }
    {
        self.values.as_slice()
    }

    /// Its values, with their memory.
    pub fn into_values(self) -> Vec<Value>
        ensures { result.items ≡ self.values }
    {
        self.values
    }

    /// Whether the element is hidden.
    pub fn hidden(&self) -> bool
        ensures { result ≡ self.now.hidden }
    {
        self.hidden
    }

    /// Hides the element or makes it visible.
    pub fn mark(&mut self, hidden: bool)
        ensures { self.new ≡ marked hidden self.old }
    {
        self.hidden = hidden;
    }

    pub fn copy(&self) -> Result<Self, AllocError>
        ensures { IfOk result (λ made. made ≡ self.now) }
    {
        Ok(Row {
            values: copy_values(*self.values.allocator(), self.values.as_slice())?,
            hidden: self.hidden,
        })
    }
}

// The same values once more.
fn copy_values(alloc: Global, values: &[Value]) -> Result<Vec<Value>, AllocError>
    ensures { IfOk result (λ made. made.items ≡ values.now) }
{
    let mut made = Vec::with_capacity(alloc, values.len())?;
    for value in values {
        made.push(value.copy()?)?;
    }
    Ok(made)
}

/// An element of a series: a stamp and its row.
#[derive(Debug, Drop)]
pub struct Elem {
    pub stamp: Stamp,
    pub row: Row,
}

/// Where the elements of a series lie: the slot of the series and its row type.
#[derive(Clone, Copy, Debug)]
pub struct Shelf<'a> {
    pub series: u16,
    pub kind: &'a RowType,
}
