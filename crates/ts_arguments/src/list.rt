// The lists of a statement: the values of a row, and the value columns of a row type.
ghost use Rattle.std.specs.Prelude.{◌≡◌, [], ◌∷◌, ◌++◌, IfOk, OnOk, OnErr};

use std::alloc::{AllocError, Global};
use std::marker::Model;
use ts_row::{Column, Literal, copy_columns};

/// The values that a statement gives, as it writes them.
#[derive(Debug, Drop)]
pub struct Literals {
    items: Vec<Literal>,
}

impl Model for Literals {
    ghost use Rattle.std.specs.Prelude.{List};
    ghost use Rattle.ts_row.specs.declared.value.Literal.{Literal};

    ghost Value = { List Literal };

    ghost view = { λ l. l.items.items };
}

impl Literals {
    pub(crate) fn new(alloc: Global) -> Literals
        ensures { result ≡ [] }
    {
        Literals {
            items: Vec::new(alloc),
        }
    }

    pub(crate) fn push(&mut self, value: Literal) -> Result<(), AllocError>
        ensures ok { OnOk result (self.new ≡ self.old ++ value ∷ []) }
        ensures err { OnErr result (self.new ≡ self.old) }
    {
        self.items.push(value)?;
        Ok(())
    }

    /// Takes a list as it is.
    pub fn from_vec(items: Vec<Literal>) -> Literals
        ensures { result ≡ items.items }
    {
        Literals { items }
    }

    /// Gives the list back.
    pub fn into_vec(self) -> Vec<Literal>
        ensures { result.items ≡ self }
    {
        let Literals { items } = self;
        items
    }

    pub fn as_slice(&self) -> &[Literal]
        ensures { result.now ≡ self.now }
    {
        self.items.as_slice()
    }

    pub fn copy(&self) -> Result<Self, AllocError>
        ensures { IfOk result (λ made. made ≡ self.now) }
    {
        Ok(Literals {
            items: copy_literals(*self.items.allocator(), self.items.as_slice())?,
        })
    }
}

// The same values once more.
fn copy_literals(alloc: Global, literals: &[Literal]) -> Result<Vec<Literal>, AllocError>
    ensures { IfOk result (λ made. made.items ≡ literals.now) }
{
    let mut made = Vec::with_capacity(alloc, literals.len())?;
    for literal in literals {
        made.push(literal.copy()?)?;
    }
    Ok(made)
}

/// The value columns that a statement lists.
#[derive(Debug, Drop)]
pub struct Columns {
    items: Vec<Column>,
}

impl Model for Columns {
    ghost use Rattle.std.specs.Prelude.{List};
    ghost use Rattle.ts_row.specs.declared.kind.Column.{Column};

    ghost Value = { List Column };

    ghost view = { λ l. l.items.items };
}

impl Columns {
    pub(crate) fn new(alloc: Global) -> Columns
        ensures { result ≡ [] }
    {
        Columns {
            items: Vec::new(alloc),
        }
    }

    pub(crate) fn push(&mut self, column: Column) -> Result<(), AllocError>
        ensures ok { OnOk result (self.new ≡ self.old ++ column ∷ []) }
        ensures err { OnErr result (self.new ≡ self.old) }
    {
        self.items.push(column)?;
        Ok(())
    }

    /// Takes a list as it is.
    pub fn from_vec(items: Vec<Column>) -> Columns
        ensures { result ≡ items.items }
    {
        Columns { items }
    }

    /// Gives the list back.
    pub fn into_vec(self) -> Vec<Column>
        ensures { result.items ≡ self }
    {
        let Columns { items } = self;
        items
    }

    pub fn as_slice(&self) -> &[Column]
        ensures { result.now ≡ self.now }
    {
        self.items.as_slice()
    }

    pub fn copy(&self) -> Result<Self, AllocError>
        ensures { IfOk result (λ made. made ≡ self.now) }
    {
        Ok(Columns {
            items: copy_columns(*self.items.allocator(), self.items.as_slice())?,
        })
    }
}
