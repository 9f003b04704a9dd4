// Expressions with the columns that they take their values from.
ghost use Rattle.std.specs.Prelude.{◌≡◌, ◌≤◌, All, ◌≤◌, Ok, Some, IfOk, IfErr, IsTrue};
ghost use Rattle.std.specs.List.{list_all};
ghost use Rattle.ts_row.specs.Row.{is_kind};
ghost use Rattle.ts_base.specs.Answer.{Answers, Fails};
ghost use Rattle.ts_running.specs.Binding.{made_of_all, most_part_scale, binding, part_scales};
ghost use Rattle.ts_running.specs.Binding;
ghost use Rattle.ts_running.specs.Instructions.{IsKept};

use crate::instruction::Instruction;
use crate::list::ExprList;
use crate::scale::{ScaledExprs, scaled_exprs};
use crate::step::Step;
use std::alloc::Global;
use std::marker::Model;
use ts_base::{Name, Refusal, Trouble};
use ts_row::{Column, ColumnKind, RowType};

/// The most digits after the point that a part of an expression may have.
pub const MOST_PART_SCALE: u8 = 28;

/// A column of numbers: its number, counted from 0, and the digits after the point of its values.
#[derive(Clone, Copy, Debug, PartialEq, Eq)]
pub struct Source {
    pub column: usize,
    pub scale: u8,
}

/// Expressions over the columns of a row type.
#[derive(Debug, Drop)]
pub struct BoundExpr {
    instructions: Vec<Instruction>,
    scales: Vec<u8>,
}

impl Model for BoundExpr {
    ghost use Rattle.std.specs.Prelude.{◌≡◌, List, Some};
    ghost use Rattle.ts_running.specs.Binding.{made_of_all, Sourced, part_scales};
    ghost use Rattle.ts_running.specs.SourceCodes.{sourced_code};
    ghost use Rattle.ts_running.specs.Instructions.{exprs_in, IsKept};

    ghost Value = { List Sourced };

    ghost coded = { sourced_code };

    ghost view = { λ b. exprs_in b.instructions.items };

    ghost invariant = { λ b. IsKept (exprs_in b.instructions.items) b.instructions.items
        × (made_of_all part_scales (exprs_in b.instructions.items) ≡ Some b.scales.items) };
}

impl ExprList {
    /// The expressions over the columns of a row type. Else why not: the first name from left to right that no value
    /// column has, or that of a column of texts; after all names a part with over 28 digits after the point.
    pub fn bind(&self, kind: &RowType) -> Result<BoundExpr, Trouble>
        ensures { Answers (binding kind.now.columns self.now) result }
    {
        let alloc = self.allocator();
        let steps = bound_steps(alloc, kind.columns(), self.steps())?;
        let Some(exprs) = scaled_exprs(alloc, steps.as_slice())? else {
            return Err(Trouble::Refused(Refusal::BadExpression { place: 0 }));
        };
        let ScaledExprs {
            instructions,
            scales,
        } = exprs;
        Ok(BoundExpr {
            instructions,
            scales,
        })
    }
}

impl BoundExpr {
    /// The digits after the point of each expression: none for a number, for a sum or a difference the greater of both,
    /// for a product their sum.
    pub fn scales(&self) -> &[u8]
        ensures value { made_of_all part_scales self.now ≡ Some result.now }
        ensures most { All (λ s. s ≤ most_part_scale) result.now }
    {
        self.scales.as_slice()
    }

    pub(crate) fn instructions(&self) -> &[Instruction]
        ensures { IsKept self.now result.now }
    {
        self.instructions.as_slice()
    }

    pub(crate) fn allocator(&self) -> Global {
        *self.instructions.allocator()
    }
}

// The steps with their columns.
fn bound_steps(
    alloc: Global,
    columns: &[Column],
    steps: &[Step<Name>],
) -> Result<Vec<Step<Source>>, Trouble>
    requires { IsTrue (list_all (λ c. is_kind c.kind) columns.now) }
    ensures ok { IfOk result (λ bound. Binding.bound_steps columns.now steps.now ≡ Ok bound.items) }
    ensures cause { IfErr result (Fails (Binding.bound_steps columns.now steps.now)) }
{
    let mut bound = Vec::with_capacity(alloc, steps.len())?;
    for step in steps {
        let one = bound_step(columns, step)?;
        bound.push(one)?;
    }
    Ok(bound)
}

// A step with its column.
fn bound_step(columns: &[Column], step: &Step<Name>) -> Result<Step<Source>, Trouble>
    requires { IsTrue (list_all (λ c. is_kind c.kind) columns.now) }
    ensures { Answers (Binding.bound_step columns.now step.now) result }
{
    match step {
        Step::Column(name) => Ok(Step::Column(source_named(columns, name.as_slice())?)),
        Step::Digits(number) => Ok(Step::Digits(*number)),
        Step::Opposite => Ok(Step::Opposite),
        Step::Joined(operation) => Ok(Step::Joined(*operation)),
    }
}

/// The column of this name, if its values are numbers.
pub(crate) fn source_named(columns: &[Column], name: &[u8]) -> Result<Source, Trouble>
    requires { IsTrue (list_all (λ c. is_kind c.kind) columns.now) }
    ensures { Answers (Binding.source_named columns.now name.now) result }
{
    for (number, column) in columns.iter().enumerate() {
        if column.name.as_slice() == name {
            return source_of(number, column.kind);
        }
    }
    Err(Trouble::Refused(Refusal::UnknownColumn))
}

// A column that was found, if its values are numbers.
fn source_of(column: usize, kind: ColumnKind) -> Result<Source, Trouble>
    requires { IsTrue (is_kind kind) }
    ensures { Answers (Binding.source_of (Some (column, kind))) result }
{
    if let ColumnKind::VarChar { .. } = kind {
        return Err(Trouble::Refused(Refusal::BadExpression { place: 0 }));
    }
    let scale = kind.scale() as u8;
    Ok(Source { column, scale })
}
