// One that takes rows.
ghost use Rattle.std.specs.Prelude.{◌≡◌, ℕ, ◌+◌, ◌*◌, ◌<◌, ◌≤◌, [], ◌++◌, OnOk, List, Option, length};
ghost use Rattle.ts_row.specs.declared.kind.Column.{Column};
ghost use Rattle.ts_row.specs.Row.{Element, width_of};
ghost use Rattle.ts_entry.specs.Rows.{AreCellsOf, elements_in};
ghost use Rattle.ts_entry.specs.Stamps.{IsNear};

use crate::Stamps;
use std::alloc::AllocError;
use ts_row::RowType;

/// Takes elements of a series in order of their stamps, those in many cells at a time, each row in its bytes with the
/// head of its cell: none is made of which nothing is kept. After an error it may have taken some of them.
pub trait RowVisitor {
    /// From one state to another, by taking these elements, hidden ones too, whose rows have such columns.
    ghost took: { List Column → Self → List Element → Self → Type 0 };

    /// Takes the elements in cells of one page that stand one behind the other, in each the row behind so many bytes.
    /// Bytes that are no such cells may be taken as any.
    fn rows(
        &mut self,
        kind: &RowType,
        cells: &[u8],
        front: usize,
        stamps: &Stamps<'_>,
    ) -> Result<(), AllocError>
        requires front { 0 < front }
        requires whole { (n : ℕ) × (length cells.now ≡ n * (front + width_of kind.now.columns)) }
        requires near { IsNear stamps.now }
        requires few { length cells.now ≤ 4064 }
        ensures took { OnOk result ((found : List (Option Element))
            → AreCellsOf kind.now.columns front stamps.now cells.now found
            → took kind.now.columns self.old (elements_in found) self.new) };

    ghost none: { (columns : List Column) (v : Self) → took columns v [] v };

    ghost then: { (columns : List Column) (a b c : Self) (es others : List Element) → took columns a es b
        → took columns b others c
        → took columns a (es ++ others) c };
}
