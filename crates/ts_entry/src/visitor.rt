// One that takes entries.
ghost use Rattle.std.specs.Prelude.{◌≡◌, [], ◌∷◌, ◌++◌, None, OnOk, Some, List, length};
ghost use Rattle.ts_row.specs.declared.kind.Column.{Column};
ghost use Rattle.ts_row.specs.Row.{Row as TheRow, width_of};
ghost use Rattle.ts_entry.specs.Entry.{Entry, AreSeenBytes};

use std::alloc::AllocError;
use ts_base::Stamp;
use ts_row::RowType;

/// Takes entries of a series one after the other, each element with its row in its bytes, so that no row is made of
/// which nothing is kept. After an error it may have taken the entry in part.
pub trait EntryVisitor {
    /// From one state to another, by taking these entries, whose rows have such columns.
    ghost took: { List Column → Self → List Entry → Self → Type 0 };

    /// Takes an element that isn't hidden. Bytes that are no such row's may be taken as any.
    fn element(&mut self, kind: &RowType, stamp: Stamp, row: &[u8]) -> Result<(), AllocError>
        requires size { length row.now ≡ width_of kind.now.columns }
        ensures took { OnOk result ((r : TheRow) → AreSeenBytes kind.now.columns row.now r
            → took kind.now.columns self.old ((stamp, Some r) ∷ []) self.new) };

    /// Takes a stamp at which no element is seen.
    fn blank(&mut self, kind: &RowType, stamp: Stamp) -> Result<(), AllocError>
        ensures took { OnOk result (took kind.now.columns self.old ((stamp, None) ∷ []) self.new) };

    ghost none: { (columns : List Column) (v : Self) → took columns v [] v };

    ghost then: { (columns : List Column) (a b c : Self) (es fs : List Entry) → took columns a es b
        → took columns b fs c
        → took columns a (es ++ fs) c };
}
