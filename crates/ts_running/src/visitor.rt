// One that takes rows of numbers.
ghost use Rattle.std.specs.Prelude.{◌≡◌, [], ◌∷◌, ◌++◌, OnOk, List};
ghost use Rattle.ts_row.specs.Row.{Element};
ghost use Rattle.ts_running.specs.Binding.{numbers_row};

use std::alloc::AllocError;
use ts_base::Stamp;

/// Takes rows of numbers that were made, one after the other, each at its stamp, so that no row is kept for it. After
/// an error it may have taken the last one in part.
pub trait NumbersVisitor {
    /// From one state to another, by taking these elements.
    ghost took: { Self → List Element → Self → Type 0 };

    /// Takes the visible row of these numbers; none is NULL.
    fn numbers(&mut self, stamp: Stamp, numbers: &[Option<i128>]) -> Result<(), AllocError>
        ensures took { OnOk result (took self.old ((stamp, numbers_row numbers.now) ∷ []) self.new) };

    ghost none: { (v : Self) → took v [] v };

    ghost then: { (a b c : Self) (es others : List Element) → took a es b → took b others c → took a (es ++ others) c };
}
