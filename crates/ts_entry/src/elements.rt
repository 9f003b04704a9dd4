// One that takes elements.
ghost use Rattle.std.specs.Prelude.{◌≡◌, [], ◌∷◌, ◌++◌, OnOk, List};
ghost use Rattle.ts_row.specs.Row.{Element};

use std::alloc::AllocError;
use ts_base::Stamp;
use ts_row::Row;

/// Takes elements that were made, one after the other. After an error it may have taken the last one in part.
pub trait ElementVisitor {
    /// From one state to another, by taking these elements.
    ghost took: { Self → List Element → Self → Type 0 };

    /// Takes one.
    fn element(&mut self, stamp: Stamp, row: &Row) -> Result<(), AllocError>
        ensures took { OnOk result (took self.old ((stamp, row.now) ∷ []) self.new) };

    ghost none: { (v : Self) → took v [] v };

    ghost then: { (a b c : Self) (es others : List Element) → took a es b → took b others c → took a (es ++ others) c };
}
