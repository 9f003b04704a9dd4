// What a command changes in memory.
ghost use Rattle.std.specs.Prelude.{◌≡◌};
ghost use Rattle.ts_answer.specs.CarriedOut.{is_nothing};

use ts_model::{Def, Defs, Kind};
use ts_space::{Moved, Space};

/// What a command that was carried out on pages changes in memory, once the pages are kept.
#[derive(Drop)]
pub enum Effect {
    /// Nothing, and no page either.
    Nothing,
    /// Pages alone.
    Pages,
    /// A slot is filled with a definition, or emptied.
    Slot {
        kind: Kind,
        slot: u16,
        def: Option<Def>,
    },
    /// Some places of a series go, and others come in their stead.
    Places {
        slot: u16,
        moved: Moved,
    },
    /// A series goes, with all its places.
    Series {
        slot: u16,
    },
    /// All that is in memory becomes this. In a box: so large a value would make each effect as large.
    Whole {
        defs: Box<Defs>,
        space: Space,
    },
}

impl Effect {
    /// Whether there is none.
    pub fn is_nothing(&self) -> bool
        ensures { result ≡ is_nothing self.now }
    {
        matches!(self, Effect::Nothing)
    }
}
