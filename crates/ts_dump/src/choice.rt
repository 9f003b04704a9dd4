// What is said of a volume that was read, by slots.
ghost use Rattle.std.specs.Prelude.{◌≡◌, IfSome};
ghost use Rattle.ts_dump.specs.Chosen.{chosen, IsWithin};

use crate::Part;
use ts_model::{Defs, Kind};

/// What is said of a volume.
#[derive(Clone, Copy, Debug, PartialEq, Eq)]
pub(crate) enum Choice {
    All,
    DefinitionsAlone,
    /// The series in a slot, and what it stands on.
    Series { slot: u16 },
}

/// What is wished; none where no series has the key.
pub(crate) fn choose(defs: &Defs, part: Part<'_>) -> Option<Choice>
    ensures value { result ≡ chosen defs.now.definitions part.entry }
    ensures within { IfSome result IsWithin }
{
    match part {
        Part::All => Some(Choice::All),
        Part::DefinitionsAlone => Some(Choice::DefinitionsAlone),
        Part::Series(key) => match defs.find(Kind::Series, key) {
            Some(slot) => Some(Choice::Series { slot }),
            None => None,
        },
    }
}
