// The slots where definitions stand, found by name, and those for new names.
ghost use Rattle.std.specs.Prelude.{ℕ, IfOk};
ghost use Rattle.ts_model.specs.declared.kind.Kind.TheVariants.{Series};
ghost use Rattle.ts_layout.specs.Meaning.{Layout, catalogue_of};
ghost use Rattle.ts_answer.specs.Answer.{wanted, a_new_name};
ghost use Rattle.ts_model.specs.Catalogue.{named};
ghost use Rattle.ts_answer.specs.Slots.{IsFreeSlot, IsSlotNamed, Stands};
ghost use Rattle.ts_answer.specs.Tried.{IsTried};
ghost use Rattle.ts_answer.specs.View.{IsDefinedBy};

use ts_base::{Key, Name, Refusal, Trouble};
use ts_model::{Defs, Kind};

/// An empty slot for a new name; else the name is taken, or no slot is left.
pub fn slot_for(defs: &Defs, kind: Kind, name: &Name) -> Result<u16, Trouble>
    ensures free { IfOk result (λ slot. IsFreeSlot kind slot name.now defs.now.definitions) }
    ensures tried { (count : ℕ) (l : Layout) → IsDefinedBy defs.now.definitions count l
        → IsTried result (a_new_name kind name.now (catalogue_of l))
        (λ slot room. IsFreeSlot kind slot name.now l.definitions) }
{
    empty_slot(defs, kind, name.as_slice())
}

/// The same for a new key.
pub fn slot_for_series(defs: &Defs, key: &Key) -> Result<u16, Trouble>
    ensures free { IfOk result (λ slot. IsFreeSlot Series slot key.now defs.now.definitions) }
    ensures tried { (count : ℕ) (l : Layout) → IsDefinedBy defs.now.definitions count l
        → IsTried result (a_new_name Series key.now (catalogue_of l))
        (λ slot room. IsFreeSlot Series slot key.now l.definitions) }
{
    empty_slot(defs, Kind::Series, key.as_slice())
}

/// The slot that has this name.
pub fn slot_named(defs: &Defs, kind: Kind, name: &Name) -> Result<u16, Trouble>
    ensures found { IfOk result (λ slot. IsSlotNamed kind slot name.now defs.now.definitions) }
    ensures tried { (count : ℕ) (l : Layout) → IsDefinedBy defs.now.definitions count l
        → IsTried result (wanted name.now (named kind (catalogue_of l))) (Stands kind name.now l) }
{
    filled_slot(defs, kind, name.as_slice())
}

/// The slot of the series that has this key.
pub fn series_named(defs: &Defs, key: &Key) -> Result<u16, Trouble>
    ensures found { IfOk result (λ slot. IsSlotNamed Series slot key.now defs.now.definitions) }
    ensures tried { (count : ℕ) (l : Layout) → IsDefinedBy defs.now.definitions count l
        → IsTried result (wanted key.now (catalogue_of l).series) (Stands Series key.now l) }
{
    filled_slot(defs, Kind::Series, key.as_slice())
}

// The same by bytes.
fn empty_slot(defs: &Defs, kind: Kind, name: &[u8]) -> Result<u16, Trouble>
    ensures free { IfOk result (λ slot. IsFreeSlot kind slot name.now defs.now.definitions) }
    ensures tried { (count : ℕ) (l : Layout) → IsDefinedBy defs.now.definitions count l
        → IsTried result (a_new_name kind name.now (catalogue_of l))
        (λ slot room. IsFreeSlot kind slot name.now l.definitions) }
{
    if defs.find(kind, name).is_some() {
        return Err(Trouble::Refused(Refusal::NameTaken));
    }
    match defs.vacant(kind) {
        Some(slot) => Ok(slot),
        None => Err(Trouble::Refused(Refusal::TooMany)),
    }
}

fn filled_slot(defs: &Defs, kind: Kind, name: &[u8]) -> Result<u16, Trouble>
    ensures found { IfOk result (λ slot. IsSlotNamed kind slot name.now defs.now.definitions) }
    ensures tried { (count : ℕ) (l : Layout) → IsDefinedBy defs.now.definitions count l
        → IsTried result (wanted name.now (named kind (catalogue_of l))) (Stands kind name.now l) }
{
    match defs.find(kind, name) {
        Some(slot) => Ok(slot),
        None => Err(Trouble::Refused(Refusal::UnknownName)),
    }
}
