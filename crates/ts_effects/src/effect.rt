// The effect of a command in memory: on definitions, the directory and what containers are charged, whoever keeps them.
ghost use Rattle.std.specs.Prelude.{◌≡◌, OnOk};
ghost use Rattle.ts_container.specs.KeptCharges.{AreCharges};
ghost use Rattle.ts_answer.specs.CarriedOut.{CanApply, HasRoom, definitions_after, lists_after};
ghost use Rattle.ts_effects.specs.Applied.{CanCharge};

use crate::charge::{change_places, charge_definition, drop_places};
use std::alloc::{AllocError, Global};
use ts_answer::Effect;
use ts_container::Charges;
use ts_model::{Defs, Kind};
use ts_space::Space;

// So many places come with a command at most.
const MOST_COME: usize = 2;

/// Takes the memory for an effect.
pub fn reserve_for(defs: &mut Defs, space: &mut Space, effect: &Effect) -> Result<(), AllocError>
    requires can { CanApply effect.now defs.old.definitions }
    ensures ok { OnOk result (HasRoom effect.now defs.new.room space.new) }
    ensures definitions { defs.new.definitions ≡ defs.old.definitions }
    ensures lists { space.new.lists ≡ space.old.lists }
{
    match effect {
        Effect::Slot { kind, .. } => defs.reserve(*kind),
        Effect::Places { slot, .. } => space.reserve(*slot, MOST_COME),
        Effect::Nothing | Effect::Pages | Effect::Series { .. } | Effect::Whole { .. } => Ok(()),
    }
}

/// Applies an effect, and takes no memory.
pub fn apply(
    alloc: Global,
    defs: &mut Defs,
    space: &mut Space,
    charges: &mut Charges,
    effect: Effect,
)
    requires can { CanApply effect defs.old.definitions }
    requires room { HasRoom effect defs.old.room space.old }
    requires charge { CanCharge effect charges.old defs.old.definitions space.old }
    ensures definitions { defs.new.definitions ≡ definitions_after effect defs.old.definitions }
    ensures lists { space.new.lists ≡ lists_after effect space.old.lists }
    ensures charges { AreCharges charges.new defs.new.definitions space.new }
{
    match effect {
        Effect::Nothing | Effect::Pages => {}
        Effect::Slot { kind, slot, def } => {
            defs.set(kind, slot, def);
            charge_definition(defs, space, charges, kind, slot);
        }
        Effect::Places { slot, moved } => {
            // A directory has a list for each slot.
            let _slots = space.places(slot);
            change_places(alloc, defs, space, charges, slot, Some(moved));
        }
        Effect::Series { slot } => {
            drop_places(alloc, defs, space, charges, slot);
            defs.set(Kind::Series, slot, None);
        }
        Effect::Whole {
            defs: new,
            space: directory,
        } => {
            let made = Box::into_inner(new);
            charges.count(&made, &directory);
            *defs = made;
            *space = directory;
        }
    }
}
