// Copies of what is in memory, on which edits are tried that may be refused one behind the other.
ghost use Rattle.std.specs.Prelude.{◌≡◌, IfOk, OnOk};
ghost use Rattle.ts_container.specs.KeptCharges.{AreCharges};
ghost use Rattle.ts_answer.specs.CarriedOut.{CanApply, definitions_after, lists_after};
ghost use Rattle.ts_effects.specs.Charged.{CanCount};
ghost use Rattle.ts_effects.specs.Applied.{CanCharge};
ghost use Rattle.ts_rolling_edits.specs.Parts.{IsWholeOf};

use std::alloc::{AllocError, Global};
use ts_answer::Effect;
use ts_container::Charges;
use ts_effects::{apply, reserve_for};
use ts_model::Defs;
use ts_space::Space;

/// Copies of the definitions and the directory, and what containers are charged by them.
#[derive(Drop)]
pub(crate) struct Copies {
    pub(crate) defs: Defs,
    pub(crate) space: Space,
    pub(crate) charges: Charges,
}

impl Copies {
    /// Copies them, and counts the charges.
    pub(crate) fn of(alloc: Global, defs: &Defs, space: &Space) -> Result<Copies, AllocError>
        requires can { CanCount defs.now.definitions space.now.lists }
        ensures definitions { IfOk result (λ copies. copies.defs.definitions ≡ defs.now.definitions) }
        ensures lists { IfOk result (λ copies. copies.space.lists ≡ space.now.lists) }
        ensures charges { IfOk result
            (λ copies. AreCharges copies.charges copies.defs.definitions copies.space) }
    {
        let defs = defs.copy()?;
        let space = space.copy()?;
        let mut charges = Charges::new(alloc)?;
        charges.count(&defs, &space);
        Ok(Copies {
            defs,
            space,
            charges,
        })
    }

    /// Applies an effect to them.
    pub(crate) fn take(&mut self, alloc: Global, effect: Effect) -> Result<(), AllocError>
        requires can { CanApply effect self.old.defs.definitions }
        requires charge { CanCharge effect self.old.charges self.old.defs.definitions self.old.space }
        ensures definitions { OnOk result
            (self.new.defs.definitions ≡ definitions_after effect self.old.defs.definitions) }
        ensures lists { OnOk result (self.new.space.lists ≡ lists_after effect self.old.space.lists) }
        ensures charges { OnOk result (AreCharges self.new.charges self.new.defs.definitions self.new.space) }
    {
        reserve_for(&mut self.defs, &mut self.space, &effect)?;
        apply(
            alloc,
            &mut self.defs,
            &mut self.space,
            &mut self.charges,
            effect,
        );
        Ok(())
    }

    /// All that is in memory becomes this.
    pub(crate) fn whole(self, alloc: Global) -> Result<Effect, AllocError>
        ensures { IfOk result (λ effect. IsWholeOf self effect) }
    {
        let defs = Box::new(alloc, self.defs)?;
        Ok(Effect::Whole {
            defs,
            space: self.space,
        })
    }
}
