// An engine: one volume's store, definitions and directory.
ghost use Rattle.std.specs.Prelude.{◌≡◌, ℕ, [], None, Some, Err};
ghost use Rattle.ts_command.specs.Form.{HasForm};
ghost use Rattle.ts_engine.specs.Engine.{IsReady};
ghost use Rattle.ts_engine.specs.Start.{Started};
ghost use Rattle.ts_engine.specs.Step.{Stepped};
ghost use Rattle.ts_engine.specs.declared.fault.StepFault.TheVariants.{Closed};

use crate::fault::StepFault;
use crate::open::open;
use crate::transaction::Saved;
use std::alloc::Global;
use std::marker::Model;
use std::thread::Threads;
use ts_base::Reply;
use ts_command::Command;
use ts_container::{Charges, SurveyFault};
use ts_disk::Volume;
use ts_hidden::Marks;
use ts_model::Defs;
use ts_page::Page;
use ts_space::Space;
use ts_store::Store;

/// What is kept in memory of a volume that is open.
#[derive(Drop)]
pub struct Engine {
    pub(crate) store: Store,
    pub(crate) defs: Defs,
    pub(crate) space: Space,
    pub(crate) charges: Charges,
    /// The series that may have hidden elements.
    pub(crate) hidden: Marks,
    /// Where a transaction is open, what a rollback goes back to.
    pub(crate) saved: Option<Saved>,
    /// Room to read a page.
    pub(crate) page: Page,
    pub(crate) spent: Option<u64>,
    pub(crate) alloc: Global,
}

impl Model for Engine {
    ghost use Rattle.ts_engine.specs.Engine.{Kept};

    ghost Value = { Kept };

    ghost view = { λ e. record {
      store = e.store;
      tables = e.defs;
      space = e.space;
      charges = e.charges;
      hidden = e.hidden;
      saved = e.saved;
      spent =
          e.spent;
    } };
}

impl Engine {
    /// Opens a volume: syncs it, reads its journal and all pages, and brings the journal's pages to their places.
    pub fn start<V: Volume>(alloc: Global, vol: &mut V) -> Result<Engine, SurveyFault>
        ensures { Started V.tells result (V.device vol.old) (V.device vol.new) }
    {
        match vol.sync() {
            Ok(()) => open(alloc, vol),
            Err(_) => Err(SurveyFault::Failed),
        }
    }

    /// Carries out a command, and gives its reply. `out` is empty after an error. Series of a container are folded by
    /// as many workers as serve; all else is done in the calling thread.
    pub fn step<V: Volume>(
        &mut self,
        rt: &(impl Threads + Sync),
        vol: &mut V,
        command: &Command,
        out: &mut Reply,
    ) -> Result<(), StepFault>
        requires ready { self.old.spent ≡ None → IsReady V.tells self.old (V.device vol.old) }
        requires form { HasForm command.now }
        ensures stepped { self.old.spent ≡ None → Stepped V.tells command.now result out.new self.old self.new
            (V.device vol.old) (V.device vol.new) }
        // An engine that the disk failed makes no call any more.
        ensures closed { (faults : ℕ) → self.old.spent ≡ Some faults → (result ≡ Err (Closed faults)) × (out.new ≡ [])
            × (self.new ≡ self.old) × (vol.new ≡ vol.old) }
    {
        out.clear();
        if let Some(faults) = self.spent {
            return Err(StepFault::Closed { faults });
        }
        match self.carry_out(rt, vol, command, out) {
            Ok(()) => Ok(()),
            Err(fault) => {
                out.clear();
                Err(fault)
            }
        }
    }
}
