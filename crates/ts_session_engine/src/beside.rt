// A command is carried out on the newest catalogue, beside views.
ghost use Rattle.std.specs.Prelude.{◌≡◌, ℕ, [], None, Some, Err, OnOk};
ghost use Rattle.ts_command.specs.Boundary.{boundary_of};
ghost use Rattle.ts_command.specs.Form.{HasForm};
ghost use Rattle.ts_store.specs.OpenBatch.{IsOver, committed_pages, contents_over};
ghost use Rattle.ts_store.specs.Undisturbed.{Undisturbed};
ghost use Rattle.ts_answer.specs.View.{view};
ghost use Rattle.ts_answer.specs.CarriedOut.{CarriedOut};
ghost use Rattle.ts_hidden.specs.Marks.{Include, IsNoted};
ghost use Rattle.ts_engine.specs.Change.{reply_of};
ghost use Rattle.ts_engine.specs.Engine.{AreMarked};
ghost use Rattle.ts_engine.specs.Work.{IsGiven};
ghost use Rattle.ts_engine.specs.declared.fault.StepFault.TheVariants.{Closed};
ghost use Rattle.ts_session_engine.specs.Beside.{AreBeside, AllHaveMore, AreCovered};
ghost use Rattle.ts_session_engine.specs.Stepped.{StepsBeside};

use crate::keep::keep_old;
use std::thread::Threads;
use ts_answer::{Effect, Stop};
use ts_base::Reply;
use ts_command::Command;
use ts_disk::Volume;
use ts_engine::{Engine, StepFault};
use ts_say::say_refusal;
use ts_views::Views;

/// Carries out a command on the newest catalogue, by an engine without a transaction: one that neither begins nor ends
/// one. Before anything is written, the old image of each page that changes is kept in every open view, so that each
/// stays the catalogue that it is. `out` is empty after an error.
pub fn step_beside<V: Volume>(
    rt: &(impl Threads + Sync),
    engine: &mut Engine,
    vol: &mut V,
    views: &mut Views,
    command: &Command,
    out: &mut Reply,
) -> Result<(), StepFault>
    requires beside { engine.old.spent ≡ None → AreBeside V.tells engine.old views.old (V.device vol.old) }
    requires form { HasForm command.now }
    requires between { boundary_of command.now ≡ None }
    ensures stepped { engine.old.spent ≡ None → StepsBeside V.tells command.now result out.new engine.old engine.new
        views.old views.new (V.device vol.old) (V.device vol.new) }
    // An engine that the disk failed makes no call any more.
    ensures closed { (faults : ℕ) → engine.old.spent ≡ Some faults → (result ≡ Err (Closed faults)) × (out.new ≡ [])
        × (engine.new ≡ engine.old) × (views.new ≡ views.old) × (vol.new ≡ vol.old) }
{
    out.clear();
    if let Some(faults) = engine.spent() {
        return Err(StepFault::Closed { faults });
    }
    match carry_out(rt, engine, vol, views, command, out) {
        Ok(()) => Ok(()),
        Err(fault) => {
            out.clear();
            Err(fault)
        }
    }
}

// The same by an engine that no call of the disk's failed before.
fn carry_out<V: Volume>(
    rt: &(impl Threads + Sync),
    engine: &mut Engine,
    vol: &mut V,
    views: &mut Views,
    command: &Command,
    out: &mut Reply,
) -> Result<(), StepFault>
    requires beside { AreBeside V.tells engine.old views.old (V.device vol.old) }
    requires form { HasForm command.now }
    requires between { boundary_of command.now ≡ None }
    requires empty { out.old ≡ [] }
    ensures { StepsBeside V.tells command.now result (reply_of result out.new) engine.old engine.new
        views.old views.new (V.device vol.old) (V.device vol.new) }
{
    match carry_out_and_keep(rt, engine, vol, views, command, out) {
        Ok(effect) => {
            if effect.is_nothing() {
                engine.discard();
                return Ok(());
            }
            engine.keep(vol, effect)
        }
        Err(Stop::Refused(refusal)) => {
            engine.discard();
            out.clear();
            say_refusal(out, &refusal)?;
            Ok(())
        }
        Err(Stop::Failed) => {
            engine.spend(vol);
            Err(StepFault::Disk)
        }
        Err(Stop::Memory(error)) => {
            engine.discard();
            Err(StepFault::Memory(error))
        }
    }
}

// Carries out the command in the open batch, and keeps the old images of what that changes.
fn carry_out_and_keep<V: Volume>(
    rt: &(impl Threads + Sync),
    engine: &mut Engine,
    vol: &mut V,
    views: &mut Views,
    command: &Command,
    out: &mut Reply,
) -> Result<Effect, Stop>
    requires over { IsOver V.tells engine.old.store (V.device vol.old) }
    requires given { IsGiven V.tells
        (view engine.old.tables.definitions engine.old.space
        (contents_over engine.old.store (V.device vol.old))) engine.old.charges out.old }
    requires marked { AreMarked V.tells engine.old (V.device vol.old) }
    requires form { HasForm command.now }
    requires between { boundary_of command.now ≡ None }
    ensures carried { CarriedOut V.tells command.now result out.new
        (view engine.old.tables.definitions engine.old.space (contents_over engine.old.store (V.device vol.old)))
        (contents_over engine.new.store (V.device vol.new)) }
    ensures lists { engine.new.space.lists ≡ engine.old.space.lists }
    ensures over { IsOver V.tells engine.new.store (V.device vol.new) }
    ensures undisturbed { Undisturbed V.tells engine.old.store engine.new.store (V.device vol.old) (V.device vol.new) }
    ensures noted { OnOk result (IsNoted command.now engine.old.tables.definitions engine.new.hidden) }
    ensures includes { Include engine.new.hidden engine.old.hidden }
    ensures others { engine.new
        ≡ record engine.old { store = engine.new.store; space = engine.new.space; hidden = engine.new.hidden } }
    ensures more { AllHaveMore V.tells (committed_pages engine.old.store (V.device vol.old).held) views.old views.new }
    ensures covered { OnOk result (AreCovered engine.new.store views.new) }
{
    let effect = engine.carry_out_in_batch(rt, vol, command, out)?;
    keep_old(engine.store(), vol, views)?;
    Ok(effect)
}
