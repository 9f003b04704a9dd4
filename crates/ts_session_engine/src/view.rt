// A command is carried out on a view.
ghost use Rattle.std.specs.Prelude.{◌≡◌, ◌<◌, ℕ, [], None, Some, true, false, Err, OnOk, OnErr, IfSome, IfOk, length};
ghost use Rattle.std.specs.Prelude.{◌∷◌, ◌++◌};
ghost use Rattle.std.specs.Option.{IsSome};
ghost use Rattle.ts_command.specs.Boundary.{boundary_of, is_writing};
ghost use Rattle.ts_command.specs.Form.{HasForm};
ghost use Rattle.ts_container.specs.KeptCharges.{AreCharges};
ghost use Rattle.ts_answer.specs.CarriedOut.{CanApply, is_nothing};
ghost use Rattle.ts_effects.specs.Applied.{CanCharge};
ghost use Rattle.ts_effects.specs.Charged.{CanCount};
ghost use Rattle.ts_engine.specs.Change.{reply_of};
ghost use Rattle.ts_engine.specs.Engine.{IsReady};
ghost use Rattle.ts_engine.specs.declared.fault.StepFault.TheVariants.{Closed};
ghost use Rattle.ts_views.specs.View.{view_of};
ghost use Rattle.ts_view_catalogues.specs.Catalogues.{IsViewReady};
ghost use Rattle.ts_session_engine.specs.Beside.{AreBeside, newest};
ghost use Rattle.ts_session_engine.specs.Stepped.{StepsView};
ghost use Rattle.ts_session_engine.specs.Viewed.{StepsOwn, WorksInView, KeepsEffect, KeepsWriting, TakesEffect, IsSameView};

use crate::read::read;
use std::alloc::{AllocError, Global};
use std::thread::Threads;
use ts_answer::{Effect, Stop};
use ts_base::Reply;
use ts_command::Command;
use ts_container::Charges;
use ts_disk::Volume;
use ts_effects::{apply, reserve_for};
use ts_engine::{Engine, StepFault, reads_elements};
use ts_journal::Batch;
use ts_say::say_refusal;
use ts_views::{View, Views};

/// Carries out a command on the open view of a session, by an engine without a transaction: one that neither begins nor
/// ends one. The volume is only read. The view keeps an accepted command that writes, of which it has fewer than 32
/// before. `out` is empty after an error.
pub fn step_view<V: Volume>(
    rt: &(impl Threads + Sync),
    engine: &mut Engine,
    vol: &mut V,
    views: &mut Views,
    who: usize,
    command: &Command,
    out: &mut Reply,
) -> Result<(), StepFault>
    requires within { who < length views.old }
    requires opened { IsSome (view_of who views.old) }
    requires beside { engine.old.spent ≡ None → AreBeside V.tells engine.old views.old (V.device vol.old) }
    requires form { HasForm command.now }
    requires between { boundary_of command.now ≡ None }
    requires room { is_writing command.now ≡ true
        → IfSome (view_of who views.old) (λ v. length v.commands.items < 32) }
    ensures stepped { engine.old.spent ≡ None → StepsView V.tells who command.now result out.new engine.old engine.new
        views.old views.new (V.device vol.old) (V.device vol.new) }
    // An engine that the disk failed makes no call any more.
    ensures closed { (faults : ℕ) → engine.old.spent ≡ Some faults → (result ≡ Err (Closed faults)) × (out.new ≡ [])
        × (engine.new ≡ engine.old) × (views.new ≡ views.old) × (vol.new ≡ vol.old) }
{
    out.clear();
    if let Some(faults) = engine.spent() {
        return Err(StepFault::Closed { faults });
    }
    let Some(view) = views.view(who) else {
        unreachable!()
    };
    match carry_out(rt, engine, vol, view, command, out) {
        Ok(()) => Ok(()),
        Err(fault) => {
            out.clear();
            Err(fault)
        }
    }
}

// The same on one view, by an engine that no call of the disk's failed before.
fn carry_out<V: Volume>(
    rt: &(impl Threads + Sync),
    engine: &mut Engine,
    vol: &mut V,
    view: &mut View,
    command: &Command,
    out: &mut Reply,
) -> Result<(), StepFault>
    requires ready { IsReady V.tells engine.old (V.device vol.old) }
    requires rests { engine.old.saved ≡ None }
    requires view { IsViewReady V.tells view.now (newest engine.old (V.device vol.old)) }
    requires form { HasForm command.now }
    requires between { boundary_of command.now ≡ None }
    requires empty { out.old ≡ [] }
    ensures { StepsOwn V.tells command.now result (reply_of result out.new) engine.old engine.new view.entry.now view.exit.now
        (V.device vol.old) (V.device vol.new) }
{
    if reads_elements(command) {
        return read(rt, engine, vol, view, command, out);
    }
    let alloc = engine.allocator();
    let charges = charges_of(alloc, view)?;
    let free = copy_numbers(alloc, &view.free)?;
    carry_out_with(rt, engine, vol, view, charges, free, command, out)
}

// The same, with what its containers are charged and a copy of its free pages.
fn carry_out_with<V: Volume>(
    rt: &(impl Threads + Sync),
    engine: &mut Engine,
    vol: &mut V,
    view: &mut View,
    charges: Charges,
    free: Vec<u32>,
    command: &Command,
    out: &mut Reply,
) -> Result<(), StepFault>
    requires ready { IsReady V.tells engine.old (V.device vol.old) }
    requires rests { engine.old.saved ≡ None }
    requires view { IsViewReady V.tells view.now (newest engine.old (V.device vol.old)) }
    requires charges { AreCharges charges view.now.defs.definitions view.now.space }
    requires free { free.items ≡ view.now.free.items }
    requires form { HasForm command.now }
    requires between { boundary_of command.now ≡ None }
    requires empty { out.old ≡ [] }
    ensures { StepsOwn V.tells command.now result (reply_of result out.new) engine.old engine.new view.entry.now view.exit.now
        (V.device vol.old) (V.device vol.new) }
{
    let alloc = engine.allocator();
    let mut free = free;
    let mut changes = Batch::new(alloc);
    match work(
        rt,
        engine,
        vol,
        view,
        &mut changes,
        &mut free,
        &charges,
        command,
        out,
    ) {
        Ok(effect) => {
            keep(alloc, view, command, effect, changes, free, charges)?;
            Ok(())
        }
        Err(Stop::Refused(refusal)) => {
            out.clear();
            say_refusal(out, &refusal)?;
            Ok(())
        }
        Err(Stop::Failed) => {
            engine.spend(vol);
            Err(StepFault::Disk)
        }
        Err(Stop::Memory(error)) => Err(StepFault::Memory(error)),
    }
}

// Carries the command out on the pages of the view, and drops the batch of the engine, in which pages were read alone.
fn work<V: Volume>(
    rt: &(impl Threads + Sync),
    engine: &mut Engine,
    vol: &mut V,
    view: &View,
    changes: &mut Batch,
    free: &mut Vec<u32>,
    charges: &Charges,
    command: &Command,
    out: &mut Reply,
) -> Result<Effect, Stop>
    requires ready { IsReady V.tells engine.old (V.device vol.old) }
    requires rests { engine.old.saved ≡ None }
    requires view { IsViewReady V.tells view.now (newest engine.old (V.device vol.old)) }
    requires charges { AreCharges charges.now view.now.defs.definitions view.now.space }
    requires fresh { (changes.old.entries ≡ []) × (free.old.items ≡ view.now.free.items) }
    requires form { HasForm command.now }
    requires between { boundary_of command.now ≡ None }
    requires empty { out.old ≡ [] }
    ensures { WorksInView V.tells command.now result out.new engine.old engine.new view.now changes.new.entries
        free.new.items (V.device vol.old) (V.device vol.new) }
{
    let came = engine.carry_out_in_view(rt, vol, view, changes, free, charges, command, out);
    engine.discard();
    came
}

// What containers are charged by the directory of a view.
fn charges_of(alloc: Global, view: &View) -> Result<Charges, AllocError>
    requires can { CanCount view.now.defs.definitions view.now.space.lists }
    ensures { IfOk result (λ charges. AreCharges charges view.now.defs.definitions view.now.space) }
{
    let mut charges = Charges::new(alloc)?;
    charges.count(&view.defs, &view.space);
    Ok(charges)
}

// The same numbers, in memory of their own.
fn copy_numbers(alloc: Global, numbers: &Vec<u32>) -> Result<Vec<u32>, AllocError>
    ensures { IfOk result (λ copy. copy.items ≡ numbers.now.items) }
{
    numbers.as_slice().to_vec(alloc)
}

// Keeps in a view what a command that was carried out changed, and notes the command, where it writes.
fn keep(
    alloc: Global,
    view: &mut View,
    command: &Command,
    effect: Effect,
    changes: Batch,
    free: Vec<u32>,
    charges: Charges,
) -> Result<(), AllocError>
    requires can { CanApply effect view.now.defs.definitions }
    requires charge { CanCharge effect charges view.now.defs.definitions view.now.space }
    ensures { KeepsEffect command.now effect result changes.entries free.items view.entry.now view.exit.now }
{
    if !command.is_writing() {
        return Ok(());
    }
    keep_writing(alloc, view, command, effect, changes, free, charges)
}

// The same of one that writes.
fn keep_writing(
    alloc: Global,
    view: &mut View,
    command: &Command,
    effect: Effect,
    changes: Batch,
    free: Vec<u32>,
    charges: Charges,
) -> Result<(), AllocError>
    requires can { CanApply effect view.now.defs.definitions }
    requires charge { CanCharge effect charges view.now.defs.definitions view.now.space }
    ensures { KeepsWriting command.now effect result changes.entries free.items view.entry.now view.exit.now }
{
    let count = view.commands.as_slice().len();
    note(view, command)?;
    match take_effect(alloc, view, effect, changes, free, charges) {
        Ok(()) => Ok(()),
        Err(error) => {
            view.commands.truncate(count);
            Err(error)
        }
    }
}

// Notes a command.
fn note(view: &mut View, command: &Command) -> Result<(), AllocError>
    ensures noted { OnOk result (view.exit.now.commands.items ≡ view.entry.now.commands.items ++ command.now ∷ []) }
    ensures unnoted { OnErr result (view.exit.now.commands.items ≡ view.entry.now.commands.items) }
    ensures others { view.exit.now ≡ record view.entry.now { commands = view.exit.now.commands } }
{
    view.commands.reserve(1)?;
    let copy = command.copy()?;
    view.commands.push_reserved(copy);
    Ok(())
}

// Takes the changes, where the effect isn't none.
fn take_effect(
    alloc: Global,
    view: &mut View,
    effect: Effect,
    changes: Batch,
    free: Vec<u32>,
    charges: Charges,
) -> Result<(), AllocError>
    requires can { CanApply effect view.now.defs.definitions }
    requires charge { CanCharge effect charges view.now.defs.definitions view.now.space }
    ensures taken { OnOk result (is_nothing effect ≡ false
        → TakesEffect effect changes.entries free.items view.entry.now view.exit.now) }
    ensures nothing { OnOk result (is_nothing effect ≡ true → view.exit.now ≡ view.entry.now) }
    ensures err { OnErr result (IsSameView view.entry.now view.exit.now) }
    ensures commands { view.exit.now.commands ≡ view.entry.now.commands }
{
    if effect.is_nothing() {
        return Ok(());
    }
    keep_effect(alloc, view, effect, changes, free, charges)
}

// The same of the changes alone.
fn keep_effect(
    alloc: Global,
    view: &mut View,
    effect: Effect,
    changes: Batch,
    free: Vec<u32>,
    charges: Charges,
) -> Result<(), AllocError>
    requires can { CanApply effect view.now.defs.definitions }
    requires charge { CanCharge effect charges view.now.defs.definitions view.now.space }
    ensures ok { OnOk result (TakesEffect effect changes.entries free.items view.entry.now view.exit.now) }
    ensures err { OnErr result (IsSameView view.entry.now view.exit.now) }
    ensures commands { view.exit.now.commands ≡ view.entry.now.commands }
{
    let mut charges = charges;
    changes.rules();
    reserve_for(&mut view.defs, &mut view.space, &effect)?;
    view.own.reserve(changes.len())?;
    apply(alloc, &mut view.defs, &mut view.space, &mut charges, effect);
    view.own.absorb(changes);
    view.free = free;
    Ok(())
}
