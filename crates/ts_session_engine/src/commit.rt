// A view is committed: its commands are carried out on the newest catalogue, as one commit.
ghost use Rattle.std.specs.Prelude.{◌≡◌, ◌<◌, ℕ, [], None, Some, Err, length};
ghost use Rattle.std.specs.Option.{IsSome};
ghost use Rattle.ts_engine.specs.declared.fault.StepFault.TheVariants.{Closed};
ghost use Rattle.ts_engine.specs.Engine.{IsReady};
ghost use Rattle.ts_views.specs.View.{view_of};
ghost use Rattle.ts_session_engine.specs.Beside.{AreBeside, AreViewsReady};
ghost use Rattle.ts_session_engine.specs.Committed.{AreCommands, CommitsView, CommitsBeside, commands_of};
ghost use Rattle.ts_session_engine.specs.Replayed.{IsOpenWith, Replays, Ends, CommitsKept};

use crate::keep::keep_old;
use crate::replay::replay;
use std::thread::Threads;
use ts_base::{Reply, StoreFault};
use ts_disk::Volume;
use ts_engine::{Engine, StepFault};
use ts_views::Views;

/// Commits the view of a session, by an engine without a transaction: carries its commands out in their order on the
/// newest catalogue, as one commit, and tells how many they were. Where the newest catalogue refuses one of them,
/// nothing is committed, the first refusal is told, and the answer is false. Both close the view. `out` is empty after
/// an error.
pub fn commit_view<V: Volume>(
    rt: &(impl Threads + Sync),
    engine: &mut Engine,
    vol: &mut V,
    views: &mut Views,
    who: usize,
    out: &mut Reply,
) -> Result<bool, StepFault>
    requires within { who < length views.old }
    requires opened { IsSome (view_of who views.old) }
    requires beside { engine.old.spent ≡ None → AreBeside V.tells engine.old views.old (V.device vol.old) }
    requires commands { AreCommands (commands_of who views.old) }
    ensures committed { engine.old.spent ≡ None → CommitsView V.tells who (commands_of who views.old) result out.new
        engine.old engine.new views.old views.new (V.device vol.old) (V.device vol.new) }
    // An engine that the disk failed makes no call any more.
    ensures closed { (faults : ℕ) → engine.old.spent ≡ Some faults → (result ≡ Err (Closed faults)) × (out.new ≡ [])
        × (engine.new ≡ engine.old) × (views.new ≡ views.old) × (vol.new ≡ vol.old) }
{
    out.clear();
    if let Some(faults) = engine.spent() {
        return Err(StepFault::Closed { faults });
    }
    match commit(rt, engine, vol, views, who, out) {
        Ok(done) => {
            views.close(who);
            Ok(done)
        }
        Err(fault) => {
            out.clear();
            Err(fault)
        }
    }
}

// The same by an engine that no call of the disk's failed before. The view stays open.
fn commit<V: Volume>(
    rt: &(impl Threads + Sync),
    engine: &mut Engine,
    vol: &mut V,
    views: &mut Views,
    who: usize,
    out: &mut Reply,
) -> Result<bool, StepFault>
    requires within { who < length views.old }
    requires opened { IsSome (view_of who views.old) }
    requires beside { AreBeside V.tells engine.old views.old (V.device vol.old) }
    requires commands { AreCommands (commands_of who views.old) }
    ensures { CommitsBeside V.tells (commands_of who views.old) result out.new engine.old engine.new views.old
        views.new (V.device vol.old) (V.device vol.new) }
{
    engine.begin(out)?;
    match replay_and_commit(rt, engine, vol, views, who, out) {
        Ok(true) => Ok(true),
        Ok(false) => {
            engine.give_up();
            Ok(false)
        }
        Err(StepFault::Memory(error)) => {
            engine.give_up();
            Err(StepFault::Memory(error))
        }
        Err(StepFault::Disk) => Err(StepFault::Disk),
        Err(StepFault::Closed { faults }) => Err(StepFault::Closed { faults }),
    }
}

// Replays the commands of a session's view in the open transaction, and commits it where all are accepted.
fn replay_and_commit<V: Volume>(
    rt: &(impl Threads + Sync),
    engine: &mut Engine,
    vol: &mut V,
    views: &mut Views,
    who: usize,
    out: &mut Reply,
) -> Result<bool, StepFault>
    requires within { who < length views.old }
    requires ready { IsReady V.tells engine.old (V.device vol.old) }
    requires transaction { IsOpenWith 0 engine.old }
    requires views { AreViewsReady V.tells engine.old (V.device vol.old) views.old }
    requires opened { IsSome (view_of who views.old) }
    requires commands { AreCommands (commands_of who views.old) }
    ensures { Ends V.tells (commands_of who views.old) result out.new engine.old engine.new views.old views.new
        (V.device vol.old) (V.device vol.new) }
{
    let accepted = replay_view(rt, engine, vol, views, who, out)?;
    if !accepted {
        return Ok(false);
    }
    commit_kept(engine, vol, views, out)?;
    Ok(true)
}

// Replays the commands of a session's view.
fn replay_view<V: Volume>(
    rt: &(impl Threads + Sync),
    engine: &mut Engine,
    vol: &mut V,
    views: &mut Views,
    who: usize,
    out: &mut Reply,
) -> Result<bool, StepFault>
    requires within { who < length views.old }
    requires ready { IsReady V.tells engine.old (V.device vol.old) }
    requires transaction { IsOpenWith 0 engine.old }
    requires opened { IsSome (view_of who views.old) }
    requires commands { AreCommands (commands_of who views.old) }
    ensures replays { Replays V.tells 0 (commands_of who views.old) result out.new engine.old engine.new
        (V.device vol.old) (V.device vol.new) }
    ensures views { views.new ≡ views.old }
{
    let Some(view) = views.view(who) else {
        unreachable!()
    };
    replay(rt, engine, vol, view.commands.as_slice(), out)
}

// Keeps the old images of what the transaction changed, and commits it. The reply tells how many commands it has.
fn commit_kept<V: Volume>(
    engine: &mut Engine,
    vol: &mut V,
    views: &mut Views,
    out: &mut Reply,
) -> Result<(), StepFault>
    requires ready { IsReady V.tells engine.old (V.device vol.old) }
    requires transaction { IsSome engine.old.saved }
    requires views { AreViewsReady V.tells engine.old (V.device vol.old) views.old }
    ensures { CommitsKept V.tells result out.new engine.old engine.new views.old views.new (V.device vol.old)
        (V.device vol.new) }
{
    out.clear();
    match keep_old(engine.store(), vol, views) {
        Ok(()) => engine.commit_all(vol, out),
        Err(StoreFault::Failed) => {
            engine.spend(vol);
            Err(StepFault::Disk)
        }
        Err(StoreFault::Memory(error)) => Err(StepFault::Memory(error)),
    }
}
