// A command of a session without a transaction.
ghost use Rattle.std.specs.Prelude.{◌≡◌, ◌<◌, [], None, Ok, length, true};
ghost use Rattle.std.specs.Option.{IsNone};
ghost use Rattle.ts_command.specs.Boundary.{boundary_of};
ghost use Rattle.ts_command.specs.Form.{HasForm};
ghost use Rattle.ts_multi.specs.Log.{pending_at};
ghost use Rattle.ts_session_turns.specs.Hand.{hand, IsHandReady};
ghost use Rattle.ts_session_turns.specs.Turned.{Turned};

use std::thread::Threads;
use ts_answer::ends_with_ok;
use ts_base::Reply;
use ts_command::Command;
use ts_disk::Volume;
use ts_multi::{Sessions, objects};
use ts_session_engine::{Engine, StepFault, step_beside};
use ts_views::Views;

/// Carries a command out on the newest catalogue. One that writes and is accepted is a commit of its own.
pub(crate) fn outside<V: Volume>(
    rt: &(impl Threads + Sync),
    engine: &mut Engine,
    vol: &mut V,
    views: &mut Views,
    log: &mut Sessions,
    who: usize,
    command: &Command,
    out: &mut Reply,
) -> Result<(), StepFault>
    requires ready { IsHandReady V.tells (hand engine.old views.old log.old) (V.device vol.old) }
    requires closed { IsNone (pending_at who log.old) }
    requires between { boundary_of command.now ≡ None }
    requires form { HasForm command.now }
    requires few { length log.old.commits < 4294967295 }
    requires room { log.old.room ≡ true }
    requires empty { out.old ≡ [] }
    ensures { Turned V.tells who (Ok command.now) result out.new (hand engine.old views.old log.old)
        (hand engine.new views.new log.new) (V.device vol.old) (V.device vol.new) }
{
    if !command.is_writing() {
        return step_beside(rt, engine, vol, views, command, out);
    }
    let touched = objects(engine.allocator(), command)?;
    step_beside(rt, engine, vol, views, command, out)?;
    if !ends_with_ok(out.as_slice()) {
        return Ok(());
    }
    log.commit_alone(touched);
    Ok(())
}
