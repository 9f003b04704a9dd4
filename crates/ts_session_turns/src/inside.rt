// A command of a session inside its transaction.
ghost use Rattle.std.specs.Prelude.{◌≡◌, ◌<◌, [], None, Ok, IfSome, length, true};
ghost use Rattle.std.specs.Option.{IsSome};
ghost use Rattle.ts_command.specs.Boundary.{boundary_of, is_writing};
ghost use Rattle.ts_command.specs.Form.{HasForm};
ghost use Rattle.ts_multi.specs.Log.{pending_at};
ghost use Rattle.ts_views.specs.View.{view_of};
ghost use Rattle.ts_session_engine.specs.Committed.{commands_of};
ghost use Rattle.ts_session_turns.specs.Hand.{hand, IsHandReady};
ghost use Rattle.ts_session_turns.specs.Turned.{Turned};

use std::thread::Threads;
use ts_answer::ends_with_ok;
use ts_base::{Refusal, Reply};
use ts_command::Command;
use ts_disk::Volume;
use ts_multi::{Sessions, objects};
use ts_say::say_refusal;
use ts_session_engine::{Engine, StepFault, step_view};
use ts_views::Views;

/// So many commands that write a transaction has at most.
const MOST_ACCEPTED: usize = 32;

/// Carries a command out on the view of a session.
pub(crate) fn inside<V: Volume>(
    rt: &(impl Threads + Sync),
    engine: &mut Engine,
    vol: &mut V,
    views: &mut Views,
    log: &mut Sessions,
    who: usize,
    command: &Command,
    out: &mut Reply,
) -> Result<(), StepFault>
    requires within { who < length views.old }
    requires ready { IsHandReady V.tells (hand engine.old views.old log.old) (V.device vol.old) }
    requires transaction { IsSome (pending_at who log.old) }
    requires between { boundary_of command.now ≡ None }
    requires form { HasForm command.now }
    requires room { log.old.room ≡ true }
    requires empty { out.old ≡ [] }
    ensures { Turned V.tells who (Ok command.now) result out.new (hand engine.old views.old log.old)
        (hand engine.new views.new log.new) (V.device vol.old) (V.device vol.new) }
{
    if !command.is_writing() {
        return step_view(rt, engine, vol, views, who, command, out);
    }
    if commands_in(views, who) >= MOST_ACCEPTED {
        say_refusal(out, &Refusal::TransactionFull)?;
        return Ok(());
    }
    inside_writing(rt, engine, vol, views, log, who, command, out)
}

// Carries a command that writes out on the view of a session that has room for it, and notes it where it is accepted.
fn inside_writing<V: Volume>(
    rt: &(impl Threads + Sync),
    engine: &mut Engine,
    vol: &mut V,
    views: &mut Views,
    log: &mut Sessions,
    who: usize,
    command: &Command,
    out: &mut Reply,
) -> Result<(), StepFault>
    requires within { who < length views.old }
    requires ready { IsHandReady V.tells (hand engine.old views.old log.old) (V.device vol.old) }
    requires transaction { IsSome (pending_at who log.old) }
    requires between { boundary_of command.now ≡ None }
    requires writes { is_writing command.now ≡ true }
    requires few { IfSome (view_of who views.old) (λ v. length v.commands.items < 32) }
    requires form { HasForm command.now }
    requires room { log.old.room ≡ true }
    ensures { Turned V.tells who (Ok command.now) result out.new (hand engine.old views.old log.old)
        (hand engine.new views.new log.new) (V.device vol.old) (V.device vol.new) }
{
    let touched = objects(engine.allocator(), command)?;
    step_view(rt, engine, vol, views, who, command, out)?;
    if !ends_with_ok(out.as_slice()) {
        return Ok(());
    }
    log.note(who, touched);
    Ok(())
}

// How many commands the view of a session has.
fn commands_in(views: &mut Views, who: usize) -> usize
    requires within { who < length views.old }
    requires transaction { IsSome (view_of who views.old) }
    ensures count { result ≡ length (commands_of who views.old) }
    ensures same { views.new ≡ views.old }
{
    let Some(view) = views.view(who) else {
        unreachable!()
    };
    view.commands.as_slice().len()
}
