// The transaction of a session is committed.
ghost use Rattle.std.specs.Prelude.{◌≡◌, ◌<◌, ◌++◌, [], Some, Ok, OnOk, length, true, codes, decimal};
ghost use Rattle.ts_command.specs.Boundary.{boundary_of};
ghost use Rattle.ts_command.specs.declared.boundary.Boundary.TheVariants.{Commits};
ghost use Rattle.ts_sessions.specs.Steps.{conflict_lines};
ghost use Rattle.ts_session_turns.specs.Hand.{hand, IsHandReady};
ghost use Rattle.ts_session_turns.specs.Turned.{Turned};

use itoa::Buffer;
use std::alloc::AllocError;
use std::thread::Threads;
use ts_base::{Refusal, Reply};
use ts_command::Command;
use ts_disk::Volume;
use ts_multi::Sessions;
use ts_say::say_refusal;
use ts_session_engine::{Engine, StepFault, commit_view};
use ts_views::Views;

/// Commits the transaction of a session, unless a commit stands in its way, or the newest catalogue refuses one of its
/// commands. It ends in any case, but for want of memory.
pub(crate) fn commit<V: Volume>(
    rt: &(impl Threads + Sync),
    engine: &mut Engine,
    vol: &mut V,
    views: &mut Views,
    log: &mut Sessions,
    who: usize,
    command: &Command,
    out: &mut Reply,
) -> Result<(), StepFault>
    requires within { who < length views.old }
    requires ready { IsHandReady V.tells (hand engine.old views.old log.old) (V.device vol.old) }
    requires commits { boundary_of command.now ≡ Some Commits }
    requires few { length log.old.commits < 4294967295 }
    requires room { log.old.room ≡ true }
    requires empty { out.old ≡ [] }
    ensures { Turned V.tells who (Ok command.now) result out.new (hand engine.old views.old log.old)
        (hand engine.new views.new log.new) (V.device vol.old) (V.device vol.new) }
{
    if !log.is_open(who) {
        say_refusal(out, &Refusal::NotOpen)?;
        return Ok(());
    }
    if let Some(number) = log.conflict(who) {
        say_conflict(out, number)?;
        views.close(who);
        log.end(who);
        return Ok(());
    }
    let done = commit_view(rt, engine, vol, views, who, out)?;
    if done {
        log.commit(who);
        return Ok(());
    }
    log.end(who);
    Ok(())
}

// Says which commit stands in the way, and the refusal.
#[tactic(auto, unfolding(ts_sessions::specs::Steps::conflict_lines))]
fn say_conflict(out: &mut Reply, number: u32) -> Result<(), AllocError>
    ensures { OnOk result (out.new ≡ out.old ++ conflict_lines number) }
{
    out.extend_from_slice(b"commit ")?;
    say_number(out, number)?;
    out.push(b'\n')?;
    say_refusal(out, &Refusal::Conflict { commit: number })
}

// Says a number in decimal digits.
fn say_number(out: &mut Reply, number: u32) -> Result<(), AllocError>
    ensures { OnOk result (out.new ≡ out.old ++ decimal number) }
{
    let mut buffer = Buffer::new();
    out.extend_from_slice(buffer.format(number).as_bytes())
}
