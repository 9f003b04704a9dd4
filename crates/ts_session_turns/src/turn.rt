// A command of a session.
ghost use Rattle.std.specs.Prelude.{◌≡◌, ◌<◌, [], Some, Ok, length};
ghost use Rattle.ts_command.specs.Boundary.{boundary_of};
ghost use Rattle.ts_command.specs.declared.boundary.Boundary.TheVariants.{Alone};
ghost use Rattle.ts_command.specs.Form.{HasForm};
ghost use Rattle.ts_session_turns.specs.Hand.{hand, IsHandReady};
ghost use Rattle.ts_session_turns.specs.Turned.{Turned};

use crate::begin::{begin, roll_back};
use crate::commit::commit;
use crate::inside::inside;
use crate::outside::outside;
use std::thread::Threads;
use ts_base::{Refusal, Reply};
use ts_command::{Boundary, Command};
use ts_disk::Volume;
use ts_multi::Sessions;
use ts_say::say_refusal;
use ts_session_engine::{Engine, StepFault};
use ts_views::Views;

/// Carries out a command of a session, counted from 0, and gives its reply: one that begins, commits or rolls back its
/// transaction, or any other, inside its transaction or outside. A rolling routine is none: it is refused as a syntax
/// error. After an error there is no reply.
pub fn answer<V: Volume>(
    rt: &(impl Threads + Sync),
    engine: &mut Engine,
    vol: &mut V,
    views: &mut Views,
    log: &mut Sessions,
    who: usize,
    command: &Command,
    out: &mut Reply,
) -> Result<(), StepFault>
    requires within { who < length views.old }
    requires ready { IsHandReady V.tells (hand engine.old views.old log.old) (V.device vol.old) }
    requires form { HasForm command.now }
    requires few { length log.old.commits < 4294967295 }
    ensures { Turned V.tells who (Ok command.now) result out.new (hand engine.old views.old log.old)
        (hand engine.new views.new log.new) (V.device vol.old) (V.device vol.new) }
{
    out.clear();
    log.reserve()?;
    match command.boundary() {
        Some(Boundary::Opens) => begin(engine, vol, views, log, who, command, out),
        Some(Boundary::Commits) => commit(rt, engine, vol, views, log, who, command, out),
        Some(Boundary::RollsBack) => roll_back(engine, vol, views, log, who, command, out),
        Some(Boundary::Alone) => refuse(engine, vol, views, log, who, command, out),
        None => {
            if log.is_open(who) {
                inside(rt, engine, vol, views, log, who, command, out)
            } else {
                outside(rt, engine, vol, views, log, who, command, out)
            }
        }
    }
}

// A rolling routine stands in no session.
fn refuse<V: Volume>(
    engine: &Engine,
    vol: &V,
    views: &Views,
    log: &Sessions,
    who: usize,
    command: &Command,
    out: &mut Reply,
) -> Result<(), StepFault>
    requires ready { IsHandReady V.tells (hand engine.now views.now log.now) (V.device vol.now) }
    requires alone { boundary_of command.now ≡ Some Alone }
    requires empty { out.old ≡ [] }
    ensures { Turned V.tells who (Ok command.now) result out.new (hand engine.now views.now log.now)
        (hand engine.now views.now log.now) (V.device vol.now) (V.device vol.now) }
{
    say_refusal(out, &Refusal::Syntax { place: 0 })?;
    Ok(())
}
