// The commands of a view are carried out again, in a transaction of the engine.
ghost use Rattle.std.specs.Prelude.{◌≡◌, ◌<◌, ◌∷◌, [], ℕ, true, None, IfSome};
ghost use Rattle.std.specs.Option.{IsSome};
ghost use Rattle.ts_command.specs.Boundary.{boundary_of, is_writing};
ghost use Rattle.ts_command.specs.Form.{HasForm};
ghost use Rattle.ts_engine.specs.Engine.{IsReady};
ghost use Rattle.ts_session_engine.specs.Committed.{AreCommands};
ghost use Rattle.ts_session_engine.specs.Replayed.{IsOpenWith, Replays};

use std::thread::Threads;
use ts_answer::Stop;
use ts_base::Reply;
use ts_command::Command;
use ts_disk::Volume;
use ts_engine::{Engine, StepFault};
use ts_say::say_refusal;

/// Carries out commands in their order, by an engine in a transaction without any. Whether all are accepted; where one
/// isn't, its refusal is the reply, and none behind it is tried.
pub(crate) fn replay<V: Volume>(
    rt: &(impl Threads + Sync),
    engine: &mut Engine,
    vol: &mut V,
    commands: &[Command],
    out: &mut Reply,
) -> Result<bool, StepFault>
    requires ready { IsReady V.tells engine.old (V.device vol.old) }
    requires opened { IsOpenWith 0 engine.old }
    requires commands { AreCommands commands.now }
    ensures { Replays V.tells 0 commands.now result out.new engine.old engine.new (V.device vol.old)
        (V.device vol.new) }
{
    for command in commands {
        let accepted = replay_one(rt, engine, vol, command, out)?;
        if !accepted {
            return Ok(false);
        }
    }
    Ok(true)
}

// The same of one.
fn replay_one<V: Volume>(
    rt: &(impl Threads + Sync),
    engine: &mut Engine,
    vol: &mut V,
    command: &Command,
    out: &mut Reply,
) -> Result<bool, StepFault>
    requires ready { IsReady V.tells engine.old (V.device vol.old) }
    requires opened { IsSome engine.old.saved }
    requires room { IfSome engine.old.saved (λ saved. saved.accepted < 32) }
    requires writing { is_writing command.now ≡ true }
    requires between { boundary_of command.now ≡ None }
    requires form { HasForm command.now }
    ensures { (accepted : ℕ) → IsOpenWith accepted engine.old → Replays V.tells accepted (command.now ∷ []) result
        out.new engine.old engine.new (V.device vol.old) (V.device vol.new) }
{
    out.clear();
    match engine.carry_out_in_batch(rt, vol, command, out) {
        Ok(effect) => {
            if effect.is_nothing() {
                engine.discard();
                engine.count(command);
                return Ok(true);
            }
            engine.join(effect)?;
            engine.count(command);
            Ok(true)
        }
        Err(Stop::Refused(refusal)) => {
            engine.discard();
            out.clear();
            say_refusal(out, &refusal)?;
            Ok(false)
        }
        Err(Stop::Failed) => {
            engine.spend(vol);
            Err(StepFault::Disk)
        }
        Err(Stop::Memory(error)) => {
            engine.discard();
            Err(StepFault::Memory(error))
        }
    }
}
