// The transaction of a session begins, or is rolled back.
ghost use Rattle.std.specs.Prelude.{◌≡◌, ◌<◌, [], Some, Ok, length};
ghost use Rattle.ts_command.specs.Boundary.{boundary_of};
ghost use Rattle.ts_command.specs.declared.boundary.Boundary.TheVariants.{Opens, RollsBack};
ghost use Rattle.ts_session_turns.specs.Hand.{hand, IsHandReady};
ghost use Rattle.ts_session_turns.specs.Turned.{Turned};

use ts_base::{Refusal, Reply};
use ts_command::Command;
use ts_disk::Volume;
use ts_multi::Sessions;
use ts_say::{say_ok, say_refusal};
use ts_session_engine::{Engine, StepFault, open_view};
use ts_views::Views;

/// Begins the transaction of a session: its view is the newest catalogue.
pub(crate) fn begin<V: Volume>(
    engine: &Engine,
    vol: &V,
    views: &mut Views,
    log: &mut Sessions,
    who: usize,
    command: &Command,
    out: &mut Reply,
) -> Result<(), StepFault>
    requires within { who < length views.old }
    requires ready { IsHandReady V.tells (hand engine.now views.old log.old) (V.device vol.now) }
    requires opens { boundary_of command.now ≡ Some Opens }
    requires empty { out.old ≡ [] }
    ensures { Turned V.tells who (Ok command.now) result out.new (hand engine.now views.old log.old)
        (hand engine.now views.new log.new) (V.device vol.now) (V.device vol.now) }
{
    if log.is_open(who) {
        say_refusal(out, &Refusal::AlreadyOpen)?;
        return Ok(());
    }
    say_ok(out)?;
    open_view(engine, views, who)?;
    log.begin(who);
    Ok(())
}

/// Rolls the transaction of a session back: its view is closed.
pub(crate) fn roll_back<V: Volume>(
    engine: &Engine,
    vol: &V,
    views: &mut Views,
    log: &mut Sessions,
    who: usize,
    command: &Command,
    out: &mut Reply,
) -> Result<(), StepFault>
    requires within { who < length views.old }
    requires ready { IsHandReady V.tells (hand engine.now views.old log.old) (V.device vol.now) }
    requires rolls { boundary_of command.now ≡ Some RollsBack }
    requires empty { out.old ≡ [] }
    ensures { Turned V.tells who (Ok command.now) result out.new (hand engine.now views.old log.old)
        (hand engine.now views.new log.new) (V.device vol.now) (V.device vol.now) }
{
    if !log.is_open(who) {
        say_refusal(out, &Refusal::NotOpen)?;
        return Ok(());
    }
    say_ok(out)?;
    views.close(who);
    log.end(who);
    Ok(())
}
