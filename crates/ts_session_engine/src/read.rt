// A command that reads elements is answered on a view. What its containers are charged isn't counted, and its free pages
// aren't copied.
ghost use Rattle.std.specs.Prelude.{◌≡◌, [], None, true};
ghost use Rattle.ts_command.specs.Form.{HasForm};
ghost use Rattle.ts_engine.specs.Change.{reply_of};
ghost use Rattle.ts_engine.specs.Engine.{IsReady};
ghost use Rattle.ts_engine.specs.Reading.{reads_elements};
ghost use Rattle.ts_engine.specs.Work.{work_of};
ghost use Rattle.ts_view_catalogues.specs.Catalogues.{IsViewReady};
ghost use Rattle.ts_session_engine.specs.Beside.{newest};
ghost use Rattle.ts_session_engine.specs.Read.{ReadsInView};
ghost use Rattle.ts_session_engine.specs.Viewed.{StepsOwn};

use std::mem;
use std::thread::Threads;
use ts_answer::Stop;
use ts_base::Reply;
use ts_command::Command;
use ts_disk::Volume;
use ts_engine::{Engine, StepFault};
use ts_journal::Batch;
use ts_say::say_refusal;
use ts_views::View;

/// Answers it on one view, by an engine that no call of the disk's failed before.
pub(crate) fn read<V: Volume>(
    rt: &(impl Threads + Sync),
    engine: &mut Engine,
    vol: &mut V,
    view: &mut View,
    command: &Command,
    out: &mut Reply,
) -> Result<(), StepFault>
    requires ready { IsReady V.tells engine.old (V.device vol.old) }
    requires rests { engine.old.saved ≡ None }
    requires view { IsViewReady V.tells view.now (newest engine.old (V.device vol.old)) }
    requires form { HasForm command.now }
    requires reads { reads_elements (work_of command.now) ≡ true }
    requires empty { out.old ≡ [] }
    ensures { StepsOwn V.tells command.now result (reply_of result out.new) engine.old engine.new view.entry.now view.exit.now
        (V.device vol.old) (V.device vol.new) }
{
    match read_own(rt, engine, vol, view, command, out) {
        Ok(()) => Ok(()),
        Err(Stop::Refused(refusal)) => {
            out.clear();
            say_refusal(out, &refusal)?;
            Ok(())
        }
        Err(Stop::Failed) => {
            engine.spend(vol);
            Err(StepFault::Disk)
        }
        Err(Stop::Memory(error)) => Err(StepFault::Memory(error)),
    }
}

// Answers it on the pages of the view, whose free pages are lent for that, and drops the batch of the engine.
fn read_own<V: Volume>(
    rt: &(impl Threads + Sync),
    engine: &mut Engine,
    vol: &mut V,
    view: &mut View,
    command: &Command,
    out: &mut Reply,
) -> Result<(), Stop>
    requires ready { IsReady V.tells engine.old (V.device vol.old) }
    requires rests { engine.old.saved ≡ None }
    requires view { IsViewReady V.tells view.now (newest engine.old (V.device vol.old)) }
    requires form { HasForm command.now }
    requires reads { reads_elements (work_of command.now) ≡ true }
    requires empty { out.old ≡ [] }
    ensures { ReadsInView V.tells command.now result out.new engine.old engine.new view.entry.now view.exit.now
        (V.device vol.old) (V.device vol.new) }
{
    let alloc = engine.allocator();
    let mut changes = Batch::new(alloc);
    let mut free = mem::replace(&mut view.free, Vec::new(alloc));
    let came = engine.read_in_view(rt, vol, view, &mut changes, &mut free, command, out);
    view.free = free;
    engine.discard();
    came
}
