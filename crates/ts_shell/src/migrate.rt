// A store brought to the newest format, with all that it holds.
ghost use Rattle.ts_shell.specs.Migrating.{MigrateRan};

use std::alloc::Global;
use ts_disk::Site;
use ts_opening::{Engine, StepFault, unopened};

/// Opens the volume, and writes its header in the newest format where it has an older one. The program's status.
pub(crate) fn migrate<S: Site>(alloc: Global, site: &mut S) -> u8
    ensures ran { MigrateRan S.tells result (S.device site.old) (S.device site.new) }
{
    match Engine::start(alloc, site) {
        Err(fault) => unopened(&fault),
        Ok(mut engine) => match engine.migrate(site) {
            Ok(()) => 0,
            Err(StepFault::Memory(_)) => 7,
            Err(StepFault::Disk) => 5,
            Err(StepFault::Closed { .. }) => 5,
        },
    }
}
