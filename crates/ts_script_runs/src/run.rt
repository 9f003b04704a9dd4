// A script, pulled in pieces and carried out piece by piece.
ghost use Rattle.std.specs.Prelude.{◌≡◌, Some, [], length};
ghost use Rattle.ts_carriers.specs.Run.{status_of, status_of_end};
ghost use Rattle.ts_opening.specs.Engine.{IsReady};
ghost use Rattle.ts_script_runs.specs.Script.{OpenedRan};

use crate::session::Session;
use std::thread::Threads;
use ts_carriers::RunFault;
use ts_disk::{Site, Source};
use ts_opening::{pull_front, room_after};

/// The most bytes of a script.
const LIMIT: usize = 268_435_456;

// The status of a fault.
fn status(fault: RunFault) -> u8
    ensures { result ≡ status_of fault }
{
    match fault {
        RunFault::Disk => 5,
        RunFault::Output => 4,
    }
}

// The status of a run whose script has ended.
fn status_at_end(outcome: Result<(), RunFault>) -> u8
    ensures { result ≡ status_of_end outcome }
{
    match outcome {
        Ok(()) => 0,
        Err(fault) => status(fault),
    }
}

/// Carries out the script of a source over a session at its start. The program's status.
pub(crate) fn run_script<S: Site, R: Source>(
    rt: &(impl Threads + Sync),
    session: &mut Session,
    site: &mut S,
    source: &mut R,
    buffer: &mut [u8],
) -> u8
    requires ready { IsReady S.tells session.old.engine (S.device site.old) }
    requires start { session.old.reader.place ≡ Some [] }
    requires piece { length buffer.old ≡ 65536 }
    ensures ran { OpenedRan S.tells R.tells session.old.engine result (S.device site.old) (S.device site.new)
        (R.input source.old) (R.input source.new) }
{
    let mut count = 0;
    loop {
        match pull_front(source, buffer, room_after(LIMIT, count)) {
            Err(_) => return 3,
            Ok(0) => return status_at_end(session.carry_out_end(site)),
            Ok(more) => {
                if count == LIMIT {
                    return 8;
                }
                match session.carry_out_piece(rt, site, &buffer[..more]) {
                    Ok(()) => count += more,
                    Err(fault) => return status(fault),
                }
            }
        }
    }
}
