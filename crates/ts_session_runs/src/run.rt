// A run of sessions.
ghost use Rattle.std.specs.Prelude.{◌≡◌, ◌≤◌, None, length};
ghost use Rattle.std.specs.List.{sum_by};
ghost use Rattle.ts_sessions.specs.Turns.{turns};
ghost use Rattle.ts_carriers.specs.Run.{status_of, status_of_end};
ghost use Rattle.ts_session_turns.specs.Engine.{IsReady};
ghost use Rattle.ts_session_runs.specs.Ran.{SessionsOver};

use crate::hall::Hall;
use std::alloc::Global;
use std::thread::Threads;
use ts_base::Bytes;
use ts_carriers::RunFault;
use ts_disk::Site;
use ts_session_turns::Engine;

/// Carries sessions out over an engine without a transaction: the scripts of sections, one a session, item by item, in
/// the order that picks decide. Each reply is said behind the line of its session. The status:
///
/// - 0: every turn is answered. These are all items, where there are as many picks.
/// - 4: a reply could not be said whole.
/// - 5: a call of the volume failed.
/// - 7: there was no memory to begin. Nothing was said or written.
pub fn run_sessions<S: Site>(
    rt: &(impl Threads + Sync),
    alloc: Global,
    site: &mut S,
    engine: &mut Engine,
    sections: &[Bytes],
    picks: &[u32],
) -> u8
    requires ready { IsReady S.tells engine.old (S.device site.old) }
    requires rests { engine.old.saved ≡ None }
    requires most { length sections.now ≤ 16 }
    requires short { sum_by length sections.now ≤ 1048576 }
    ensures { SessionsOver S.tells engine.old result (length sections.now) (turns sections.now picks.now)
        (S.device site.old) (S.device site.new) }
{
    match Hall::new(alloc, sections) {
        Err(_) => 7,
        Ok(mut hall) => status_at_end(hall.carry_out_picks(rt, site, engine, picks)),
    }
}

// The status of a fault.
fn status(fault: RunFault) -> u8
    ensures { result ≡ status_of fault }
{
    match fault {
        RunFault::Disk => 5,
        RunFault::Output => 4,
    }
}

// The status of a run whose picks have come to their end.
fn status_at_end(outcome: Result<(), RunFault>) -> u8
    ensures { result ≡ status_of_end outcome }
{
    match outcome {
        Ok(()) => 0,
        Err(fault) => status(fault),
    }
}
