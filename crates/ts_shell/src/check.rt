// The report on a volume, which is read alone.
ghost use Rattle.std.specs.Prelude.{◌≡◌};
ghost use Rattle.ts_shell.specs.Checking.{CheckRan, status_of_verdict};

use std::alloc::Global;
use std::thread::Threads;
use ts_base::{Reply, StoreFault};
use ts_check::{Verdict, check_volume};
use ts_disk::Site;
use ts_parallel::OpenGate;

/// Says the report on a volume, or its first bad page. The program's status.
pub(crate) fn check<S: Site>(rt: &(impl Threads + Sync), alloc: Global, site: &mut S) -> u8
    ensures ran { CheckRan S.tells result (S.device site.old) (S.device site.new) }
{
    let mut text = Reply::new(alloc);
    match check_volume(rt, alloc, &OpenGate, site, &mut text) {
        Err(StoreFault::Failed) => 5,
        Err(StoreFault::Memory(_)) => 7,
        Ok(verdict) => match site.say(text.as_slice()) {
            Ok(()) => status_of(verdict),
            Err(_) => 4,
        },
    }
}

// The status of what was found.
fn status_of(verdict: Verdict) -> u8
    ensures { result ≡ status_of_verdict verdict }
{
    match verdict {
        Verdict::Good => 0,
        Verdict::Bad { .. } => 6,
    }
}
