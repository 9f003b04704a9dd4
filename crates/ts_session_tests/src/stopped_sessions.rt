// Sessions of which each is stopped at a call, or whose volume fails there: of two transactions on one series the one
// that commits is there whole once its Commit was answered, and before that whole or not at all.
ghost use Rattle.std.specs.Prelude.{◌<◌};
ghost use Rattle.ts_disk.specs.Memory.{site_calls};

use crate::two_sessions::{CLASH, COMMITTED, CONFLICT, SERIES, run_sessions};
use std::alloc::Global;
use std::test::Fail;
use std::thread::Threads;
use ts_disk::MemorySite;
use ts_programs::{PICKS, bytes_after, bytes_of, reads, run};

// Whether a volume holds the element of the second session alone or, where it need not be there, none.
fn holds_the_second(
    rt: &(impl Threads + Sync),
    alloc: Global,
    bytes: Vec<u8>,
    committed: bool,
) -> Result<bool, Fail> {
    let mut site = MemorySite::new(bytes)?;
    let status = run(
        rt,
        alloc,
        &mut site,
        b"Clip('x','2011-01-01 00:00:00','2011-01-31 00:00:00');GetNelems('y');",
    )?;
    let holds = site.said() == b"2011-01-04 00:00:00.00000 2\nok 1\nok 0\n".as_slice();
    let lacks = site.said() == b"ok 0\nok 0\n".as_slice();
    Ok(status == 0 && (holds || lacks && !committed))
}

// The same of each image of a stop in the last call of a run.
fn leaves_the_second(
    rt: &(impl Threads + Sync),
    alloc: Global,
    site: &MemorySite,
    call: u64,
    committed: bool,
) -> Result<bool, Fail>
    requires { call < site_calls site.now }
{
    for pick in &PICKS {
        if !holds_the_second(rt, alloc, site.image(call, *pick)?, committed)? {
            return Ok(false);
        }
    }
    Ok(true)
}

// The calls from 1 on, so many, only read: the opening's.
#[test]
fn a_stop_leaves_the_commits_that_were_answered(rt: HostRuntime) -> Result<(), Fail> {
    let alloc = rt.alloc();
    let bytes = bytes_after(&rt, alloc, SERIES)?;
    let reads = reads(&rt, alloc, "8")?;
    for call in 0..reads.saturating_add(200) {
        if 1 <= call && call <= reads {
            continue;
        }
        let mut site = MemorySite::new(Vec::from_slice(alloc, &bytes)?)?;
        site.fuse(call);
        run_sessions(&rt, alloc, &mut site, "1", CLASH)?;
        let committed = site.said().starts_with(COMMITTED);
        if site.calls() <= call {
            assert!(rt; call > reads.saturating_add(2));
            assert!(rt; committed && site.said().ends_with(CONFLICT));
            return Ok(());
        }
        assert!(rt; leaves_the_second(&rt, alloc, &site, call, committed)?);
    }
    Err(Fail::from("the run has no end"))
}

// The status tells what failed, and the next run finds what was answered.
#[test]
fn a_failure_leaves_the_commits_that_were_answered(rt: HostRuntime) -> Result<(), Fail> {
    let alloc = rt.alloc();
    let bytes = bytes_after(&rt, alloc, SERIES)?;
    let reads = reads(&rt, alloc, "8")?;
    for call in 0..reads.saturating_add(200) {
        if 1 <= call && call <= reads {
            continue;
        }
        let mut site = MemorySite::new(Vec::from_slice(alloc, &bytes)?)?;
        site.fail(call)?;
        let status = run_sessions(&rt, alloc, &mut site, "1", CLASH)?;
        let committed = site.said().starts_with(COMMITTED);
        if site.calls() <= call {
            assert!(rt; status == 0);
            return Ok(());
        }
        assert!(rt; status == 4 || status == 5);
        let left = bytes_of(alloc, &mut site)?;
        assert!(rt; holds_the_second(&rt, alloc, left, committed)?);
    }
    Err(Fail::from("the run has no end"))
}
