// Transactions: what a stop within each call that isn't a read leaves.
ghost use Rattle.std.specs.Prelude.{◌<◌};
ghost use Rattle.ts_disk.specs.Memory.{site_calls};

use std::alloc::Global;
use std::test::Fail;
use std::thread::Threads;
use ts_disk::MemorySite;
use ts_programs::{PICKS, bytes_after, only, reads, run};

/// Makes two series.
const SERIES: &[u8] = b"CreateRowType(rd, t datetime, v integer);TSContainerCreate(c1, rd, 8);\
    TSCreateIrr('x', c1);TSCreateIrr('y', c1);";

/// Four elements, two in each series.
const FOUR: &[u8] =
    b"Begin;InsElem('x','2011-01-03 00:00:00',1);InsElem('y','2011-01-03 00:00:00',2);\
    InsElem('x','2011-01-04 00:00:00',3);InsElem('y','2011-01-04 00:00:00',4);Commit;";

const FOUR_SAID: &[u8] = b"ok\nok 2011-01-03 00:00:00.00000\nok 2011-01-03 00:00:00.00000\n\
    ok 2011-01-04 00:00:00.00000\nok 2011-01-04 00:00:00.00000\nok 4\n";

// Whether a volume holds all four elements or, where they need not be there, none.
fn holds_all_or_none(
    rt: &(impl Threads + Sync),
    alloc: Global,
    bytes: Vec<u8>,
    all: bool,
) -> Result<bool, Fail> {
    let mut sites = vec![in alloc; MemorySite::new(bytes)?]?;
    let site = only(&mut sites)?;
    let status = run(rt, alloc, site, b"GetNelems('x');GetNelems('y');")?;
    let holds = site.said() == b"ok 2\nok 2\n".as_slice();
    let lacks = site.said() == b"ok 0\nok 0\n".as_slice();
    Ok(status == 0 && (holds || lacks && !all))
}

// The same of each image of a stop in the last call of a run.
fn leaves_all_or_none(
    rt: &(impl Threads + Sync),
    alloc: Global,
    site: &MemorySite,
    call: u64,
    all: bool,
) -> Result<bool, Fail>
    requires { call < site_calls site.now }
{
    for pick in &PICKS {
        if !holds_all_or_none(rt, alloc, site.image(call, *pick)?, all)? {
            return Ok(false);
        }
    }
    Ok(true)
}

// Runs of a transaction, each stopped at the call of one number. The calls from 1 on, so many, only read.
#[test]
fn a_stop_leaves_a_transaction_whole_or_not_at_all(rt: HostRuntime) -> Result<(), Fail> {
    let alloc = rt.alloc();
    let bytes = bytes_after(&rt, alloc, SERIES)?;
    let reads = reads(&rt, alloc, "8")?;
    for call in 0..reads.saturating_add(100) {
        if 1 <= call && call <= reads {
            continue;
        }
        let mut sites = vec![in alloc; MemorySite::new(Vec::from_slice(alloc, &bytes)?)?]?;
        let site = only(&mut sites)?;
        site.fuse(call);
        run(&rt, alloc, site, FOUR)?;
        let is_said = site.said() == FOUR_SAID;
        if site.calls() <= call {
            assert!(rt; call > reads.saturating_add(2) && is_said);
            return Ok(());
        }
        assert!(rt; leaves_all_or_none(&rt, alloc, site, call, is_said)?);
    }
    Err(Fail::from("the run has no end"))
}
