// Transactions within which something fails, and one whose record has no room: a call of each number, a pull of the
// script, a stop in the checkpoint. All is there or nothing, and the next run is in no transaction.
ghost use Rattle.std.specs.Prelude.{◌<◌};
ghost use Rattle.ts_disk.specs.Memory.{site_calls};

use std::alloc::Global;
use std::test::Fail;
use std::thread::Threads;
use ts_disk::{MemorySite, MemorySource, Pick};
use ts_programs::{PICKS, bytes_after, bytes_of, only, reads, run, status};

/// Makes two series, of which one has an element.
const SERIES: &[u8] = b"CreateRowType(rd, t datetime, v integer);TSContainerCreate(c1, rd, 8);\
    TSCreateIrr('x', c1);TSCreateIrr('y', c1);InsElem('x','2011-01-02 00:00:00',0);";

/// Four elements, two in each series, as one commit, and what is said to each statement.
const FOUR: &[(&[u8], &[u8])] = &[
    (b"Begin;", b"ok\n"),
    (
        b"InsElem('x','2011-01-03 00:00:00',1);",
        b"ok 2011-01-03 00:00:00.00000\n",
    ),
    (
        b"InsElem('y','2011-01-03 00:00:00',2);",
        b"ok 2011-01-03 00:00:00.00000\n",
    ),
    (
        b"InsElem('x','2011-01-04 00:00:00',3);",
        b"ok 2011-01-04 00:00:00.00000\n",
    ),
    (
        b"InsElem('y','2011-01-04 00:00:00',4);",
        b"ok 2011-01-04 00:00:00.00000\n",
    ),
    (b"Commit;", b"ok 4\n"),
];

/// How many of them come before the commit.
const INSIDE: usize = 5;

// The first of them, so many.
fn script_of(alloc: Global, count: usize) -> Result<Vec<u8>, Fail> {
    let mut script = Vec::new(alloc);
    for (statement, _) in FOUR.iter().take(count) {
        script.extend_from_slice(statement)?;
    }
    Ok(script)
}

// What is said to the first of them, so many.
fn said_of(alloc: Global, count: usize) -> Result<Vec<u8>, Fail> {
    let mut said = Vec::new(alloc);
    for (_, reply) in FOUR.iter().take(count) {
        said.extend_from_slice(reply)?;
    }
    Ok(said)
}

/// Whether a volume holds the four elements.
#[derive(Clone, Copy, Debug, PartialEq, Eq)]
enum Held {
    All,
    Nothing,
    Other,
}

// What a next run finds in a volume, where it is in no transaction.
fn held_in(rt: &(impl Threads + Sync), alloc: Global, bytes: Vec<u8>) -> Result<Held, Fail> {
    let mut sites = vec![in alloc; MemorySite::new(bytes)?]?;
    let site = only(&mut sites)?;
    let status = run(rt, alloc, site, b"Commit;GetNelems('x');GetNelems('y');")?;
    if status == 0 && site.said() == b"error 50 NotOpen\nok 3\nok 2\n".as_slice() {
        return Ok(Held::All);
    }
    if status == 0 && site.said() == b"error 50 NotOpen\nok 1\nok 0\n".as_slice() {
        return Ok(Held::Nothing);
    }
    Ok(Held::Other)
}

// The numbers of the calls that say the replies: of a run of so many statements it is the last call.
fn says(rt: &(impl Threads + Sync), alloc: Global, bytes: &[u8]) -> Result<Vec<u64>, Fail> {
    let mut numbers = Vec::new(alloc);
    for count in 0..FOUR.len() {
        let mut sites = vec![in alloc; MemorySite::new(Vec::from_slice(alloc, bytes)?)?]?;
        let site = only(&mut sites)?;
        let count = count.saturating_add(1);
        let status = run(rt, alloc, site, &script_of(alloc, count)?)?;
        if status != 0 || site.said() != said_of(alloc, count)?.as_slice() {
            return Err(Fail::from("another reply"));
        }
        numbers.push(site.calls().saturating_sub(1))?;
    }
    Ok(numbers)
}

// What a failed run leaves: the bytes, and what a stop behind it leaves. Nothing else than these where they differ.
fn left_by(rt: &(impl Threads + Sync), alloc: Global, site: &mut MemorySite) -> Result<Held, Fail> {
    let held = held_in(rt, alloc, bytes_of(alloc, site)?)?;
    // The reading of the bytes is the last call, which leaves what was pending.
    let last = site.calls().saturating_sub(1);
    for pick in [Pick::Old, Pick::New, Pick::Half] {
        if last < site.calls() {
            let image = site.image(last, pick)?;
            if held_in(rt, alloc, image)? != held {
                return Ok(Held::Other);
            }
        }
    }
    Ok(held)
}

// Whether a run in which the call of one number fails ends there, with the status of what failed, and leaves all four
// elements where all before the last reply was done, and none where the commit wasn't begun.
fn fails_well(
    rt: &(impl Threads + Sync),
    alloc: Global,
    bytes: &[u8],
    says: &[u64],
    call: u64,
) -> Result<bool, Fail> {
    let mut sites = vec![in alloc; MemorySite::new(Vec::from_slice(alloc, bytes)?)?]?;
    let site = only(&mut sites)?;
    site.fail(call)?;
    let status = run(rt, alloc, site, &script_of(alloc, FOUR.len())?)?;
    let before = says.iter().filter(|say| **say < call).count();
    let is_say = says.contains(&call);
    let wanted = if is_say { 4 } else { 5 };
    if status != wanted
        || site.calls() != call.saturating_add(1)
        || site.said() != said_of(alloc, before)?.as_slice()
    {
        return Ok(false);
    }
    if before < INSIDE {
        return Ok(left_by(rt, alloc, site)? == Held::Nothing);
    }
    if is_say {
        return Ok(left_by(rt, alloc, site)? == Held::All);
    }
    leaves_either(rt, alloc, site)
}

// Whether the bytes, and each image of a stop behind the last call, hold all or none.
fn leaves_either(
    rt: &(impl Threads + Sync),
    alloc: Global,
    site: &mut MemorySite,
) -> Result<bool, Fail> {
    if held_in(rt, alloc, bytes_of(alloc, site)?)? == Held::Other {
        return Ok(false);
    }
    let last = site.calls().saturating_sub(1);
    for pick in PICKS {
        if last < site.calls() {
            let image = site.image(last, pick)?;
            if held_in(rt, alloc, image)? == Held::Other {
                return Ok(false);
            }
        }
    }
    Ok(true)
}

// The calls from 1 on, so many, only read.
#[test]
fn a_call_that_fails_leaves_a_transaction_whole_or_not_at_all(rt: HostRuntime) -> Result<(), Fail> {
    let alloc = rt.alloc();
    let bytes = bytes_after(&rt, alloc, SERIES)?;
    let says = says(&rt, alloc, &bytes)?;
    let reads = reads(&rt, alloc, "8")?;
    let end = match says.last() {
        Some(say) => say.saturating_add(1),
        None => 0,
    };
    assert!(rt; end > reads.saturating_add(10));
    for call in 0..end {
        if call < 1 || reads < call {
            assert!(rt; fails_well(&rt, alloc, &bytes, &says, call)?, "call {call}");
        }
    }
    Ok(())
}

// The pulls bring a statement each, and the fourth fails.
#[test]
fn a_pull_that_fails_gives_the_transaction_up(rt: HostRuntime) -> Result<(), Fail> {
    let alloc = rt.alloc();
    let mut sites = vec![in alloc; MemorySite::new(bytes_after(&rt, alloc, SERIES)?)?]?;
    let site = only(&mut sites)?;
    let script = b"Begin                               ;InsElem('x','2011-01-03 00:00:00',1);\
        InsElem('y','2011-01-03 00:00:00',2);Commit;";
    let mut source = MemorySource::new(Vec::from_slice(alloc, script)?, 37);
    source.fail(3)?;
    assert_eq!(rt; status(&rt, alloc, &["run"], site, &mut source)?, 3);
    assert_eq!(rt; site.said(), said_of(alloc, 3)?.as_slice());
    assert_eq!(rt; left_by(&rt, alloc, site)?, Held::Nothing);
    Ok(())
}

/// So many records of one image leave no room for one of two.
const UPDATES: u32 = 253;

/// A record of two images begins with its open gate, the number of bytes that its entries have, 8202, and the kind of
/// the first; and where the journal begins.
const RECORD_OF_TWO: &[u8] = b"GATEOPEN\0\0\x20\x0a\x01";

const JOURNAL: usize = 4096;

// Gives the first element so many values, and then carries out the first of the four, so many.
fn over_records(
    rt: &(impl Threads + Sync),
    alloc: Global,
    bytes: &[u8],
    count: usize,
) -> Result<Vec<MemorySite>, Fail> {
    let mut sites = vec![in alloc; MemorySite::new(Vec::from_slice(alloc, bytes)?)?]?;
    let site = only(&mut sites)?;
    let mut script = Vec::new(alloc);
    for number in 0..UPDATES {
        let statement = format!(in alloc; "UpdElem('x','2011-01-02 00:00:00',{number});")?;
        script.extend_from_slice(statement.as_bytes())?;
    }
    script.extend_from_slice(script_of(alloc, count)?.as_slice())?;
    if run(rt, alloc, site, &script)? != 0 {
        return Err(Fail::from("the run failed"));
    }
    Ok(sites)
}

// Whether each image of a stop in a call of this number holds all four elements or, where they may be gone, none.
fn all_hold(
    rt: &(impl Threads + Sync),
    alloc: Global,
    site: &MemorySite,
    call: u64,
    may_lack: bool,
) -> Result<bool, Fail>
    requires { call < site_calls site.now }
{
    for pick in PICKS {
        let held = held_in(rt, alloc, site.image(call, pick)?)?;
        if held == Held::Other || held == Held::Nothing && !may_lack {
            return Ok(false);
        }
    }
    Ok(true)
}

#[test]
fn a_stop_in_a_commit_with_a_checkpoint_leaves_all_or_none(rt: HostRuntime) -> Result<(), Fail> {
    let alloc = rt.alloc();
    let bytes = bytes_after(&rt, alloc, SERIES)?;
    let first = only(&mut over_records(&rt, alloc, &bytes, INSIDE)?)?.calls();
    let mut sites = over_records(&rt, alloc, &bytes, FOUR.len())?;
    let site = only(&mut sites)?;
    let end = site.calls();
    // A write, a sync, a write and a sync bring the page home; then come the record's four calls, and the say.
    assert_eq!(rt; end.saturating_sub(first), 9);
    for call in first..end {
        let is_say = call.saturating_add(1) == end;
        if call < site.calls() {
            assert!(rt; all_hold(&rt, alloc, site, call, !is_say)?, "call {call}");
        }
    }
    let bytes = bytes_of(alloc, site)?;
    assert!(rt;
        bytes
            .get(JOURNAL..)
            .is_some_and(|journal| journal.starts_with(RECORD_OF_TWO))
    );
    Ok(())
}
