// The journal as a script fills it: a record for each update, a checkpoint where the next one has no room, and what a
// stop around it, or within an opening over a full journal, leaves.
ghost use Rattle.std.specs.Prelude.{◌<◌};
ghost use Rattle.ts_disk.specs.Memory.{site_calls};

use std::alloc::Global;
use std::test::Fail;
use std::thread::Threads;
use ts_disk::{MemorySite, Pick};
use ts_programs::{PICKS, bytes_after, bytes_of, only, run};

/// Makes one element. What it leaves in the journal goes to its place at the next opening.
const ELEMENT: &[u8] = b"CreateRowType(rd, t datetime, v integer);TSContainerCreate(c1, rd, 8);\
    TSCreateIrr('x', c1);InsElem('x','2011-01-03 00:00:00',0);";

/// A record of one image begins with its open gate, the number of bytes that its entry has, 4101, and the entry's kind.
const RECORD: &[u8] = b"GATEOPEN\0\0\x10\x05\x01";

/// Where the journal begins, and how many bytes each of the records has.
const REGION: usize = 4096;

const RECORD_BYTES: usize = 4113;

// Gives the element the values from 1 on, one after the other.
fn updates(alloc: Global, count: u32) -> Result<Vec<u8>, Fail> {
    let mut script = Vec::new(alloc);
    for number in 0..count {
        let value = number.saturating_add(1);
        let statement = format!(in alloc; "UpdElem('x','2011-01-03 00:00:00',{value});")?;
        script.extend_from_slice(statement.as_bytes())?;
    }
    Ok(script)
}

// A volume of these bytes after so many updates in one run, which ends at the call of this number.
fn updated(
    rt: &(impl Threads + Sync),
    alloc: Global,
    bytes: &[u8],
    count: u32,
    end: u64,
) -> Result<Vec<MemorySite>, Fail> {
    let mut sites = vec![in alloc; MemorySite::new(Vec::from_slice(alloc, bytes)?)?]?;
    let site = only(&mut sites)?;
    site.fuse(end);
    run(rt, alloc, site, &updates(alloc, count)?)?;
    Ok(sites)
}

/// No run here has as many calls.
const NEVER: u64 = 1_000_000;

// How many of the records stand one behind the other.
fn records(bytes: &[u8]) -> usize {
    for number in 0..256usize {
        let record = bytes.get(REGION + RECORD_BYTES * number..);
        if !record.is_some_and(|record| record.starts_with(RECORD)) {
            return number;
        }
    }
    256
}

// Whether an opening finds the element with this value, or with the next one.
fn has_value(
    rt: &(impl Threads + Sync),
    alloc: Global,
    bytes: Vec<u8>,
    value: usize,
) -> Result<bool, Fail> {
    let mut sites = vec![in alloc; MemorySite::new(bytes)?]?;
    let site = only(&mut sites)?;
    let status = run(rt, alloc, site, b"GetElem('x','2011-01-03 00:00:00');")?;
    let next = value.saturating_add(1);
    let now = format!(in alloc; "2011-01-03 00:00:00.00000 {value}\nok 1\n")?;
    let then = format!(in alloc; "2011-01-03 00:00:00.00000 {next}\nok 1\n")?;
    Ok(status == 0 && (site.said() == now.as_bytes() || site.said() == then.as_bytes()))
}

#[test]
fn a_checkpoint_comes_where_the_next_record_has_no_room(rt: HostRuntime) -> Result<(), Fail> {
    let alloc = rt.alloc();
    let bytes = bytes_after(&rt, alloc, ELEMENT)?;
    let mut fulls = updated(&rt, alloc, &bytes, 254, NEVER)?;
    let full = only(&mut fulls)?;
    assert_eq!(rt; records(&bytes_of(alloc, full)?), 254);
    let mut firsts = updated(&rt, alloc, &bytes, 255, NEVER)?;
    let first = only(&mut firsts)?;
    assert_eq!(rt; records(&bytes_of(alloc, first)?), 1);
    Ok(())
}

// Whether each image of a stop in the last call of a run has so many updates, or the next one too.
fn all_have(
    rt: &(impl Threads + Sync),
    alloc: Global,
    site: &MemorySite,
    call: u64,
    updates: usize,
) -> Result<bool, Fail>
    requires { call < site_calls site.now }
{
    for pick in PICKS {
        if !has_value(rt, alloc, site.image(call, pick)?, updates)? {
            return Ok(false);
        }
    }
    Ok(true)
}

// Stops in the ten calls before a checkpoint, in its four and in the ten behind it, where the record before it is of
// the update of this number.
fn stops_around(rt: &(impl Threads + Sync), alloc: Global, last: u32) -> Result<bool, Fail> {
    let bytes = &bytes_after(rt, alloc, ELEMENT)?;
    let checkpoint = only(&mut updated(rt, alloc, bytes, last, NEVER)?)?.calls();
    for call in checkpoint.saturating_sub(10)..checkpoint.saturating_add(14) {
        let mut sites = updated(rt, alloc, bytes, 260, call)?;
        let site = only(&mut sites)?;
        if site.calls() <= call {
            return Ok(false);
        }
        let acknowledged = site.said().iter().filter(|byte| **byte == b'\n').count();
        if !all_have(rt, alloc, site, call, acknowledged)? {
            return Ok(false);
        }
    }
    Ok(true)
}

#[test]
fn a_stop_around_a_checkpoint_leaves_one_update_or_the_next(rt: HostRuntime) -> Result<(), Fail> {
    assert!(rt; stops_around(&rt, rt.alloc(), 254)?);
    Ok(())
}

// Stops in the last calls of an opening over these bytes; the calls before them only read, and leave the bytes.
fn stops_in_opening(
    rt: &(impl Threads + Sync),
    alloc: Global,
    bytes: &[u8],
    value: usize,
) -> Result<bool, Fail> {
    let mut sites = vec![in alloc; MemorySite::new(Vec::from_slice(alloc, bytes)?)?]?;
    let site = only(&mut sites)?;
    run(rt, alloc, site, b"")?;
    let first = site.calls().saturating_sub(12);
    for call in first..site.calls() {
        if call == first && site.image(call, Pick::Half)?.as_slice() != bytes {
            return Ok(false);
        }
        for pick in PICKS {
            if !has_value(rt, alloc, site.image(call, pick)?, value)? {
                return Ok(false);
            }
        }
    }
    has_value(rt, alloc, bytes_of(alloc, site)?, value)
}

#[test]
fn a_stop_in_an_opening_over_a_full_journal_leaves_its_updates(
    rt: HostRuntime,
) -> Result<(), Fail> {
    let alloc = rt.alloc();
    let bytes = bytes_after(&rt, alloc, ELEMENT)?;
    let full = bytes_of(alloc, only(&mut updated(&rt, alloc, &bytes, 254, NEVER)?)?)?;
    // The value of the last update, and of none behind it.
    assert!(rt; stops_in_opening(&rt, alloc, &full, 254)?);
    Ok(())
}
