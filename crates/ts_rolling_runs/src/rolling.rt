// Rolling sets: what a stop within a put that drops a window leaves.
use std::alloc::Global;
use std::test::Fail;
use std::thread::Threads;
use ts_disk::{MemorySite, Pick};
use ts_programs::{answers, bytes_of, run, volume};

/// A container, the calendar of the days, and a set of two of them.
const SET: &[u8] = b"CreateRowType(rd, t datetime, v integer);TSContainerCreate(c1, rd, 4);\
    CreateCalendar(dc,'startdate(2011-01-03 00:00:00), pattstart(2011-01-03 00:00:00), pattern({1 on},day)');\
    RollingCreate('k', dc, '2011-01-03 00:00:00', c1, 2);";

const SET_SAID: &[u8] = b"ok\nok\nok\nok 2011-01-03 00:00:00.00000\n";

/// Puts into the first day, and into the second.
const FIRST: (&[u8], &[u8]) = (
    b"RollingPut('k','2011-01-03 10:00:00',1);",
    b"ok 2011-01-03 10:00:00.00000\n",
);

const SECOND: (&[u8], &[u8]) = (
    b"RollingPut('k','2011-01-04 00:00:00',2);",
    b"ok 2011-01-04 00:00:00.00000\n",
);

/// A put into the third, by which the first one goes.
const THIRD: (&[u8], &[u8]) = (
    b"RollingPut('k','2011-01-05 00:00:00',3);",
    b"ok 2011-01-05 00:00:00.00000\n",
);

const ALL: &[u8] = b"RollingClip('k','2011-01-01 00:00:00','2011-01-31 00:00:00');";

const LAST_TWO: &[u8] = b"2011-01-04 00:00:00.00000 2\n2011-01-05 00:00:00.00000 3\nok 2\n";

/// What the set has before the third put.
const FIRST_TWO: &[u8] = b"2011-01-03 10:00:00.00000 1\n2011-01-04 00:00:00.00000 2\nok 2\n";

// The bytes of a volume before the third put, with an empty journal.
fn bytes_before(rt: &(impl Threads + Sync), alloc: Global) -> Result<Vec<u8>, Fail> {
    let mut site = volume(rt, alloc, "8")?;
    let talk: [(&[u8], &[u8]); 3] = [(SET, SET_SAID), FIRST, SECOND];
    if !answers(rt, alloc, &mut site, &talk)? {
        return Err(Fail::from("the first two puts failed"));
    }
    run(rt, alloc, &mut site, b"")?;
    bytes_of(alloc, &mut site)
}

// Whether a volume holds the windows behind a put or, where it needn't be there, those before it.
fn holds_either(
    rt: &(impl Threads + Sync),
    alloc: Global,
    bytes: Vec<u8>,
    behind: bool,
) -> Result<bool, Fail> {
    let mut site = MemorySite::new(bytes)?;
    let status = run(rt, alloc, &mut site, ALL)?;
    Ok(status == 0 && (site.said() == LAST_TWO || site.said() == FIRST_TWO && !behind))
}

// Whether a stop in each call of a put by which a window goes and another comes leaves either, by one choice for what
// is pending. The last call says the reply, and by then the put is there.
fn leaves_either(rt: &(impl Threads + Sync), alloc: Global, pick: Pick) -> Result<bool, Fail> {
    let before = bytes_before(rt, alloc)?;
    let mut opened = MemorySite::new(Vec::from_slice(alloc, &before)?)?;
    run(rt, alloc, &mut opened, b"")?;
    let first = opened.calls();
    let mut site = MemorySite::new(before)?;
    let status = run(rt, alloc, &mut site, THIRD.0)?;
    let last = site.calls().saturating_sub(1);
    for call in first..site.calls() {
        if !holds_either(rt, alloc, site.image(call, pick)?, call == last)? {
            return Ok(false);
        }
    }
    Ok(status == 0 && site.said() == THIRD.1 && last > first.saturating_add(3))
}

#[test]
fn a_stop_leaves_two_windows_and_never_three(rt: HostRuntime) -> Result<(), Fail> {
    assert!(rt; leaves_either(&rt, rt.alloc(), Pick::Old)?);
    Ok(())
}

#[test]
fn so_does_a_stop_behind_all_that_is_pending(rt: HostRuntime) -> Result<(), Fail> {
    assert!(rt; leaves_either(&rt, rt.alloc(), Pick::New)?);
    Ok(())
}

#[test]
fn so_does_a_stop_in_the_middle_of_what_is_pending(rt: HostRuntime) -> Result<(), Fail> {
    assert!(rt; leaves_either(&rt, rt.alloc(), Pick::Half)?);
    Ok(())
}

#[test]
fn so_does_a_stop_that_leaves_zeros(rt: HostRuntime) -> Result<(), Fail> {
    assert!(rt; leaves_either(&rt, rt.alloc(), Pick::Fill(0))?);
    Ok(())
}

#[test]
fn so_does_a_stop_that_leaves_ones(rt: HostRuntime) -> Result<(), Fail> {
    assert!(rt; leaves_either(&rt, rt.alloc(), Pick::Fill(255))?);
    Ok(())
}
