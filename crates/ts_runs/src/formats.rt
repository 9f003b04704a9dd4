// Volumes of the old format, and what brings them to the newest.
use std::alloc::Global;
use std::test::Fail;
use std::thread::Threads;
use ts_disk::MemorySite;
use ts_programs::{PICKS, answers, bytes_of, damage, migrate, only, reads, run, volume};

/// The byte of a volume that tells its format.
const FORMAT_BYTE: u64 = 8;

/// Makes two series in volumes of either format.
const SERIES: &[u8] = b"CreateRowType(rd, t datetime, v integer);TSContainerCreate(c1, rd, 8);\
    TSCreateIrr('x', c1);TSCreateIrr('y', c1);";

/// The calls that a migration over a journal with records makes behind its reads: two writes, a sync, a write and a
/// sync that bring its pages home, and two writes and two syncs of its own.
const LAST_CALLS: u64 = 9;

const HIDE: &[u8] = b"HideElem('x','2011-01-03 00:00:00');";

const READINGS: &[u8] =
    b"ListSeries(c1);TSContainerUsage(c1);GetNelems('x');GetElem('x','2011-01-03 00:00:00');\
    GetLastElem('y');";

// A volume of the old format, as an earlier program left it behind a script, whose records stand in its journal.
fn old_volume_with_records(
    rt: &(impl Threads + Sync),
    alloc: Global,
    script: &[u8],
) -> Result<MemorySite, Fail> {
    let mut sites = vec![in alloc; volume(rt, alloc, "8")?]?;
    let site = only(&mut sites)?;
    if !damage(site, FORMAT_BYTE, &[1]) {
        return Err(Fail::from("no header"));
    }
    run(rt, alloc, site, script)?;
    MemorySite::new(bytes_of(alloc, site)?).map_err(Fail::from)
}

// The same with its journal empty.
fn old_volume(
    rt: &(impl Threads + Sync),
    alloc: Global,
    script: &[u8],
) -> Result<MemorySite, Fail> {
    let mut sites = vec![in alloc; old_volume_with_records(rt, alloc, script)?]?;
    let site = only(&mut sites)?;
    run(rt, alloc, site, b"")?;
    MemorySite::new(bytes_of(alloc, site)?).map_err(Fail::from)
}

// Readings, and a migration of a volume of the newest format, leave each byte.
#[test]
fn a_volume_keeps_its_format_until_it_is_migrated(rt: HostRuntime) -> Result<(), Fail> {
    let alloc = rt.alloc();
    let mut sites = vec![in alloc; old_volume(&rt, alloc, SERIES)?]?;
    let site = only(&mut sites)?;
    let bytes = bytes_of(alloc, site)?;
    assert_eq!(rt; run(&rt, alloc, site, READINGS)?, 0);
    assert!(rt; bytes_of(alloc, site)? == bytes);
    assert_eq!(rt; migrate(&rt, alloc, site)?, 0);
    assert_eq!(rt; run(&rt, alloc, site, b"")?, 0);
    let bytes = bytes_of(alloc, site)?;
    let calls = site.calls();
    assert_eq!(rt; migrate(&rt, alloc, site)?, 0);
    // A sync and the reads of an opening.
    assert_eq!(rt;
        site.calls().saturating_sub(calls),
        reads(&rt, alloc, "8")?.saturating_add(1)
    );
    assert!(rt; bytes_of(alloc, site)? == bytes);
    Ok(())
}

// Whether a volume holds the row type, the container and the two series, in either format.
fn holds_series(rt: &(impl Threads + Sync), alloc: Global, bytes: Vec<u8>) -> Result<bool, Fail> {
    let mut sites = vec![in alloc; MemorySite::new(bytes)?]?;
    let site = only(&mut sites)?;
    let status = run(
        rt,
        alloc,
        site,
        b"ListSeries(c1);TSContainerUsage(c1);HideElem('x','2011-01-03 00:00:00');\
        InsElem('y','2011-01-04 00:00:00',7);",
    )?;
    let is_old = site.said()
        == b"'x' irregular 0\n'y' irregular 0\nok 2\nok 0 8\nerror 44 OldFormat\nok 2011-01-04 00:00:00.00000\n".as_slice();
    let is_new = site.said()
        == b"'x' irregular 0\n'y' irregular 0\nok 2\nok 0 8\nerror 24 Missing\nok 2011-01-04 00:00:00.00000\n".as_slice();
    Ok(status == 0 && (is_old || is_new))
}

// Stops in each call of a migration that isn't a read: the opening's sync, and, behind its reads, the calls that bring
// the journal's pages home and those that write the record.
#[test]
fn a_stop_in_a_migration_leaves_either_format(rt: HostRuntime) -> Result<(), Fail> {
    let alloc = rt.alloc();
    let mut sites = vec![in alloc; old_volume_with_records(&rt, alloc, SERIES)?]?;
    let site = only(&mut sites)?;
    assert_eq!(rt; migrate(&rt, alloc, site)?, 0);
    for call in 0..site.calls() {
        if call > 0 && call.saturating_add(LAST_CALLS) < site.calls() {
            continue;
        }
        for pick in PICKS {
            assert!(rt;
                holds_series(&rt, alloc, site.image(call, pick)?)?,
                "at {call}"
            );
        }
    }
    Ok(())
}

// The first call of a migration is the opening's sync, and the first behind its reads writes the record.
#[test]
fn a_migration_that_the_disk_fails_has_its_status(rt: HostRuntime) -> Result<(), Fail> {
    let opening = reads(&rt, rt.alloc(), "8")?;
    for number in [0, opening.saturating_add(1)] {
        let mut sites = vec![in rt.alloc(); old_volume(&rt, rt.alloc(), SERIES)?]?;
        let site = only(&mut sites)?;
        site.fail(number)?;
        assert_eq!(rt; migrate(&rt, rt.alloc(), site)?, 5, "at {number}");
        let mut sites = vec![in rt.alloc(); MemorySite::new(bytes_of(rt.alloc(), site)?)?]?;
        let site = only(&mut sites)?;
        assert!(rt; answers(&rt, rt.alloc(), site, &[(HIDE, b"error 44 OldFormat\n")])?);
    }
    Ok(())
}
