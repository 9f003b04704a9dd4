// The status of runs whose script or volume fails, and what they say.
use std::test::Fail;
use ts_disk::MemorySource;
use ts_programs::{only, reads, run, status, volume};

#[test]
fn a_pull_that_fails_has_its_status(rt: HostRuntime) -> Result<(), Fail> {
    let alloc = rt.alloc();
    let mut sites = vec![in alloc; volume(&rt, alloc, "1")?]?;
    let site = only(&mut sites)?;
    let script = b"GetNelems('n');GetNelems('m');";
    let mut source = MemorySource::new(Vec::from_slice(alloc, script)?, 15);
    source.fail(1)?;
    assert_eq!(rt; status(&rt, alloc, &["run"], site, &mut source)?, 3);
    assert_eq!(rt; site.said(), b"error 10 UnknownName\n".as_slice());
    Ok(())
}

// The first call of a run is the opening's sync, and the first behind its reads is the first say.
#[test]
fn a_sync_or_a_say_that_fails_has_its_status(rt: HostRuntime) -> Result<(), Fail> {
    let opening = reads(&rt, rt.alloc(), "1")?;
    for (number, status) in [(0, 5), (opening.saturating_add(1), 4)] {
        let mut sites = vec![in rt.alloc(); volume(&rt, rt.alloc(), "1")?]?;
        let site = only(&mut sites)?;
        site.fail(site.calls().saturating_add(number))?;
        assert_eq!(rt; run(&rt, rt.alloc(), site, b"GetNelems('n');")?, status);
        assert_eq!(rt; site.said(), b"".as_slice());
    }
    Ok(())
}
