// The word `check`: its statuses, what it says, and what it leaves of a volume.
use std::alloc::Global;
use std::test::Fail;
use std::thread::Threads;
use ts_disk::{MemorySite, MemorySource};
use ts_programs::{bytes_of, damage, only, run, status, volume};

/// A regular series with two elements.
const WEEKS: &[u8] =
    b"CreateRowType(rd, t datetime, v integer);CreatePattern(ww, '{1 off,5 on,1 off},day');\
    CreateCalendar(wc, 'startdate(2011-01-02 00:00:00), pattstart(2011-01-02 00:00:00), pattname(ww)');\
    TSContainerCreate(c1, rd, 8);TSCreate('a', wc, '2011-01-03 00:00:00', c1);\
    PutElem('a','2011-01-07 00:00:00',7);PutElem('a','2011-01-10 00:00:00',10);";

const REPORT: &[u8] = b"container c1 charge 1 of 8 series 1\nok 1 of 8\n";

// The status of a check.
fn check(rt: &(impl Threads + Sync), alloc: Global, site: &mut MemorySite) -> Result<u8, Fail> {
    let mut source = MemorySource::new(Vec::from_slice(alloc, b"GetNelems('n');")?, 1);
    Ok(status(rt, alloc, &["check"], site, &mut source)?)
}

// A site of its own over the bytes of another.
fn again(alloc: Global, site: &mut MemorySite) -> Result<MemorySite, Fail> {
    Ok(MemorySite::new(bytes_of(alloc, site)?)?)
}

#[test]
fn a_check_says_its_report_and_leaves_the_volume(rt: HostRuntime) -> Result<(), Fail> {
    let alloc = rt.alloc();
    let mut sites = vec![in alloc; volume(&rt, alloc, "8")?]?;
    let site = only(&mut sites)?;
    run(&rt, alloc, site, WEEKS)?;
    let mut sites = vec![in alloc; again(alloc, site)?]?;
    let site = only(&mut sites)?;
    let bytes = bytes_of(alloc, site)?;
    assert_eq!(rt; check(&rt, alloc, site)?, 0);
    assert_eq!(rt; site.said(), REPORT);
    assert!(rt; bytes_of(alloc, site)? == bytes);
    Ok(())
}

#[test]
fn a_bad_page_is_told_by_a_check_alone(rt: HostRuntime) -> Result<(), Fail> {
    let alloc = rt.alloc();
    let mut sites = vec![in alloc; volume(&rt, alloc, "1")?]?;
    let site = only(&mut sites)?;
    assert!(rt; damage(site, 930 * 4096, &[1]));
    assert_eq!(rt; run(&rt, alloc, site, b"GetNelems('n');")?, 6);
    assert_eq!(rt; site.said(), b"".as_slice());
    assert_eq!(rt; check(&rt, alloc, site)?, 6);
    assert_eq!(rt; site.said(), b"bad page 930\n".as_slice());
    Ok(())
}

// The last call is the say, and all before it read.
#[test]
fn a_check_that_fails_has_the_status_of_what_failed(rt: HostRuntime) -> Result<(), Fail> {
    let alloc = rt.alloc();
    let mut wholes = vec![in alloc; volume(&rt, alloc, "8")?]?;
    let whole = only(&mut wholes)?;
    let before = whole.calls();
    assert_eq!(rt; check(&rt, alloc, whole)?, 0);
    let calls = whole.calls().saturating_sub(before);
    for call in [
        0,
        1,
        calls / 2,
        calls.saturating_sub(2),
        calls.saturating_sub(1),
    ] {
        let mut sites = vec![in alloc; volume(&rt, alloc, "8")?]?;
        let site = only(&mut sites)?;
        site.fail(site.calls().saturating_add(call))?;
        let wanted = if call.saturating_add(1) == calls {
            4
        } else {
            5
        };
        assert_eq!(rt; check(&rt, alloc, site)?, wanted, "at {call}");
        assert_eq!(rt; site.said(), b"".as_slice());
    }
    Ok(())
}

// With the name in it the statement has 65536 bytes at most, or one more.
#[test]
fn blanks_before_a_statement_count(rt: HostRuntime) -> Result<(), Fail> {
    let alloc = rt.alloc();
    for (blanks, said) in [
        (65521, b"error 10 UnknownName\n".as_slice()),
        (65522, b"error 2 TooLong\n".as_slice()),
    ] {
        let mut sites = vec![in alloc; volume(&rt, alloc, "1")?]?;
        let site = only(&mut sites)?;
        let mut script = vec![in alloc; b' '; blanks]?;
        script.extend_from_slice(b"GetNelems('n');")?;
        assert_eq!(rt; run(&rt, alloc, site, &script)?, 0);
        assert_eq!(rt; site.said(), said);
    }
    Ok(())
}
