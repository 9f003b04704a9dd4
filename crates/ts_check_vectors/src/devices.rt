// A check over a device that fails, and what a check leaves of a volume.
use crate::volumes::{bytes_of, checked, is_good, with_series};
use std::test::Fail;
use ts_disk::{MemorySite, Volume};

// Each of its calls fails in turn: nothing is said, and the count rises.
#[test]
fn a_read_that_fails_ends_the_check(rt: HostRuntime) -> Result<(), Fail> {
    let alloc = rt.alloc();
    let bytes = bytes_of(alloc, &mut with_series(alloc, 8)?)?;
    let mut whole = MemorySite::new(Vec::from_slice(alloc, &bytes)?)?;
    assert!(rt; checked(&rt, alloc, &mut whole)?.0.is_some());
    assert!(rt; whole.calls() > 600);
    for call in 0..whole.calls() {
        let mut site = MemorySite::new(Vec::from_slice(alloc, &bytes)?)?;
        site.fail(call)?;
        let found = checked(&rt, alloc, &mut site)?;
        assert!(rt; found.0.is_none() && found.1.is_empty() && site.faults() == 1);
        assert_eq!(rt; site.calls(), call.saturating_add(1));
    }
    Ok(())
}

#[test]
fn a_check_leaves_the_bytes_and_says_nothing_itself(rt: HostRuntime) -> Result<(), Fail> {
    let alloc = rt.alloc();
    let mut site = with_series(alloc, 8)?;
    let bytes = bytes_of(alloc, &mut site)?;
    let line = b"container c1 charge 0 of 8 series 2\nok 0 of 8\n";
    assert!(rt; is_good(&rt, alloc, &mut site, line)?);
    assert!(rt; bytes_of(alloc, &mut site)? == bytes);
    assert!(rt; site.said().is_empty());
    Ok(())
}
