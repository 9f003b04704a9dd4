// Sessions that aren't begun: a pull that fails, and words without a seed.
use crate::two_sessions::with_series;
use std::alloc::Global;
use std::test::Fail;
use std::thread::Threads;
use ts_disk::{MemorySite, MemorySource};
use ts_programs::{answers, status};

const READ_X: &[u8] = b"Clip('x','2011-01-01 00:00:00','2011-01-31 00:00:00');";

/// What would be carried out.
const INSERTION: &[u8] = b"InsElem('x','2011-01-04 00:00:00',2);\n";

// Whether a source of which a pull fails begins no session: nothing is said, and the series are as they were.
fn begins_none(
    rt: &(impl Threads + Sync),
    alloc: Global,
    site: &mut MemorySite,
    source: &mut MemorySource,
) -> Result<bool, Fail> {
    let before = Vec::from_slice(alloc, site.said())?;
    let status = status(rt, alloc, &["sessions", "1"], site, source)?;
    Ok(
        status == 3
            && site.said() == before.as_slice()
            && answers(rt, alloc, site, &[(READ_X, b"ok 0\n")])?,
    )
}

#[test]
fn a_failed_pull_begins_none(rt: HostRuntime) -> Result<(), Fail> {
    let alloc = rt.alloc();
    let mut site = with_series(&rt, alloc)?;
    for pull in 0..3 {
        let mut source = MemorySource::new(Vec::from_slice(alloc, INSERTION)?, 16);
        source.fail(pull)?;
        assert!(rt; begins_none(&rt, alloc, &mut site, &mut source)?);
    }
    Ok(())
}

// The program itself doesn't come to `run_ts` with such words.
#[test]
fn words_without_a_seed_name_no_job(rt: HostRuntime) -> Result<(), Fail> {
    let alloc = rt.alloc();
    let mut site = with_series(&rt, alloc)?;
    let mut source = MemorySource::new(Vec::from_slice(alloc, INSERTION)?, 7);
    assert!(rt; status(&rt, alloc, &["sessions"], &mut site, &mut source)? == 2);
    assert!(rt;
        status(
            &rt,
            alloc,
            &["sessions", "4294967296"],
            &mut site,
            &mut source
        )? == 2
    );
    assert!(rt;
        status(
            &rt,
            alloc,
            &["sessions", "4294967295"],
            &mut site,
            &mut source
        )? == 0
    );
    Ok(())
}
