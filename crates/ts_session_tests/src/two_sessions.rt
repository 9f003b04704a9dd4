// Two series, and a run of sessions over them.
use std::alloc::Global;
use std::test::Fail;
use std::thread::Threads;
use ts_disk::{MemorySite, MemorySource};
use ts_programs::{run, status, volume};

/// Makes two series.
pub(crate) const SERIES: &[u8] =
    b"CreateRowType(rd, t datetime, v integer);TSContainerCreate(c1, rd, 8);\
    TSCreateIrr('x', c1);TSCreateIrr('y', c1);";

/// Both sessions put an element into one series.
pub(crate) const CLASH: &[u8] = b"Begin; InsElem('x','2011-01-03 00:00:00',1); Commit;\n--session\n\
    Begin; InsElem('x','2011-01-04 00:00:00',2); Commit;\n";

/// What they are answered by the picks of 1, up to the first Commit.
pub(crate) const COMMITTED: &[u8] = b"session 2\nok\nsession 2\nok 2011-01-04 00:00:00.00000\n\
    session 1\nok\nsession 1\nok 2011-01-03 00:00:00.00000\nsession 2\nok 1\n";

/// And the second Commit.
pub(crate) const CONFLICT: &[u8] = b"session 1\ncommit 1\nerror 53 Conflict\n";

/// A volume with both series.
pub(crate) fn with_series(rt: &(impl Threads + Sync), alloc: Global) -> Result<MemorySite, Fail> {
    let mut site = volume(rt, alloc, "8")?;
    run(rt, alloc, &mut site, SERIES)?;
    Ok(site)
}

/// The status of the sessions of a text that comes in pieces of 7 bytes.
pub(crate) fn run_sessions(
    rt: &(impl Threads + Sync),
    alloc: Global,
    site: &mut MemorySite,
    seed: &str,
    text: &[u8],
) -> Result<u8, Fail> {
    let mut source = MemorySource::new(Vec::from_slice(alloc, text)?, 7);
    Ok(status(rt, alloc, &["sessions", seed], site, &mut source)?)
}
