// Stores in memory that scripts make, and their dumps.
use std::alloc::{AllocError, Global};
use std::test::Fail;
use std::thread::Threads;
use ts_disk::{MemorySite, MemorySource, Volume};
use ts_dump::{Ended, Wish, dump_volume};
use ts_shell::run_ts;

// The status of the program with these words and this script.
fn status(
    rt: &(impl Threads + Sync),
    alloc: Global,
    texts: &[&str],
    site: &mut MemorySite,
    script: &[u8],
) -> Result<u8, AllocError> {
    let mut words = Vec::new(alloc);
    for text in texts {
        words.push(String::from_str(alloc, text)?)?;
    }
    let mut source = MemorySource::new(Vec::from_slice(alloc, script)?, 4096);
    Ok(run_ts(rt, alloc, &words, site, &mut source))
}

/// The bytes of a store of 8 element pages after a script.
pub(crate) fn store(
    rt: &(impl Threads + Sync),
    alloc: Global,
    script: &[u8],
) -> Result<Vec<u8>, Fail> {
    let mut site = MemorySite::new(Vec::new(alloc))?;
    if status(rt, alloc, &["init", "8"], &mut site, b"")? != 0 {
        return Err(Fail::from("init failed"));
    }
    if status(rt, alloc, &["run"], &mut site, script)? != 0 {
        return Err(Fail::from("run failed"));
    }
    bytes_of(alloc, &mut site)
}

/// The bytes that a volume holds.
pub(crate) fn bytes_of(alloc: Global, site: &mut MemorySite) -> Result<Vec<u8>, Fail> {
    let mut bytes = vec![in alloc; 0u8; site.len() as usize]?;
    if site.read_at(0, &mut bytes).is_err() {
        return Err(Fail::from("the read failed"));
    }
    Ok(bytes)
}

/// A dump of a volume of these bytes, of which the call of this number fails, if one does: how it ended, and what it
/// said. The bytes stay.
pub(crate) fn dumped(
    alloc: Global,
    wish: Wish<'_>,
    bytes: &[u8],
    failing: Option<u64>,
) -> Result<(Ended, Vec<u8>), Fail> {
    let mut site = MemorySite::new(Vec::from_slice(alloc, bytes)?)?;
    if let Some(call) = failing {
        site.fail(call)?;
    }
    let ended = dump_volume(alloc, wish, &mut site);
    let said = Vec::from_slice(alloc, site.said())?;
    if failing.is_none() && bytes_of(alloc, &mut site)?.as_slice() != bytes {
        return Err(Fail::from("the volume changed"));
    }
    Ok((ended, said))
}
