// The program over volumes in memory.
use std::alloc::{AllocError, Global};
use std::test::Fail;
use std::thread::Threads;
use ts_disk::{MemorySite, MemorySource, Pick, Source, Volume};
use ts_shell::run_ts;

/// All that a stop may leave of what is pending.
pub const PICKS: [Pick; 5] = [
    Pick::Old,
    Pick::New,
    Pick::Half,
    Pick::Fill(0),
    Pick::Fill(255),
];

/// The status of the program with these words.
pub fn status<R: Source>(
    rt: &(impl Threads + Sync),
    alloc: Global,
    texts: &[&str],
    site: &mut MemorySite,
    source: &mut R,
) -> Result<u8, AllocError> {
    let mut words = Vec::new(alloc);
    for text in texts {
        words.push(String::from_str(alloc, text)?)?;
    }
    Ok(run_ts(rt, alloc, &words, site, source))
}

/// A volume that `init` made with so many element pages.
pub fn volume(rt: &(impl Threads + Sync), alloc: Global, pages: &str) -> Result<MemorySite, Fail> {
    let mut site = MemorySite::new(Vec::new(alloc))?;
    let mut source = MemorySource::new(Vec::new(alloc), 1);
    if status(rt, alloc, &["init", pages], &mut site, &mut source)? == 0 {
        Ok(site)
    } else {
        Err(Fail::from("init failed"))
    }
}

/// The site of a list of one. What owns a site in the tests of whole runs is such a list: the drop of a list's elements is
/// proved once for a crate, and that of a site in each place where a function ends.
pub fn only(sites: &mut [MemorySite]) -> Result<&mut MemorySite, Fail> {
    match sites.first_mut() {
        Some(site) => Ok(site),
        None => Err(Fail::from("no site")),
    }
}

/// The status of a run of a script that comes in pieces of 7 bytes.
pub fn run(
    rt: &(impl Threads + Sync),
    alloc: Global,
    site: &mut MemorySite,
    script: &[u8],
) -> Result<u8, Fail> {
    let mut source = MemorySource::new(Vec::from_slice(alloc, script)?, 7);
    Ok(status(rt, alloc, &["run"], site, &mut source)?)
}

/// The status of `migrate`, which pulls nothing of the script.
pub fn migrate(
    rt: &(impl Threads + Sync),
    alloc: Global,
    site: &mut MemorySite,
) -> Result<u8, Fail> {
    let mut source = MemorySource::new(Vec::new(alloc), 1);
    Ok(status(rt, alloc, &["migrate"], site, &mut source)?)
}

/// Whether a run answers each of these statements with the reply beside it.
pub fn answers(
    rt: &(impl Threads + Sync),
    alloc: Global,
    site: &mut MemorySite,
    talk: &[(&[u8], &[u8])],
) -> Result<bool, Fail> {
    let mut script = Vec::new(alloc);
    let mut said = Vec::from_slice(alloc, site.said())?;
    for (statement, reply) in talk {
        script.extend_from_slice(statement)?;
        said.extend_from_slice(reply)?;
    }
    let status = run(rt, alloc, site, &script)?;
    Ok(status == 0 && site.said() == said.as_slice())
}

/// The bytes that a volume holds.
pub fn bytes_of(alloc: Global, site: &mut MemorySite) -> Result<Vec<u8>, Fail> {
    let mut bytes = vec![in alloc; 0u8; site.len() as usize]?;
    if site.read_at(0, &mut bytes).is_err() {
        return Err(Fail::from("the read failed"));
    }
    Ok(bytes)
}

/// The bytes of a volume of 8 element pages after a script.
pub fn bytes_after(
    rt: &(impl Threads + Sync),
    alloc: Global,
    script: &[u8],
) -> Result<Vec<u8>, Fail> {
    let mut site = volume(rt, alloc, "8")?;
    run(rt, alloc, &mut site, script)?;
    bytes_of(alloc, &mut site)
}

/// Writes bytes into a volume behind the store's back.
pub fn damage(site: &mut MemorySite, at: u64, bytes: &[u8]) -> bool {
    let size = site.len();
    size >= at && size - at >= bytes.len() as u64 && site.write_at(at, bytes).is_ok()
}

/// How many calls of an opening only read, where the journal is empty: all but its sync.
pub fn reads(rt: &(impl Threads + Sync), alloc: Global, pages: &str) -> Result<u64, Fail> {
    let mut site = volume(rt, alloc, pages)?;
    let before = site.calls();
    run(rt, alloc, &mut site, b"")?;
    Ok(site.calls().saturating_sub(before).saturating_sub(1))
}
