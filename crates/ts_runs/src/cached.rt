// How many calls on the volume a reading makes.
use std::alloc::Global;
use std::test::Fail;
use std::thread::Threads;
use ts_disk::MemorySite;
use ts_programs::{bytes_of, only, run, volume};

/// A regular series by minutes, whose pages have room for five elements.
const MINUTES: &[u8] =
    b"CreateRowType(wide, t datetime, p varchar(255), q varchar(255), n varchar(255));\
    TSContainerCreate(c1, wide, 100);\
    CreateCalendar(mc,'startdate(2011-01-03 00:00:00), pattstart(2011-01-03 00:00:00), pattern({1 on},minute)');\
    TSCreate('a', mc, '2011-01-03 00:00:00', c1);";

// The bytes of a volume with one element on each of 100 pages of the series.
fn hundred_pages(rt: &(impl Threads + Sync), alloc: Global) -> Result<Vec<u8>, Fail> {
    let mut sites = vec![in alloc; volume(rt, alloc, "100")?]?;
    let site = only(&mut sites)?;
    let mut script = Vec::from_slice(alloc, MINUTES)?;
    for page in 0..100u16 {
        let (hour, minute) = (page / 12, page % 12 * 5);
        let statement = format!(in alloc;
            "PutElem('a','2011-01-03 {hour:02}:{minute:02}:00','{page}','',null);"
        )?;
        script.extend_from_slice(statement.as_bytes())?;
    }
    run(rt, alloc, site, &script)?;
    bytes_of(alloc, site)
}

// How many calls a run of this script makes on a volume of these bytes, if it says this.
fn calls(
    rt: &(impl Threads + Sync),
    alloc: Global,
    bytes: &[u8],
    script: &[u8],
    said: &[u8],
) -> Result<Option<u64>, Fail> {
    let mut sites = vec![in alloc; MemorySite::new(Vec::from_slice(alloc, bytes)?)?]?;
    let site = only(&mut sites)?;
    let status = run(rt, alloc, site, script)?;
    if status != 0 || site.said() != said {
        return Ok(None);
    }
    Ok(Some(site.calls()))
}

/// Statements, what they say, and how many calls they make: one for each page that is read, and one for each reply.
const READINGS: [(&[u8], &[u8], u64); 6] = [
    // The opening left no page in memory.
    (
        b"GetElem('a','2011-01-03 04:10:00');",
        b"2011-01-03 04:10:00.00000 '50','',null\nok 1\n",
        2,
    ),
    (
        b"GetElem('a','2011-01-03 04:10:00');GetElem('a','2011-01-03 04:10:00');",
        b"2011-01-03 04:10:00.00000 '50','',null\nok 1\n2011-01-03 04:10:00.00000 '50','',null\nok 1\n",
        3,
    ),
    // A fold of a container reads each page of its range once,
    (
        b"AggregateAll('count($p)',c1,'2011-01-01 00:00:00','2011-12-31 00:00:00');",
        b"'a' 100\nok 1\n",
        101,
    ),
    (
        b"AggregateAll('count($p)',c1,'2011-01-03 04:10:00','2011-01-03 04:14:59');",
        b"'a' 1\nok 1\n",
        2,
    ),
    // keeps none in memory,
    (
        b"AggregateAll('count($p)',c1,'2011-01-03 04:10:00','2011-01-03 04:14:59');GetElem('a','2011-01-03 04:10:00');",
        b"'a' 1\nok 1\n2011-01-03 04:10:00.00000 '50','',null\nok 1\n",
        4,
    ),
    // and finds those that are there.
    (
        b"GetElem('a','2011-01-03 04:10:00');AggregateAll('count($p)',c1,'2011-01-03 04:10:00','2011-01-03 04:14:59');",
        b"2011-01-03 04:10:00.00000 '50','',null\nok 1\n'a' 1\nok 1\n",
        3,
    ),
];

#[test]
fn a_page_is_read_once_and_then_found_in_memory(rt: HostRuntime) -> Result<(), Fail> {
    let alloc = rt.alloc();
    let bytes = hundred_pages(&rt, alloc)?;
    let opened = calls(&rt, alloc, &bytes, b"", b"")?;
    assert!(rt; opened.is_some());
    for (script, said, added) in READINGS {
        let by_now = calls(&rt, alloc, &bytes, script, said)?;
        assert_eq!(rt; by_now, opened.map(|before| before.saturating_add(added)));
    }
    Ok(())
}
