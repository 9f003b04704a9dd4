// Sites and sources in memory.
ghost use Rattle.std.specs.Prelude.{◌≤◌, ◌<◌, length};

use crate::steps::{Step, count_done, two_at};
use std::alloc::{AllocError, Global};
use std::test::Fail;
use ts_disk::{BlankSource, MemorySite, MemorySource, Pick, PullFailed, Source, Volume};

/// The smallest store: a byte behind a gate, and a reply once it is there for good.
const GATED: [Step; 5] = [
    Step::Write(1, &[7]),
    Step::Sync,
    Step::Write(0, &[1]),
    Step::Sync,
    Step::Say(b"ok"),
];

/// Nothing of this is synced.
const WRITTEN: [Step; 3] = [
    Step::Write(1, &[11, 12, 13, 14]),
    Step::Resize(8),
    Step::Say(b"so"),
];

const SYNCED: [Step; 4] = [
    Step::Write(1, &[11, 12, 13, 14]),
    Step::Resize(8),
    Step::Sync,
    Step::Say(b"so"),
];

// A site of these bytes after the calls, the first of which may be one that fails.
fn site_after(
    alloc: Global,
    first: &[u8],
    is_failing: bool,
    steps: &[Step],
) -> Result<MemorySite, AllocError> {
    let mut site = MemorySite::new(first.to_vec(alloc)?)?;
    site.reserve(10, 100)?;
    if is_failing {
        site.fail(0)?;
    }
    let _count = count_done(&mut site, steps);
    Ok(site)
}

// What a stop within the call of that number leaves, if there is such a call.
fn left_in(site: &MemorySite, moment: u64, pick: Pick) -> Result<Option<Vec<u8>>, AllocError> {
    if moment >= site.calls() {
        return Ok(None);
    }
    Ok(Some(site.image(moment, pick)?))
}

// Whether it is nothing or the value, by the moments from which on each must be there.
fn is_whole(moment: u64, image: &[u8]) -> bool
    requires { 4 ≤ length image.now }
{
    let is_open = image[0] == 1;
    (image[1] == 7 || (!is_open && moment < 2)) && (is_open || moment < 4)
}

fn is_left_whole(site: &MemorySite, moment: u64, pick: Pick) -> Result<bool, AllocError> {
    match left_in(site, moment, pick)? {
        Some(image) => Ok(image.len() == 4 && is_whole(moment, &image)),
        None => Ok(false),
    }
}

// Every stop within every call, by every choice for what it tears.
#[test]
fn each_stop_leaves_nothing_or_the_value(rt: HostRuntime) -> Result<(), Fail> {
    let site = site_after(rt.alloc(), &[0, 0, 9, 9], false, &GATED)?;
    assert!(rt; site.calls() == 5 && site.said() == b"ok".as_slice());
    let picks = [
        Pick::Old,
        Pick::New,
        Pick::Half,
        Pick::Fill(0),
        Pick::Fill(255),
        Pick::Fill(1),
    ];
    for moment in 0..5u64 {
        for pick in picks {
            assert!(rt; is_left_whole(&site, moment, pick)?);
        }
    }
    Ok(())
}

// How many calls of a gated write answer Ok where the call of one number is to fail, or all from it on; how many faults
// the volume then counts, and how many calls it keeps.
fn counted(alloc: Global, number: u64, is_fuse: bool) -> Result<(usize, u64, u64), AllocError> {
    let mut site = MemorySite::new(vec![in alloc; 0, 0]?)?;
    if is_fuse {
        site.fuse(number);
    } else {
        site.fail(number)?;
    }
    Ok((count_done(&mut site, &GATED), site.faults(), site.calls()))
}

#[test]
fn the_call_of_that_number_fails(rt: HostRuntime) -> Result<(), Fail> {
    let table = [
        (0, 1, 1),
        (1, 1, 2),
        (2, 1, 3),
        (3, 1, 4),
        (4, 0, 5),
        (5, 0, 5),
    ];
    for (number, faults, calls) in table {
        for is_fuse in [false, true] {
            let wanted = (number as usize, faults, calls);
            assert!(rt; counted(rt.alloc(), number, is_fuse)? == wanted);
        }
    }
    Ok(())
}

// What each choice makes of a write of four bytes and of a resize by two, neither of them synced; of both once they are
// synced; and of a write that failed, and may have been made.
#[test]
fn a_choice_decides_on_unsynced_ranges(rt: HostRuntime) -> Result<(), Fail> {
    let written = site_after(rt.alloc(), &[1, 2, 3, 4, 5, 6], false, &WRITTEN)?;
    let synced = site_after(rt.alloc(), &[1, 2, 3, 4, 5, 6], false, &SYNCED)?;
    let failed = site_after(rt.alloc(), &[1, 2], true, &[Step::Write(0, &[8])])?;
    let table: [(&MemorySite, u64, Pick, &[u8]); 12] = [
        (&written, 2, Pick::Old, &[1, 2, 3, 4, 5, 6]),
        (&written, 2, Pick::New, &[1, 11, 12, 13, 14, 6, 0, 0]),
        (&written, 2, Pick::Half, &[1, 11, 12, 4, 5, 6, 0, 0]),
        (&written, 2, Pick::Fill(0), &[1, 0, 0, 0, 0, 6, 0, 0]),
        (
            &written,
            2,
            Pick::Fill(255),
            &[1, 255, 255, 255, 255, 6, 255, 255],
        ),
        (&synced, 3, Pick::Old, &[1, 11, 12, 13, 14, 6, 0, 0]),
        (&synced, 3, Pick::New, &[1, 11, 12, 13, 14, 6, 0, 0]),
        (&synced, 3, Pick::Half, &[1, 11, 12, 13, 14, 6, 0, 0]),
        (&synced, 3, Pick::Fill(0), &[1, 11, 12, 13, 14, 6, 0, 0]),
        (&synced, 3, Pick::Fill(255), &[1, 11, 12, 13, 14, 6, 0, 0]),
        (&failed, 0, Pick::Old, &[1, 2]),
        (&failed, 0, Pick::New, &[8, 2]),
    ];
    for (site, moment, pick, wanted) in table {
        assert!(rt; left_in(site, moment, pick)?.as_deref() == Some(wanted));
    }
    Ok(())
}

// Two bytes at a place after the calls.
fn read_after(
    alloc: Global,
    first: &[u8],
    is_failing: bool,
    steps: &[Step],
    at: u64,
) -> Result<Option<[u8; 2]>, AllocError> {
    let mut site = site_after(alloc, first, is_failing, steps)?;
    Ok(two_at(&mut site, at))
}

#[test]
fn what_is_held_is_read(rt: HostRuntime) -> Result<(), Fail> {
    let table: [(&[u8], bool, &[Step], u64, Option<[u8; 2]>); 5] = [
        (&[1, 2, 3, 4, 5, 6], false, &SYNCED, 4, Some([14, 6])),
        (&[1, 2, 3, 4, 5, 6], false, &SYNCED, 6, Some([0, 0])),
        (&[1, 2, 3, 4, 5, 6], false, &SYNCED, 7, None),
        (&[1, 2], true, &[Step::Write(0, &[8])], 0, Some([1, 2])),
        (&[1, 2], false, &[Step::Write(0, &[8])], 0, Some([8, 2])),
    ];
    for (first, is_failing, steps, at, wanted) in table {
        assert!(rt; read_after(rt.alloc(), first, is_failing, steps, at)? == wanted);
    }
    Ok(())
}

#[test]
fn a_source_gives_its_bytes_in_pieces(rt: HostRuntime) -> Result<(), Fail> {
    let alloc = rt.alloc();
    let mut source = MemorySource::new(b"abcde".to_vec(alloc)?, 3);
    source.fail(1)?;
    let mut into = [b'.'; 4];
    let table: [(Result<usize, PullFailed>, [u8; 4]); 4] = [
        (Ok(3), *b"abc."),
        (Err(PullFailed), *b"abc."),
        (Ok(2), *b"dec."),
        (Ok(0), *b"dec."),
    ];
    for (wanted, bytes) in table {
        assert!(rt; source.pull(&mut into) == wanted);
        assert!(rt; into == bytes);
    }
    assert!(rt; BlankSource::new().pull(&mut into) == Ok(4));
    assert!(rt; into == *b"    ");
    Ok(())
}
