// A record of four images and of pages that are freed: committed, read again and brought home.
ghost use Rattle.std.specs.Prelude.{◌<◌, ◌≢◌, [], IfOk};
ghost use Rattle.ts_journal.specs.Journal.{AreAllowed};

use crate::volumes::{blank, commit_there, read_there, settle_there};
use std::alloc::{AllocError, Global};
use std::test::Fail;
use ts_disk::MemorySite;
use ts_journal::{Batch, Change};
use ts_page::Page;

// Images of the first four element pages, and each page behind them freed.
fn many(alloc: Global, end: u32) -> Result<Batch, AllocError>
    requires { 930 < end }
    ensures changes { IfOk result (λ b. b.entries ≢ []) }
    ensures allowed { IfOk result (λ b. AreAllowed end b.entries) }
{
    let mut batch = Batch::new(alloc);
    for no in 930..end {
        let change = if no < 934 {
            Change::Image(Page::zero())
        } else {
            Change::Free
        };
        batch.set(no, change)?;
    }
    Ok(batch)
}

/// What was counted of a record.
#[derive(Clone, Copy, Debug, PartialEq, Eq)]
struct Counted {
    committing: u64,
    entries: u64,
    room: u32,
    settling: u64,
    settled_room: u32,
}

// Commits, reads and settles a record over a volume that ends with the last page that it frees.
fn count(alloc: Global, end: u32) -> Result<Option<Counted>, Fail>
    requires { 930 < end }
{
    let mut site = MemorySite::new(blank(alloc, end as usize * 4096)?)?;
    let batch = many(alloc, end)?;
    if !commit_there(alloc, &mut site, end, &batch)? {
        return Ok(None);
    }
    let committing = site.calls();
    let (entries, room) = read_there(alloc, &mut site)?;
    let reading = site.calls().saturating_sub(committing);
    let settled_room = settle_there(alloc, &mut site)?;
    // The settling reads the record once more.
    let settling = site
        .calls()
        .saturating_sub(committing)
        .saturating_sub(reading)
        .saturating_sub(reading);
    Ok(Some(Counted {
        committing,
        entries,
        room,
        settling,
        settled_room,
    }))
}

#[test]
fn four_images_go_home_in_two_writes(rt: HostRuntime) -> Result<(), Fail> {
    let wanted = Counted {
        // The gate is read. Then two writes, a sync, the gate's write and a sync.
        committing: 6,
        entries: 16_404,
        room: 1_032_160,
        // Three pages in one write and one in another, a sync, the gate's write and a sync.
        settling: 5,
        settled_room: 1_048_576,
    };
    assert_eq!(rt; count(rt.alloc(), 934)?, Some(wanted));
    Ok(())
}

#[test]
fn a_record_of_65000_freed_pages_takes_29_writes(rt: HostRuntime) -> Result<(), Fail> {
    let wanted = Counted {
        // The gate is read. Then 29 writes, a sync, the gate's write and a sync: two images in 8211 bytes with the
        // first piece, two more and 818 freed pages, 26 times 2457 freed pages, and the last 300 with the next gate.
        committing: 33,
        entries: 341_404,
        room: 707_160,
        // The images and the first freed page in two writes, each other freed page in its own, a sync, the gate's write
        // and a sync.
        settling: 65_004,
        settled_room: 1_048_576,
    };
    assert_eq!(rt; count(rt.alloc(), 65_934)?, Some(wanted));
    Ok(())
}
