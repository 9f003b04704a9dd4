// Journals made by hand: which are read, and how far.
ghost use Rattle.std.specs.Prelude.{◌≤◌, ◌<◌, length};

use crate::volumes::{SMALLEST, blank};
use std::alloc::{AllocError, Global};
use std::test::Fail;
use ts_disk::{MemorySite, Volume};
use ts_journal::OPEN_GATE;
use ts_recover::{RecoverFault, recover};

// The smallest volume, with these bytes behind an open first gate.
fn with_record(alloc: Global, body: &[u8]) -> Result<MemorySite, AllocError>
    requires { length body.now ≤ 4200 }
{
    let mut bytes = blank(alloc, SMALLEST)?;
    bytes[4096..4104].copy_from_slice(b"GATEOPEN");
    bytes[4104..4104 + body.len()].copy_from_slice(body);
    MemorySite::new(bytes)
}

// The smallest volume with a record that frees its page, and behind the closed gate one open gate after the other to
// the region's end.
fn with_gates(alloc: Global, shift: usize) -> Result<MemorySite, AllocError>
    requires { shift < 8 }
{
    let mut bytes = blank(alloc, SMALLEST)?;
    plant(&mut bytes[4121 + shift..1_052_672]);
    bytes[4096..4104].copy_from_slice(b"GATEOPEN");
    bytes[4104..4113].copy_from_slice(&[0, 0, 0, 5, 2, 0, 0, 3, 0xa2]);
    MemorySite::new(bytes)
}

fn plant(bytes: &mut [u8]) {
    for (number, byte) in bytes.iter_mut().enumerate() {
        *byte = OPEN_GATE[number % 8];
    }
}

// The room behind the journal's end. Nothing where a record is malformed.
fn room_of(alloc: Global, site: &mut MemorySite) -> Result<Option<u32>, RecoverFault> {
    match recover(alloc, site) {
        Ok(replayed) => Ok(Some(replayed.journal.room())),
        Err(RecoverFault::NotAStore { page: 1 }) => Ok(None),
        Err(fault) => Err(fault),
    }
}

// The same, of the smallest volume with these bytes behind an open first gate.
fn room_behind(alloc: Global, body: &[u8]) -> Result<Option<u32>, RecoverFault>
    requires { length body.now ≤ 4200 }
{
    let mut site = with_record(alloc, body)?;
    room_of(alloc, &mut site)
}

#[test]
fn a_journal_is_read_by_its_rules(rt: HostRuntime) -> Result<(), Fail> {
    let bodies: [(&[u8], Option<u32>); 11] = [
        // A record that frees page 930.
        (&[0, 0, 0, 5, 2, 0, 0, 3, 0xa2], Some(1_048_559)),
        // No entry; fewer bytes than the shortest; more bytes than there is room for.
        (&[0, 0, 0, 0], None),
        (&[0, 0, 0, 4, 2, 0, 0, 3, 0xa2], None),
        (&[0, 0x10, 0, 0], None),
        // A kind of its own; a page past the end, of the region, and one that can't be freed.
        (&[0, 0, 0, 5, 3, 0, 0, 3, 0xa2], None),
        (&[0, 0, 0, 5, 2, 0, 0, 3, 0xa3], None),
        (&[0, 0, 0x10, 5, 1, 0, 0, 1, 0], None),
        (&[0, 0, 0, 5, 2, 0, 0, 3, 0xa1], None),
        // A page that is named twice; an image that isn't whole.
        (&[0, 0, 0, 10, 2, 0, 0, 3, 0xa2, 2, 0, 0, 3, 0xa2], None),
        (&[0, 0, 0, 6, 1, 0, 0, 3, 0xa2, 0], None),
        // An open gate behind the record, and no record there.
        (b"\0\0\0\x05\x02\0\0\x03\xa2GATEOPEN", None),
    ];
    for (body, room) in bodies {
        if body.len() > 100 {
            return Err(Fail::from("a body is too long"));
        }
        assert!(rt; room_behind(rt.alloc(), body)? == room);
    }
    Ok(())
}

#[test]
fn an_open_gate_behind_a_closed_one_is_not_seen(rt: HostRuntime) -> Result<(), Fail> {
    // The eight of them cover each possible place.
    for shift in 0..8usize {
        let mut planted = with_gates(rt.alloc(), shift)?;
        assert!(rt; room_of(rt.alloc(), &mut planted)? == Some(1_048_559));
    }
    Ok(())
}

/// What an opening answers and leaves.
#[derive(Clone, Copy, Debug, PartialEq, Eq)]
struct Opening {
    fault: Option<RecoverFault>,
    pages: u32,
    calls: u64,
    faults: u64,
}

// Opens a volume of zeros, of which the first call may be one that fails.
fn opened(alloc: Global, size: usize, is_failing: bool) -> Result<Opening, AllocError> {
    let mut site = MemorySite::new(blank(alloc, size)?)?;
    if is_failing {
        site.fail(0)?;
    }
    let (fault, pages) = match recover(alloc, &mut site) {
        Ok(replayed) => (None, replayed.pages),
        Err(fault) => (Some(fault), 0),
    };
    Ok(Opening {
        fault,
        pages,
        calls: site.calls(),
        faults: site.faults(),
    })
}

#[test]
fn a_volume_has_whole_pages_and_a_read_that_fails_is_told(rt: HostRuntime) -> Result<(), Fail> {
    let short = Some(RecoverFault::NotAStore { page: 0 });
    let table = [
        (0, false, short, 0, 0, 0),
        (SMALLEST - 4096, false, short, 0, 0, 0),
        (SMALLEST - 1, false, short, 0, 0, 0),
        (SMALLEST + 1, false, short, 0, 0, 0),
        (SMALLEST, false, None, 931, 1, 0),
        (SMALLEST, true, Some(RecoverFault::Failed), 0, 1, 1),
    ];
    for (size, is_failing, fault, pages, calls, faults) in table {
        let wanted = Opening {
            fault,
            pages,
            calls,
            faults,
        };
        assert!(rt; opened(rt.alloc(), size, is_failing)? == wanted);
    }
    Ok(())
}
