// Records of the smallest volume: their bytes, what an opening reads of them, and what a stop leaves.
use crate::volumes::{ELEMENT_PAGE, SMALLEST, Step, after, held};
use std::alloc::Global;
use std::test::Fail;
use ts_disk::{MemorySite, Pick};
use ts_recover::{RecoverFault, recover};

const PICKS: [Pick; 2] = [Pick::Half, Pick::Fill(255)];

// How many bytes the entries have that an opening reads after these steps, and the room behind their records.
fn read_after(alloc: Global, steps: &[Step]) -> Result<Option<(u64, u32)>, RecoverFault> {
    let Some(mut site) = after(alloc, steps)? else {
        return Ok(None);
    };
    let replayed = recover(alloc, &mut site)?;
    Ok(Some((replayed.overlay.bytes(), replayed.journal.room())))
}

#[test]
fn a_later_record_goes_over_an_earlier_one(rt: HostRuntime) -> Result<(), Fail> {
    // A record of an image has 4113 bytes up to the next gate, one that frees a page 17; their entries 4101 and 5.
    let table: [(&[Step], u64, u32); 7] = [
        (&[], 0, 1_048_576),
        (&[Step::Free], 5, 1_048_559),
        (&[Step::Image], 4101, 1_044_463),
        (&[Step::Image, Step::Free], 5, 1_044_446),
        (&[Step::Image, Step::Settle], 0, 1_048_576),
        (&[Step::Image, Step::Image, Step::Settle], 0, 1_048_576),
        // The second record's open gate still stands where the next record ends, and is closed by it.
        (
            &[Step::Image, Step::Image, Step::Settle, Step::Image],
            4101,
            1_044_463,
        ),
    ];
    for (steps, entries, room) in table {
        assert!(rt; read_after(rt.alloc(), steps)? == Some((entries, room)));
    }
    Ok(())
}

// Whether the volume has these bytes at that place after the steps.
fn has_after(alloc: Global, steps: &[Step], at: usize, bytes: &[u8]) -> Result<bool, RecoverFault> {
    let Some(site) = after(alloc, steps)? else {
        return Ok(false);
    };
    match held(&site)? {
        Some(image) if image.len() == SMALLEST && at <= SMALLEST => {
            Ok(image[at..].starts_with(bytes))
        }
        _ => Ok(false),
    }
}

#[test]
fn a_record_and_a_settled_page_have_these_bytes(rt: HostRuntime) -> Result<(), Fail> {
    let home = [Step::Image, Step::Settle];
    let table: [(&[Step], usize, &[u8]); 6] = [
        (&[Step::Free], 4096, b"GATEOPEN"),
        (&[Step::Free], 4104, &[0, 0, 0, 5, 2, 0, 0, 3, 0xa2]),
        // The next gate is closed.
        (&[Step::Free], 4113, &[0; 8]),
        (&home, ELEMENT_PAGE, &[2]),
        (&home, ELEMENT_PAGE + 4095, &[5]),
        (&home, 4096, &[0; 8]),
    ];
    for (steps, at, bytes) in table {
        assert!(rt; has_after(rt.alloc(), steps, at, bytes)?);
    }
    Ok(())
}

// Whether the image is in its place.
fn is_home(image: &[u8]) -> bool {
    image.get(ELEMENT_PAGE) == Some(&2) && image.get(ELEMENT_PAGE + 4095) == Some(&5)
}

// How many bytes of entries an opening reads in what a stop left.
fn entries_in(alloc: Global, image: Vec<u8>) -> Result<u64, RecoverFault> {
    let mut left = MemorySite::new(image)?;
    Ok(recover(alloc, &mut left)?.overlay.bytes())
}

// Whether a stop within that call leaves the image in the journal or in its place; within the commit it may leave
// neither.
fn is_left_whole(alloc: Global, site: &MemorySite, moment: u64) -> Result<bool, RecoverFault> {
    for pick in PICKS {
        if moment >= site.calls() {
            return Ok(false);
        }
        let image = site.image(moment, pick)?;
        let is_home = is_home(&image);
        let entries = entries_in(alloc, image)?;
        if entries != 4101 && (entries != 0 || (moment >= 5 && !is_home)) {
            return Ok(false);
        }
    }
    Ok(true)
}

#[test]
fn a_stop_leaves_all_or_nothing_of_a_commit_and_all_of_a_settling(
    rt: HostRuntime,
) -> Result<(), Fail> {
    let site = after(rt.alloc(), &[Step::Image, Step::Settle])?.ok_or("not done")?;
    // Each opening reads: the gate; then the gate, the length, an entry's front, its image and the next gate. A commit
    // and a settling are two writes, each with a sync.
    assert!(rt; site.calls() == 14);
    for moment in 0..14u64 {
        assert!(rt; is_left_whole(rt.alloc(), &site, moment)?, "at {moment}");
    }
    Ok(())
}
