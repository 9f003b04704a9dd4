// Batches, and the laws of a journal.
use crate::volumes::image;
use std::alloc::{AllocError, Global};
use std::test::Fail;
use ts_journal::{
    Batch, Change, Journal, a_record_is_read_where_it_stands,
    an_overlay_has_the_last_change_of_each_page, records_are_read_where_they_stand,
};
use ts_page::a_head_is_read_as_it_is_written;

// An image that begins and ends with this byte; 0 is a page that is freed.
fn change(byte: u8) -> Change {
    if byte == 0 {
        return Change::Free;
    }
    image(byte, byte)
}

// Sets these changes, each a page and the byte of its image.
fn set_all(batch: &mut Batch, changes: &[(u32, u8)]) -> Result<(), AllocError> {
    for (no, byte) in changes {
        batch.set(*no, change(*byte))?;
    }
    Ok(())
}

fn batch_of(alloc: Global, changes: &[(u32, u8)]) -> Result<Batch, AllocError> {
    let mut batch = Batch::new(alloc);
    set_all(&mut batch, changes)?;
    Ok(batch)
}

// Whether it has these changes and no other.
fn has_all(batch: &Batch, changes: &[(u32, u8)]) -> bool {
    for (no, byte) in changes {
        if batch.find(*no) != Some(&change(*byte)) {
            return false;
        }
    }
    batch.len() == changes.len()
}

#[test]
fn a_batch_has_one_change_for_each_page(rt: HostRuntime) -> Result<(), Fail> {
    // An image has 4101 bytes in a record, a freed page 5.
    let table: [(&[(u32, u8)], &[(u32, u8)], u64); 4] = [
        (&[], &[], 0),
        (
            &[(940, 0), (0, 7), (930, 0)],
            &[(0, 7), (930, 0), (940, 0)],
            4111,
        ),
        (
            &[(940, 0), (0, 7), (930, 0), (930, 9)],
            &[(0, 7), (930, 9), (940, 0)],
            8207,
        ),
        (&[(930, 9), (930, 0)], &[(930, 0)], 5),
    ];
    for (changes, wanted, bytes) in table {
        let mut batch = batch_of(rt.alloc(), changes)?;
        assert!(rt; has_all(&batch, wanted));
        assert!(rt; batch.bytes() == bytes && batch.find(931).is_none());
        batch.clear();
        assert!(rt; batch.bytes() == 0);
    }
    Ok(())
}

// Sets the changes of a second batch over those of a first, by one call or by the other, of which one leaves the second
// batch, and empty. Nothing where it isn't.
fn joined(
    alloc: Global,
    first: &[(u32, u8)],
    second: &[(u32, u8)],
    is_left: bool,
) -> Result<Option<Batch>, AllocError> {
    let mut batch = batch_of(alloc, first)?;
    let mut other = batch_of(alloc, second)?;
    batch.reserve(other.len())?;
    if !is_left {
        batch.absorb(other);
        return Ok(Some(batch));
    }
    batch.take_all(&mut other);
    Ok(if other.len() == 0 { Some(batch) } else { None })
}

#[test]
fn the_later_changes_win(rt: HostRuntime) -> Result<(), Fail> {
    let first = [(930, 1), (932, 2)];
    let table: [(&[(u32, u8)], &[(u32, u8)], u64); 3] = [
        (&[(930, 0), (931, 3)], &[(930, 0), (931, 3), (932, 2)], 8207),
        (&[(932, 0)], &[(930, 1), (932, 0)], 4106),
        (&[(930, 4)], &[(930, 4), (932, 2)], 8202),
    ];
    for (second, wanted, bytes) in table {
        for is_left in [false, true] {
            let batch = joined(rt.alloc(), &first, second, is_left)?.ok_or("not emptied")?;
            assert!(rt; has_all(&batch, wanted) && batch.bytes() == bytes);
        }
    }
    Ok(())
}

#[test]
fn the_laws_ask_nothing(_rt: HostRuntime) {
    a_head_is_read_as_it_is_written();
    a_record_is_read_where_it_stands();
    records_are_read_where_they_stand();
    an_overlay_has_the_last_change_of_each_page();
}

#[test]
fn the_room_is_what_is_left_of_the_region(rt: HostRuntime) {
    assert!(rt; Journal::at(0).room() == 1_048_576);
    assert!(rt; Journal::at(17).room() == 1_048_559);
    assert!(rt; Journal::at(1_048_568).room() == 8);
}
