// The head and the cells of a page, and pages in memory.
ghost use Rattle.std.specs.Prelude.{◌≡◌, ◌<◌, ◌≤◌, ◌∷◌, [], IfOk, length};
ghost use Rattle.ts_page.specs.Memory.{memory_contents};

use std::alloc::{AllocError, Global};
use std::test::Fail;
use ts_page::{Head, MemoryPages, Page, Pages};

/// Regular, of series slot 3 with 2 elements and base 677.
const REGULAR: Head = Head::Regular {
    series: 3,
    count: 2,
    base: 677,
};

const IRREGULAR: Head = Head::Irregular {
    series: 4095,
    count: 290,
};

// A page that begins with these bytes, and then has zeros.
fn page_of(front: &[u8]) -> Page
    requires { length front.now ≤ 32 }
{
    let mut page = Page::zero();
    page.bytes[..front.len()].copy_from_slice(front);
    page
}

#[test]
fn the_first_bytes_are_a_head_or_none(rt: HostRuntime) {
    let table: [([u8; 32], Option<Head>); 8] = [
        (front(&[], 31, 0), Some(Head::Free)),
        // Whatever follows.
        (front(&[], 1, 7), Some(Head::Free)),
        (front(&[], 31, 7), Some(Head::Free)),
        (
            front(&[1, 0, 3, 0, 2, 0, 0, 0, 0, 0, 0, 2, 0xa5], 31, 0),
            Some(REGULAR),
        ),
        // A byte behind the head's numbers.
        (
            front(&[1, 0, 3, 0, 2, 0, 0, 0, 0, 0, 0, 2, 0xa5], 13, 1),
            None,
        ),
        (
            front(&[1, 0, 3, 0, 2, 0, 0, 0, 0, 0, 0, 2, 0xa5], 31, 1),
            None,
        ),
        (front(&[2, 0x0f, 0xff, 1, 0x22], 31, 0), Some(IRREGULAR)),
        // An irregular page has no base.
        (front(&[2, 0x0f, 0xff, 1, 0x22], 12, 1), None),
    ];
    for (bytes, wanted) in table {
        assert!(rt; page_of(&bytes).head() == wanted);
    }
    // Another kind.
    assert!(rt; page_of(&[3]).head() == None);
    assert!(rt; Page::zero().bytes == [0; 4096]);
}

// These bytes, and this one at that place.
fn front(bytes: &[u8], at: usize, byte: u8) -> [u8; 32]
    requires short { length bytes.now ≤ 32 }
    requires within { at < 32 }
{
    let mut front = [0; 32];
    front[..bytes.len()].copy_from_slice(bytes);
    front[at] = byte;
    front
}

// Whether this head is written so over a page of nines, and nothing behind it.
fn is_written(head: &Head, wanted: &[u8; 32]) -> bool {
    let mut page = Page { bytes: [9; 4096] };
    page.set_head(head);
    page.bytes[..32].starts_with(wanted) && page.bytes[32..].iter().all(|byte| *byte == 9)
}

#[test]
fn a_head_has_these_bytes(rt: HostRuntime) {
    let regular = front(&[1, 0, 3, 0, 2, 0, 0, 0, 0, 0, 0, 2, 0xa5], 31, 0);
    let irregular = front(&[2, 0x0f, 0xff, 1, 0x22], 31, 0);
    let table = [
        (REGULAR, regular),
        (IRREGULAR, irregular),
        (Head::Free, [0; 32]),
    ];
    for (head, wanted) in table {
        assert!(rt; is_written(&head, &wanted));
    }
}

#[test]
fn cells_stand_behind_the_head(rt: HostRuntime) {
    let mut page = Page::zero();
    page.set_cell(0, &[1, 2, 3]);
    page.set_cell(1, &[4, 5, 6]);
    assert!(rt; page.bytes[31..].starts_with(&[0, 1, 2, 3, 4, 5, 6, 0]));
    assert!(rt; page.cell(0, 3) == [1, 2, 3].as_slice());
    assert!(rt; page.cell(1, 3) == [4, 5, 6].as_slice());
    // The last cell that a page has room for.
    page.set_cell(0, &[7; 4064]);
    assert!(rt; page.bytes[4095] == 7 && page.bytes[31] == 0);
}

// 932 pages, of which the two element pages are free.
fn two_free(alloc: Global) -> Result<MemoryPages, AllocError>
    ensures count { IfOk result (λ pages. (memory_contents pages).count ≡ 932) }
    ensures free { IfOk result (λ pages. (memory_contents pages).free ≡ 930 ∷ 931 ∷ []) }
{
    let pages = vec![in alloc; Page::zero(); 932]?;
    let free = vec![in alloc; 930, 931]?;
    Ok(MemoryPages::new(pages, free))
}

// The first byte of a page.
fn first_byte(pages: &mut MemoryPages, no: u32) -> Result<u8, Fail>
    requires { no < (memory_contents pages.old).count }
    ensures count { (memory_contents pages.new).count ≡ (memory_contents pages.old).count }
    ensures free { (memory_contents pages.new).free ≡ (memory_contents pages.old).free }
{
    let mut page = Page::zero();
    pages.get(no, &mut page)?;
    Ok(page.bytes[0])
}

#[test]
fn a_taken_page_is_filled_and_freed(rt: HostRuntime) -> Result<(), Fail> {
    let mut pages = two_free(rt.alloc())?;
    let taken = pages.take();
    assert!(rt; taken == 930 && pages.spare() == 1);
    pages.put(taken, &page_of(&[2]))?;
    assert!(rt; first_byte(&mut pages, taken)? == 2);
    pages.free(taken)?;
    assert!(rt; first_byte(&mut pages, taken)? == 0);
    // It is the next that is taken.
    assert!(rt; pages.spare() == 2 && pages.take() == 930);
    assert!(rt; pages.take() == 931 && pages.spare() == 0);
    Ok(())
}

#[test]
fn the_types_may_go_to_other_threads() {
    goes_to_threads::<Page>();
    goes_to_threads::<Head>();
    goes_to_threads::<MemoryPages>();
}

fn goes_to_threads<T: Send + Sync>() {}
