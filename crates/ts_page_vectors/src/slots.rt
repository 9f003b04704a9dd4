// Slots of row types, containers and series: their bytes.
ghost use Rattle.std.specs.Prelude.{◌≡◌, IfOk, OnOk};
ghost use Rattle.ts_page.specs.Memory.{memory_contents};

use crate::made::{def, put_def};
use crate::volume::{page_in, volume, zeros};
use std::alloc::Global;
use ts_base::StoreFault;
use ts_container::write_slot;
use ts_model::Kind;
use ts_page::{MemoryPages, Page};

/// The definitions of the good volume, and one that comes and goes.
static SLOTS: [(Kind, u16, &[u8], bool); 5] = [
    (Kind::RowType, 0, b"r", true),
    (Kind::Container, 3, b"c", true),
    (Kind::Series, 50, b"k", true),
    (Kind::Series, 51, b"k", true),
    (Kind::Series, 51, b"k", false),
];

// Writes a definition of this name into a slot, or empties it.
fn write(
    alloc: Global,
    pages: &mut MemoryPages,
    kind: Kind,
    slot: u16,
    text: &[u8],
    is_there: bool,
) -> Result<(), StoreFault>
    requires { (memory_contents pages.old).count ≡ 933 }
    ensures { OnOk result ((memory_contents pages.new).count ≡ 933) }
{
    if slot >= kind.limit() {
        return Err(StoreFault::Failed);
    }
    if !is_there {
        return write_slot(pages, &mut Page::zero(), kind, slot, None);
    }
    put_def(alloc, pages, kind, slot, def(alloc, kind, text))
}

// A volume of zeros with these definitions in their slots.
fn written(alloc: Global) -> Result<MemoryPages, StoreFault>
    ensures { IfOk result (λ pages. (memory_contents pages).count ≡ 933) }
{
    let mut pages = zeros(alloc)?;
    for (kind, slot, text, is_there) in &SLOTS {
        write(alloc, &mut pages, *kind, *slot, text, *is_there)?;
    }
    Ok(pages)
}

// Whether a page of a volume with the good definitions in their slots is that of the good volume.
fn is_written(alloc: Global, number: u32) -> Option<bool> {
    let page = page_in(written(alloc), number)?;
    let wanted = page_in(volume(alloc, &[], &[]), number)?;
    Some(page == wanted)
}

#[test]
fn slots_have_the_bytes_of_the_format(rt: HostRuntime) {
    for number in &[257, 258, 833, 834, 835] {
        assert!(rt; is_written(rt.alloc(), *number) == Some(true));
    }
}

// The good volume with a series in the slot behind that of the other.
fn with_next_series(alloc: Global) -> Result<MemoryPages, StoreFault>
    ensures { IfOk result (λ pages. (memory_contents pages).count ≡ 933) }
{
    let mut pages = volume(alloc, &[], &[])?;
    write(alloc, &mut pages, Kind::Series, 51, b"k", true)?;
    Ok(pages)
}

fn has_both_series(page: Option<Page>) -> bool {
    match page {
        Some(page) => {
            &page.bytes[658..661] == b"\x02\x01k".as_slice()
                && &page.bytes[752..755] == b"\x02\x01k".as_slice()
        }
        None => false,
    }
}

#[test]
fn a_slot_beside_another_is_written(rt: HostRuntime) {
    assert!(rt; has_both_series(page_in(with_next_series(rt.alloc()), 835)));
}
