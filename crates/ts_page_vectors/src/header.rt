// The header: its bytes, and the format that a survey tells.
ghost use Rattle.std.specs.Prelude.{◌≡◌, IfOk};
ghost use Rattle.ts_page.specs.Memory.{memory_contents};

use crate::volume::{NEWEST, Patch, page_in, surveyed, volume};
use std::alloc::Global;
use std::mem;
use ts_base::StoreFault;
use ts_container::{SurveyFault, put_header, write_header};
use ts_model::{FORMAT, OLD_FORMAT};
use ts_page::{MemoryPages, Page};

fn has_header(page: &Page, wanted: &[u8]) -> bool {
    &page.bytes[..13] == wanted && page.bytes[13..].iter().all(|byte| *byte == 0)
}

// Whether the header of a format is written with these bytes, and no other.
fn is_header(format: u8, wanted: &[u8]) -> bool {
    let mut page = Page::zero();
    page.bytes[4095] = 7;
    write_header(format, 65536, &mut page);
    has_header(&page, wanted)
}

#[test]
fn the_header_has_these_bytes(rt: HostRuntime) {
    assert!(rt; is_header(OLD_FORMAT, b"TSVOLUME\x01\x00\x01\x00\x00"));
    assert!(rt; is_header(FORMAT, b"TSVOLUME\x02\x00\x01\x00\x00"));
}

/// The byte of the format, and what a survey says of it.
static FORMATS: [(Patch, Option<u8>); 5] = [
    ((0, 8, &[0]), None),
    ((0, 8, &[1]), Some(1)),
    ((0, 8, &[2]), Some(2)),
    ((0, 8, &[3]), None),
    ((0, 8, &[9]), None),
];

// The format of a volume; none where its header is bad.
fn format_of(alloc: Global, patch: Patch) -> Option<Option<u8>> {
    match surveyed(alloc, &[], &[patch]) {
        Ok(found) => {
            let format = found.defs.format();
            mem::drop(found);
            Some(Some(format))
        }
        Err(SurveyFault::NotAStore { page: 0 }) => Some(None),
        Err(_) => None,
    }
}

#[test]
fn the_survey_tells_the_format(rt: HostRuntime) {
    for (patch, wanted) in &FORMATS {
        assert!(rt; format_of(rt.alloc(), *patch) == Some(*wanted));
    }
}

// The good volume with the header of the newest format.
fn renewed(alloc: Global) -> Result<MemoryPages, StoreFault>
    ensures { IfOk result (λ pages. (memory_contents pages).count ≡ 933) }
{
    let mut pages = volume(alloc, &[], &[])?;
    put_header(&mut pages, FORMAT, 3)?;
    Ok(pages)
}

// Whether a page of it is that of the good volume with another byte in its header.
fn is_renewed(alloc: Global, number: u32) -> Option<bool> {
    let page = page_in(renewed(alloc), number)?;
    let wanted = page_in(volume(alloc, &[], &[NEWEST]), number)?;
    Some(page == wanted)
}

#[test]
fn a_volume_takes_another_format_by_its_first_page(rt: HostRuntime) {
    for number in &[0, 257, 833, 931] {
        assert!(rt; is_renewed(rt.alloc(), *number) == Some(true));
    }
}
