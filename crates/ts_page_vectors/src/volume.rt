// The volume of the tests: made of bytes, read and surveyed.
ghost use Rattle.std.specs.Prelude.{◌≡◌, [], IfOk};
ghost use Rattle.ts_page.specs.Memory.{memory_contents};
ghost use Rattle.ts_layout.specs.Meaning.{AreSound};
ghost use Rattle.ts_layout.specs.Placed.{AreKept};

use std::alloc::{AllocError, Global};
use std::mem;
use ts_base::StoreFault;
use ts_container::{SurveyFault, Surveyed, survey};
use ts_page::{MemoryPages, Page, Pages};

/// Bytes that are put into a page: its number, their place and they.
pub(crate) type Patch = (u32, usize, &'static [u8]);

/// A volume of the old format with a row type, a container in slot 3, a series in slot 50 and one element, the integer 5
/// at 2011-01-03 00:00:00.
static GOOD: [Patch; 10] = [
    (0, 0, b"TSVOLUME\x01\x00\x00\x00\x03"),
    (257, 0, b"\x01\x01r"),
    (257, 34, b"\x01t"),
    (257, 67, b"\x01\x02\x00\x00\x01v"),
    (833, 180, b"\x01\x01c"),
    (833, 214, b"\x00\x00\x00\x00\x02"),
    (835, 658, b"\x02\x01k"),
    (835, 724, b"\x03"),
    (931, 0, b"\x02\x00\x32\x00\x01"),
    (
        931,
        32,
        b"\x01\x00\x00\x75\xb0\x95\x53\xf0\x00\x01\x00\x00\x00\x05",
    ),
];

/// The byte of the newest format.
pub(crate) const NEWEST: Patch = (0, 8, &[2]);

// A volume of zeros with 3 element pages.
pub(crate) fn zeros(alloc: Global) -> Result<MemoryPages, AllocError>
    ensures count { IfOk result (λ pages. (memory_contents pages).count ≡ 933) }
    ensures free { IfOk result (λ pages. (memory_contents pages).free ≡ []) }
{
    let pages = vec![in alloc; Page::zero(); 933]?;
    Ok(MemoryPages::new(pages, Vec::new(alloc)))
}

// Puts bytes into a page.
fn put(pages: &mut MemoryPages, patch: &Patch) -> Result<(), StoreFault>
    requires count { (memory_contents pages.old).count ≡ 933 }
    requires free { (memory_contents pages.old).free ≡ [] }
    ensures count { (memory_contents pages.new).count ≡ 933 }
    ensures free { (memory_contents pages.new).free ≡ [] }
{
    let (page, at, bytes) = *patch;
    if page >= 933 || (page >= 1 && page < 257) || at > 4096 || bytes.len() > 4096 - at {
        return Err(StoreFault::Failed);
    }
    let mut changed = Page::zero();
    pages.get(page, &mut changed)?;
    changed.bytes[at..at + bytes.len()].copy_from_slice(bytes);
    pages.put(page, &changed)
}

// Puts bytes into pages, one after the other.
fn put_all(pages: &mut MemoryPages, patches: &[Patch]) -> Result<(), StoreFault>
    requires count { (memory_contents pages.old).count ≡ 933 }
    requires free { (memory_contents pages.old).free ≡ [] }
    ensures count { (memory_contents pages.new).count ≡ 933 }
    ensures free { (memory_contents pages.new).free ≡ [] }
{
    for patch in patches {
        put(pages, patch)?;
    }
    Ok(())
}

// The good volume with these bytes put into its pages, the one behind the other.
pub(crate) fn volume(
    alloc: Global,
    base: &[Patch],
    patches: &[Patch],
) -> Result<MemoryPages, StoreFault>
    ensures count { IfOk result (λ pages. (memory_contents pages).count ≡ 933) }
    ensures free { IfOk result (λ pages. (memory_contents pages).free ≡ []) }
{
    let mut pages = zeros(alloc)?;
    put_all(&mut pages, &GOOD)?;
    put_all(&mut pages, base)?;
    put_all(&mut pages, patches)?;
    Ok(pages)
}

// What the survey of a volume finds.
fn survey_of(alloc: Global, made: Result<MemoryPages, StoreFault>) -> Result<Surveyed, SurveyFault>
    requires { IfOk made (λ pages. (memory_contents pages).count ≡ 933) }
    ensures sound { IfOk result (λ found. AreSound 3 found.defs.definitions) }
    ensures kept { IfOk result (λ found. AreKept found.defs.definitions found.space found.free.items 933) }
{
    match made {
        Ok(pages) => {
            let mut pages = pages;
            let found = survey(alloc, &mut pages, 933);
            mem::drop(pages);
            found
        }
        Err(_) => Err(SurveyFault::Failed),
    }
}

// What the survey of the good volume with these bytes finds.
pub(crate) fn surveyed(
    alloc: Global,
    base: &[Patch],
    patches: &[Patch],
) -> Result<Surveyed, SurveyFault>
    ensures sound { IfOk result (λ found. AreSound 3 found.defs.definitions) }
    ensures kept { IfOk result (λ found. AreKept found.defs.definitions found.space found.free.items 933) }
{
    survey_of(alloc, volume(alloc, base, patches))
}

// A page of a volume.
fn page_of(pages: &mut MemoryPages, number: u32) -> Option<Page>
    requires { (memory_contents pages.old).count ≡ 933 }
{
    if number >= 933 {
        return None;
    }
    let mut page = Page::zero();
    pages.get(number, &mut page).ok()?;
    Some(page)
}

// The same of one that was made. What is made is let go of by a call of `drop`, in one place: where its function ends in
// several, or without that call, the proof is many times as long.
pub(crate) fn page_in(made: Result<MemoryPages, StoreFault>, number: u32) -> Option<Page>
    requires { IfOk made (λ pages. (memory_contents pages).count ≡ 933) }
{
    match made {
        Ok(pages) => {
            let mut pages = pages;
            let page = page_of(&mut pages, number);
            mem::drop(pages);
            page
        }
        Err(_) => None,
    }
}
