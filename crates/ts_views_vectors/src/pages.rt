// What a view reads, and what a command changes of it.
ghost use Rattle.std.specs.Prelude.{◌≡◌, ◌<◌, IfOk};
ghost use Rattle.ts_page.specs.Memory.{memory_contents};

use std::alloc::{AllocError, Global};
use std::test::Fail;
use ts_base::StoreFault;
use ts_journal::{Batch, Change};
use ts_page::{MemoryPages, Page, Pages};
use ts_views::{ViewPages, a_commit_leaves_a_view, a_commit_leaves_the_open_views};

// A page of this byte alone.
pub(crate) fn page_of(byte: u8) -> Page {
    Page {
        bytes: [byte; 4096],
    }
}

// Pages of zeros, of which none is free.
fn zeros(alloc: Global) -> Result<MemoryPages, AllocError>
    ensures { IfOk result (λ pages. (memory_contents pages).count ≡ 933) }
{
    let pages = vec![in alloc; Page::zero(); 933]?;
    Ok(MemoryPages::new(pages, Vec::new(alloc)))
}

// Changes that make pages of one byte each.
pub(crate) fn changes_of(alloc: Global, table: &[(u32, u8)]) -> Result<Batch, AllocError> {
    let mut changes = Batch::new(alloc);
    for (no, byte) in table {
        changes.set(*no, Change::Image(page_of(*byte)))?;
    }
    Ok(changes)
}

// The first byte of a page.
fn first_byte<P: Pages>(pages: &mut P, no: u32) -> Result<u8, StoreFault>
    requires { no < (P.contents pages.old).count }
    ensures count { (P.contents pages.new).count ≡ (P.contents pages.old).count }
    ensures free { (P.contents pages.new).free ≡ (P.contents pages.old).free }
{
    let mut page = Page::zero();
    pages.get(no, &mut page)?;
    Ok(page.bytes[0])
}

#[test]
fn its_own_changes_hide_old_images_and_these_the_newest_pages(rt: HostRuntime) -> Result<(), Fail> {
    let alloc = rt.alloc();
    let mut newest = zeros(alloc)?;
    let old = changes_of(alloc, &[(930, 1), (931, 2)])?;
    let own = changes_of(alloc, &[(931, 3)])?;
    let mut changes = Batch::new(alloc);
    let mut free = Vec::new(alloc);
    let mut pages = ViewPages {
        newest: &mut newest,
        old: &old,
        own: &own,
        changes: &mut changes,
        free: &mut free,
    };
    assert!(rt; first_byte(&mut pages, 929)? == 0);
    assert!(rt; first_byte(&mut pages, 930)? == 1);
    assert!(rt; first_byte(&mut pages, 931)? == 3);
    Ok(())
}

#[test]
fn a_command_changes_the_view_alone(rt: HostRuntime) -> Result<(), Fail> {
    let alloc = rt.alloc();
    let mut newest = zeros(alloc)?;
    let old = Batch::new(alloc);
    let own = changes_of(alloc, &[(931, 3)])?;
    let mut changes = Batch::new(alloc);
    let mut free = Vec::new(alloc);
    let mut pages = ViewPages {
        newest: &mut newest,
        old: &old,
        own: &own,
        changes: &mut changes,
        free: &mut free,
    };
    pages.put(932, &page_of(4))?;
    pages.free(931)?;
    assert!(rt; first_byte(&mut pages, 932)? == 4);
    assert!(rt; first_byte(&mut pages, 931)? == 0);
    assert!(rt; pages.spare() == 1 && pages.take() == 931);
    assert!(rt; changes.len() == 2 && own.len() == 1 && free.is_empty());
    Ok(())
}

#[test]
fn the_laws_are_called() {
    a_commit_leaves_a_view();
    a_commit_leaves_the_open_views();
}
