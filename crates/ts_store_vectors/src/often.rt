// One page that is put again and again in one batch: its record has one image.
ghost use Rattle.std.specs.Prelude.{◌≡◌, ◌+◌, ◌≤◌, ◌<◌, [], OnOk, Contains};
ghost use Rattle.ts_disk.specs.Device.{Only};
ghost use Rattle.ts_page.specs.Pages.{image_entry_size};
ghost use Rattle.ts_store.specs.OpenBatch.{IsOver, IsIdle, IsClosed, contents_over};
ghost use Rattle.ts_store.specs.Undisturbed.{Undisturbed};

use crate::stores::{ELEMENT_PAGE, blank, committed, opened, page_of, tried};
use std::alloc::Global;
use std::mem;
use std::test::Fail;
use ts_base::StoreFault;
use ts_disk::{MemorySite, Volume};
use ts_page::Pages;
use ts_store::{On, Store};

// Puts the element page so often, each time with other bytes.
fn put_often<P: Pages>(pages: &mut P, times: u32) -> Result<(), StoreFault>
    requires within { ELEMENT_PAGE < (P.contents pages.old).count }
    requires used { ¬ Contains (P.contents pages.old).free ELEMENT_PAGE }
    ensures undisturbed { P.undisturbed pages.old pages.new }
    ensures free { (P.contents pages.new).free ≡ (P.contents pages.old).free }
    ensures bytes { (P.contents pages.new).change_bytes ≤ (P.contents pages.old).change_bytes + image_entry_size }
{
    for time in 0..times {
        pages.put(ELEMENT_PAGE, &page_of((time % 256) as u8))?;
    }
    Ok(())
}

fn put_often_on<V: Volume>(store: &mut Store, vol: &mut V, times: u32) -> Result<(), StoreFault>
    requires over { IsOver V.tells store.old (V.device vol.old) }
    requires free { store.old.free ≡ [] }
    ensures undisturbed { Undisturbed V.tells store.old store.new (V.device vol.old) (V.device vol.new) }
    ensures over { IsOver V.tells store.new (V.device vol.new) }
    ensures free { store.new.free ≡ [] }
    ensures bytes { (contents_over store.new (V.device vol.new)).change_bytes
        ≤ (contents_over store.old (V.device vol.old)).change_bytes + image_entry_size }
{
    let mut on = On {
        store,
        vol,
        scan: false,
    };
    put_often(&mut on, times)
}

// Commits them in one record, however many they are.
fn stored_often<V: Volume>(store: &mut Store, vol: &mut V, times: u32) -> Result<(), StoreFault>
    requires idle { IsIdle V.tells store.old (V.device vol.old) }
    requires closed { IsClosed store.old }
    requires free { store.old.free ≡ [] }
    ensures idle { OnOk result (IsIdle V.tells store.new (V.device vol.new)) }
    ensures closed { OnOk result (IsClosed store.new) }
    ensures free { OnOk result (store.new.free ≡ []) }
{
    put_often_on(store, vol, times)?;
    committed(store, vol)
}

// What is read once they are committed.
fn read_often<V: Volume>(
    store: &mut Store,
    vol: &mut V,
    times: u32,
) -> Result<Option<u8>, StoreFault>
    requires idle { IsIdle V.tells store.old (V.device vol.old) }
    requires closed { IsClosed store.old }
    requires free { store.old.free ≡ [] }
{
    stored_often(store, vol, times)?;
    tried(store, vol, None)
}

// The same once the volume is opened.
fn read_often_of<V: Volume>(alloc: Global, vol: &mut V, times: u32) -> Result<Option<u8>, Fail>
    requires { Only (V.device vol.old).held (V.device vol.old).images }
{
    let mut store = opened(alloc, vol)?;
    let read = read_often(&mut store, vol, times);
    mem::drop(store);
    Ok(read?)
}

// The same of a volume of zeros, and how many calls were made.
fn read_of_zeros(alloc: Global, times: u32) -> Result<(Option<u8>, u64), Fail> {
    let mut site = MemorySite::new(blank(alloc)?)?;
    let read = read_often_of(alloc, &mut site, times)?;
    Ok((read, site.calls()))
}

#[test]
fn a_thousand_puts_of_a_page_are_one_image(rt: HostRuntime) -> Result<(), Fail> {
    // The opening's one read, two writes and two syncs, and no call for what is in the overlay: with a thousand images
    // there would be no room for the record, with 256 a checkpoint.
    assert!(rt; read_of_zeros(rt.alloc(), 1000)? == (Some(231), 5));
    Ok(())
}
