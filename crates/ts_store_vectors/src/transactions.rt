// Batches that are kept in a transaction, its rollback, and its commit.
ghost use Rattle.std.specs.Prelude.{◌≡◌, ◌+◌, ◌≤◌, ◌∷◌, [], OnOk, length};
ghost use Rattle.ts_disk.specs.Device.{Only};
ghost use Rattle.ts_page.specs.Pages.{image_entry_size, free_entry_size};
ghost use Rattle.ts_store.specs.OpenBatch.{IsIdle, IsClosed, contents_over};
ghost use Rattle.ts_store_vectors.specs.Transaction.{IsBetween};

use crate::stores::{
    ELEMENT_PAGE, blank, committed, edited_on, freed_on, opened, stops_leave, taken_on, tried,
};
use std::alloc::Global;
use std::mem;
use std::test::Fail;
use ts_base::StoreFault;
use ts_disk::{MemorySite, Pick, Volume};
use ts_store::Store;

/// What is done in a transaction. Then the element page is read.
#[derive(Clone, Copy)]
enum Deed {
    /// The page is put, with this byte, and that is kept.
    Keep(Option<u8>),
    /// The page is put, with this byte, if there is one, read, and that is dropped.
    Drop(Option<u8>),
    /// The page is freed, and that kept; it is taken, and that dropped; it is taken, and that kept.
    Renew,
    /// The transaction is rolled back.
    Rollback,
}

fn kept<V: Volume>(
    store: &mut Store,
    vol: &mut V,
    put: Option<u8>,
) -> Result<Option<u8>, StoreFault>
    requires { IsBetween V.tells [] store.old (V.device vol.old) }
    ensures between { OnOk result (IsBetween V.tells [] store.new (V.device vol.new)) }
    ensures bytes { OnOk result ((contents_over store.new (V.device vol.new)).change_bytes
        ≤ (contents_over store.old (V.device vol.old)).change_bytes + image_entry_size) }
{
    let seen = edited_on(store, vol, put)?;
    store.prepare()?;
    store.keep();
    Ok(seen)
}

fn dropped<V: Volume>(
    store: &mut Store,
    vol: &mut V,
    put: Option<u8>,
) -> Result<Option<u8>, StoreFault>
    requires { IsBetween V.tells [] store.old (V.device vol.old) }
    ensures between { OnOk result (IsBetween V.tells [] store.new (V.device vol.new)) }
    ensures bytes { OnOk result ((contents_over store.new (V.device vol.new)).change_bytes
        ≤ (contents_over store.old (V.device vol.old)).change_bytes) }
{
    let seen = edited_on(store, vol, put)?;
    store.discard();
    Ok(seen)
}

fn freed<V: Volume>(store: &mut Store, vol: &mut V) -> Result<u32, StoreFault>
    requires { IsBetween V.tells [] store.old (V.device vol.old) }
    ensures between { OnOk result (IsBetween V.tells (ELEMENT_PAGE ∷ []) store.new (V.device vol.new)) }
    ensures bytes { OnOk result ((contents_over store.new (V.device vol.new)).change_bytes
        ≤ (contents_over store.old (V.device vol.old)).change_bytes + free_entry_size) }
{
    let spare = freed_on(store, vol)?;
    store.prepare()?;
    store.keep();
    Ok(spare)
}

fn taken<V: Volume>(store: &mut Store, vol: &mut V) -> Result<u32, StoreFault>
    requires { IsBetween V.tells (ELEMENT_PAGE ∷ []) store.old (V.device vol.old) }
    ensures between { OnOk result (IsBetween V.tells [] store.new (V.device vol.new)) }
    ensures bytes { OnOk result ((contents_over store.new (V.device vol.new)).change_bytes
        ≤ (contents_over store.old (V.device vol.old)).change_bytes) }
{
    let page = taken_on(store, vol);
    store.prepare()?;
    store.keep();
    Ok(page)
}

// Takes the page, and drops that.
fn taken_back<V: Volume>(store: &mut Store, vol: &mut V) -> u32
    requires { IsBetween V.tells (ELEMENT_PAGE ∷ []) store.old (V.device vol.old) }
    ensures between { IsBetween V.tells (ELEMENT_PAGE ∷ []) store.new (V.device vol.new) }
    ensures bytes { (contents_over store.new (V.device vol.new)).change_bytes
        ≤ (contents_over store.old (V.device vol.old)).change_bytes }
{
    let page = taken_on(store, vol);
    store.discard();
    page
}

// What is read of the page in the end, or nothing where another page was taken.
fn renewed<V: Volume>(store: &mut Store, vol: &mut V) -> Result<Option<u8>, StoreFault>
    requires { IsBetween V.tells [] store.old (V.device vol.old) }
    ensures between { OnOk result (IsBetween V.tells [] store.new (V.device vol.new)) }
    ensures bytes { OnOk result ((contents_over store.new (V.device vol.new)).change_bytes
        ≤ (contents_over store.old (V.device vol.old)).change_bytes + free_entry_size) }
{
    let spare = freed(store, vol)?;
    let first = taken_back(store, vol);
    let second = taken(store, vol)?;
    let seen = dropped(store, vol, None)?;
    if (spare, first, second) == (1, ELEMENT_PAGE, ELEMENT_PAGE) {
        Ok(seen)
    } else {
        Ok(None)
    }
}

fn rolled_back<V: Volume>(store: &mut Store, vol: &mut V) -> Result<Option<u8>, StoreFault>
    requires { IsBetween V.tells [] store.old (V.device vol.old) }
    ensures between { OnOk result (IsBetween V.tells [] store.new (V.device vol.new)) }
    ensures bytes { OnOk result ((contents_over store.new (V.device vol.new)).change_bytes
        ≤ (contents_over store.old (V.device vol.old)).change_bytes) }
{
    store.rollback();
    dropped(store, vol, None)
}

fn done<V: Volume>(store: &mut Store, vol: &mut V, deed: Deed) -> Result<Option<u8>, StoreFault>
    requires { IsBetween V.tells [] store.old (V.device vol.old) }
    ensures between { OnOk result (IsBetween V.tells [] store.new (V.device vol.new)) }
    ensures bytes { OnOk result ((contents_over store.new (V.device vol.new)).change_bytes
        ≤ (contents_over store.old (V.device vol.old)).change_bytes + image_entry_size) }
{
    match deed {
        Deed::Keep(put) => kept(store, vol, put),
        Deed::Drop(put) => dropped(store, vol, put),
        Deed::Renew => renewed(store, vol),
        Deed::Rollback => rolled_back(store, vol),
    }
}

// Whether after each deed this is read, and the last of it once all was committed.
fn deeds_hold<V: Volume>(store: &mut Store, vol: &mut V, deeds: &[(Deed, u8)]) -> Result<bool, Fail>
    requires idle { IsIdle V.tells store.old (V.device vol.old) }
    requires closed { IsClosed store.old }
    requires free { store.old.free ≡ [] }
    requires few { length deeds.now ≤ 255 }
{
    let mut last = None;
    for (deed, wanted) in deeds {
        last = Some(*wanted);
        if done(store, vol, *deed)? != last {
            return Ok(false);
        }
    }
    committed(store, vol)?;
    Ok(tried(store, vol, None)? == last)
}

// The same once the volume is opened.
fn deeds_hold_in<V: Volume>(alloc: Global, vol: &mut V, deeds: &[(Deed, u8)]) -> Result<bool, Fail>
    requires only { Only (V.device vol.old).held (V.device vol.old).images }
    requires few { length deeds.now ≤ 255 }
{
    let mut store = opened(alloc, vol)?;
    let hold = deeds_hold(&mut store, vol, deeds);
    mem::drop(store);
    hold
}

// A volume of zeros after these deeds, if they hold.
fn site_after(alloc: Global, deeds: &[(Deed, u8)]) -> Result<MemorySite, Fail>
    requires { length deeds.now ≤ 255 }
{
    let mut site = MemorySite::new(blank(alloc)?)?;
    if deeds_hold_in(alloc, &mut site, deeds)? {
        Ok(site)
    } else {
        Err(Fail::from("a deed doesn't hold"))
    }
}

// How many calls were made, and whether stops within these of them leave these bytes.
fn calls_and_stops(
    alloc: Global,
    deeds: &[(Deed, u8)],
    stops: &[(u64, Pick, u8)],
) -> Result<(u64, bool), Fail>
    requires { length deeds.now ≤ 255 }
{
    let site = site_after(alloc, deeds)?;
    let calls = site.calls();
    let leave = stops_leave(alloc, &site, stops);
    mem::drop(site);
    Ok((calls, leave?))
}

#[test]
fn a_transaction_is_rolled_back_or_committed_whole(rt: HostRuntime) -> Result<(), Fail> {
    let deeds = [
        // The page is read from the volume, and then in the cache.
        (Deed::Drop(None), 0),
        (Deed::Keep(Some(1)), 1),
        // A drop goes back to what was kept.
        (Deed::Drop(Some(2)), 2),
        (Deed::Drop(None), 1),
        (Deed::Renew, 0),
        (Deed::Keep(Some(3)), 3),
        (Deed::Drop(None), 3),
        // The page is read from the volume again, and then in the cache.
        (Deed::Rollback, 0),
        (Deed::Drop(None), 0),
        (Deed::Keep(Some(4)), 4),
        (Deed::Drop(Some(5)), 5),
        (Deed::Keep(Some(6)), 6),
    ];
    let stops = [(3, Pick::Half, 0), (5, Pick::Half, 0), (5, Pick::New, 6)];
    // The opening's one read, two of the page, and the four of one commit.
    assert!(rt; calls_and_stops(rt.alloc(), &deeds, &stops)? == (7, true));
    Ok(())
}
