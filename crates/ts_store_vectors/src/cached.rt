// Which reads of a store make a call on the volume, and that none is of a page that has changed since.
ghost use Rattle.std.specs.Prelude.{◌≡◌, [], IfOk, OnOk};
ghost use Rattle.ts_disk.specs.Device.{Only};
ghost use Rattle.ts_store.specs.OpenBatch.{IsIdle, IsClosed};

use crate::stores::{blank, committed, freed_on, opened, settled, stored, taken_on, tried};
use std::alloc::Global;
use std::mem;
use std::test::Fail;
use ts_base::StoreFault;
use ts_disk::{MemorySite, Volume};
use ts_recover::RecoverFault;
use ts_store::Store;

/// What is done with the element page before it is read, in a batch that is then dropped.
#[derive(Clone, Copy)]
enum Deed {
    Nothing,
    /// A page of this byte is put, and dropped with its batch.
    Try(u8),
    /// A page of this byte is put and committed.
    Put(u8),
    /// It is freed, taken again and committed.
    Free,
    /// The journal is settled.
    Settle,
}

// A store that keeps the pages that it reads, none of which can be taken.
fn caching<V: Volume>(alloc: Global, vol: &mut V) -> Result<Store, RecoverFault>
    requires { Only (V.device vol.old).held (V.device vol.old).images }
    ensures idle { IfOk result (λ s. IsIdle V.tells s (V.device vol.new)) }
    ensures closed { IfOk result (λ s. IsClosed s) }
    ensures free { IfOk result (λ s. s.free ≡ []) }
{
    let mut store = opened(alloc, vol)?;
    store.admit(Vec::new(alloc));
    Ok(store)
}

fn freed<V: Volume>(store: &mut Store, vol: &mut V) -> Result<(), StoreFault>
    requires idle { IsIdle V.tells store.old (V.device vol.old) }
    requires closed { IsClosed store.old }
    requires free { store.old.free ≡ [] }
    ensures idle { OnOk result (IsIdle V.tells store.new (V.device vol.new)) }
    ensures closed { OnOk result (IsClosed store.new) }
    ensures free { OnOk result (store.new.free ≡ []) }
{
    freed_on(store, vol)?;
    taken_on(store, vol);
    committed(store, vol)
}

fn done<V: Volume>(store: &mut Store, vol: &mut V, deed: Deed) -> Result<(), StoreFault>
    requires idle { IsIdle V.tells store.old (V.device vol.old) }
    requires closed { IsClosed store.old }
    requires free { store.old.free ≡ [] }
    ensures idle { OnOk result (IsIdle V.tells store.new (V.device vol.new)) }
    ensures closed { OnOk result (IsClosed store.new) }
    ensures free { OnOk result (store.new.free ≡ []) }
{
    match deed {
        Deed::Nothing => Ok(()),
        Deed::Try(byte) => {
            tried(store, vol, Some(byte))?;
            Ok(())
        }
        Deed::Put(byte) => {
            stored(store, vol, Some(byte))?;
            Ok(())
        }
        Deed::Free => freed(store, vol),
        Deed::Settle => settled(store, vol),
    }
}

// Whether after each deed this is read: the byte that the page begins and ends with, if it does.
fn are_read<V: Volume>(
    store: &mut Store,
    vol: &mut V,
    steps: &[(Deed, Option<u8>, u64)],
) -> Result<bool, Fail>
    requires idle { IsIdle V.tells store.old (V.device vol.old) }
    requires closed { IsClosed store.old }
    requires free { store.old.free ≡ [] }
{
    for (deed, wanted, _) in steps {
        done(store, vol, *deed)?;
        if tried(store, vol, None)? != *wanted {
            return Ok(false);
        }
    }
    Ok(true)
}

// Opens the volume, and whether this is read of it.
fn read_after<V: Volume>(
    alloc: Global,
    vol: &mut V,
    steps: &[(Deed, Option<u8>, u64)],
) -> Result<bool, Fail>
    requires { Only (V.device vol.old).held (V.device vol.old).images }
{
    let mut store = caching(alloc, vol)?;
    let are_read = are_read(&mut store, vol, steps);
    mem::drop(store);
    are_read
}

// Whether a new volume reads so, and has had so many calls by the end of the last step.
fn calls_by(alloc: Global, steps: &[(Deed, Option<u8>, u64)]) -> Result<bool, Fail> {
    let mut site = MemorySite::new(blank(alloc)?)?;
    let read = read_after(alloc, &mut site, steps)?;
    Ok(read && steps.last().is_some_and(|step| step.2 == site.calls()))
}

#[test]
fn a_page_is_read_from_the_volume_once(rt: HostRuntime) -> Result<(), Fail> {
    let steps = [
        // The opening read the first gate.
        (Deed::Nothing, Some(0), 2),
        // A dropped batch leaves the page in the cache.
        (Deed::Nothing, Some(0), 2),
        (Deed::Try(7), Some(0), 3),
        (Deed::Nothing, Some(0), 3),
        // A commit is four calls, and then the page is read in the overlay.
        (Deed::Put(1), Some(1), 7),
        // So is a settling; the page is read in its place, and then in the cache.
        (Deed::Settle, Some(1), 12),
        (Deed::Nothing, Some(1), 12),
        (Deed::Put(2), Some(2), 16),
        (Deed::Settle, Some(2), 21),
        (Deed::Nothing, Some(2), 21),
        (Deed::Free, Some(0), 25),
        // The head alone of a freed page is written in its place.
        (Deed::Settle, None, 30),
        (Deed::Nothing, None, 30),
    ];
    for last in 0..steps.len() {
        assert!(rt; calls_by(rt.alloc(), &steps[..=last])?);
    }
    Ok(())
}
