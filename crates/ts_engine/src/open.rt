// The opening of a volume that was synced.
ghost use Rattle.std.specs.Prelude.{◌≡◌, IsTrue, IfOk, IfErr, IsErrOf, OnOk};
ghost use Rattle.ts_disk.specs.Device.{Rose};
ghost use Rattle.ts_journal.specs.Moment.{OnlyReads};
ghost use Rattle.ts_store.specs.OpenBatch.{IsIdle, IsClosed, IsReadOver, read_pages, contents_over};
ghost use Rattle.ts_store.specs.Undisturbed.{Undisturbed};
ghost use Rattle.ts_container.specs.declared.fault.SurveyFault.TheVariants.{Failed};
ghost use Rattle.ts_container.specs.Survey.{IsFound, IsMarked, IfRefused};
ghost use Rattle.ts_volume.specs.FirstBad.{IsFirstBad};
ghost use Rattle.ts_hidden.specs.Marks.{AreOfSlots};
ghost use Rattle.ts_engine.specs.Engine.{NothingIsPending};
ghost use Rattle.ts_engine.specs.Start.{Opened, ReadFault, read_as};

use crate::engine::Engine;
use std::alloc::Global;
use ts_container::{Charges, SurveyFault, Surveyed, survey};
use ts_disk::Volume;
use ts_hidden::Marks;
use ts_layout::names_stand_in_slots;
use ts_page::{PAGE, Page};
use ts_recover::{RecoverFault, recover};
use ts_store::{On, Store};

/// Reads the journal and all pages, and brings the journal's pages to their places. All memory is taken before the
/// first write.
pub(crate) fn open<V: Volume>(alloc: Global, vol: &mut V) -> Result<Engine, SurveyFault>
    requires settled { NothingIsPending (V.device vol.old) }
    ensures opened { Opened V.tells result (V.device vol.old) (V.device vol.new) }
{
    let charges = Charges::new(alloc)?;
    let mut store = read_journal(alloc, vol)?;
    let surveyed = survey_over(alloc, &mut store, vol)?;
    let hidden = Marks::of_slots(alloc, &surveyed.defs, &surveyed.hidden)?;
    settle(alloc, store, surveyed, hidden, charges, vol)
}

// The store of a volume, none of whose pages can be taken yet.
fn read_journal<V: Volume>(alloc: Global, vol: &mut V) -> Result<Store, SurveyFault>
    requires settled { NothingIsPending (V.device vol.old) }
    ensures idle { IfOk result (λ s. IsIdle V.tells s (V.device vol.new)) }
    ensures closed { IfOk result IsClosed }
    ensures fault { IfErr result (λ fault. ReadFault V.tells fault (V.device vol.old) (V.device vol.new)) }
    ensures no_fault { OnOk result ((V.device vol.new).faults ≡ (V.device vol.old).faults) }
    ensures others { OnlyReads V.tells (V.device vol.old) (V.device vol.new) }
{
    match recover(alloc, vol) {
        Ok(replayed) => Ok(Store::new(alloc, replayed)?),
        Err(fault) => Err(read_as(fault)),
    }
}

fn read_as(fault: RecoverFault) -> SurveyFault
    ensures { result ≡ read_as fault }
{
    match fault {
        RecoverFault::Failed => SurveyFault::Failed,
        RecoverFault::NotAStore { page } => SurveyFault::NotAStore { page },
        RecoverFault::Memory(error) => SurveyFault::Memory(error),
    }
}

// Reads all pages through the store, in a batch that is then dropped.
fn survey_over<V: Volume>(
    alloc: Global,
    store: &mut Store,
    vol: &mut V,
) -> Result<Surveyed, SurveyFault>
    requires idle { IsIdle V.tells store.old (V.device vol.old) }
    requires closed { IsClosed store.old }
    ensures idle { OnOk result (IsIdle V.tells store.new (V.device vol.new)) }
    ensures closed { OnOk result (IsClosed store.new) }
    ensures found { IfOk result
        (λ s. IsFound V.tells store.new.pages
        (contents_over store.new (V.device vol.new)) s.defs.definitions s.space s.free.items) }
    ensures marked { IfOk result
        (λ s. IsMarked V.tells store.new.pages
        (contents_over store.new (V.device vol.new)) s.defs.definitions s.space s.free.items s.hidden.items) }
    ensures fault { IfErr result (λ fault. ReadFault V.tells fault (V.device vol.old) (V.device vol.new)) }
    ensures no_fault { OnOk result ((V.device vol.new).faults ≡ (V.device vol.old).faults) }
    ensures others { OnlyReads V.tells (V.device vol.old) (V.device vol.new) }
{
    let count = (vol.len() / PAGE) as u32;
    let surveyed = survey_on(alloc, store, vol, count)?;
    store.discard();
    Ok(surveyed)
}

// The survey, where the volume has so many pages.
fn survey_on<V: Volume>(
    alloc: Global,
    store: &mut Store,
    vol: &mut V,
    count: u32,
) -> Result<Surveyed, SurveyFault>
    requires read { IsReadOver V.tells store.old (V.device vol.old) }
    requires count { count ≡ store.old.pages }
    ensures found { IfOk result
        (λ s. IsFound V.tells count
        (contents_over store.old (V.device vol.old)) s.defs.definitions s.space s.free.items) }
    ensures marked { IfOk result
        (λ s. IsMarked V.tells count
        (contents_over store.old (V.device vol.old)) s.defs.definitions s.space s.free.items s.hidden.items) }
    ensures refused { IfErr result (λ e. IfRefused e (λ page. IsTrue V.tells
        → IsFirstBad count (read_pages store.old (V.device vol.old).held) page)) }
    ensures cause { IsErrOf result Failed → Rose (V.device vol.old).faults (V.device vol.new).faults }
    ensures no_fault { ¬ IsErrOf result Failed → (V.device vol.new).faults ≡ (V.device vol.old).faults }
    ensures undisturbed { Undisturbed V.tells store.old store.new (V.device vol.old) (V.device vol.new) }
{
    let mut on = On {
        store,
        vol,
        scan: true,
    };
    survey(alloc, &mut on, count)
}

// Lets the free pages be taken, and brings the journal's pages to their places.
fn settle<V: Volume>(
    alloc: Global,
    mut store: Store,
    surveyed: Surveyed,
    hidden: Marks,
    mut charges: Charges,
    vol: &mut V,
) -> Result<Engine, SurveyFault>
    requires idle { IsIdle V.tells store (V.device vol.old) }
    requires closed { IsClosed store }
    requires found { IsFound V.tells store.pages
        (contents_over store (V.device vol.old)) surveyed.defs.definitions surveyed.space surveyed.free.items }
    requires marked { IsMarked V.tells store.pages
        (contents_over store (V.device vol.old)) surveyed.defs.definitions surveyed.space surveyed.free.items
        surveyed.hidden.items }
    requires slots { AreOfSlots surveyed.defs.definitions surveyed.hidden.items hidden }
    ensures opened { Opened V.tells result (V.device vol.old) (V.device vol.new) }
{
    let Surveyed {
        defs,
        space,
        free,
        ..
    } = surveyed;
    // The series of a key is the one in the slot that has it.
    names_stand_in_slots();
    // A directory has a list for each slot.
    let _slots = space.places(0);
    charges.count(&defs, &space);
    store.admit(free);
    match store.settle(vol) {
        Ok(()) => Ok(Engine {
            store,
            defs,
            space,
            charges,
            hidden,
            saved: None,
            page: Page::zero(),
            spent: None,
            alloc,
        }),
        Err(_) => Err(SurveyFault::Failed),
    }
}
