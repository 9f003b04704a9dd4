// The check of a volume.
ghost use Rattle.std.specs.Prelude.{◌≡◌, ◌≤◌, [], Ok, ℕ, IsTrue, IfOk, IfErr, OnErr, OnOk, IsErrOf, length};
ghost use Rattle.ts_disk.specs.Device.{Rose};
ghost use Rattle.ts_base.specs.declared.fault.StoreFault.TheVariants.{Failed};
ghost use Rattle.ts_journal.specs.Moment.{OnlyReads};
ghost use Rattle.ts_space.specs.Directory.{used_of};
ghost use Rattle.ts_layout.specs.Meaning.{Layout, IsSound, catalogue_of};
ghost use Rattle.ts_container.specs.declared.fault.SurveyFault.TheVariants.{Failed as SurveyFailed};
ghost use Rattle.ts_container.specs.Survey.{IfRefused, IsFound, IsSurveyOf};
ghost use Rattle.ts_store.specs.OpenBatch.{IsReadOver, contents_over, read_pages};
ghost use Rattle.ts_store.specs.Undisturbed.{Undisturbed};
ghost use Rattle.ts_volume.specs.FirstBad.{IsFirstBad};
ghost use Rattle.ts_check.specs.Report.{IsReport, report};
ghost use Rattle.ts_check.specs.Checked.{IsKept, VolumeSurveyed, read_as};

use crate::Verdict;
use crate::report::{say_bad, say_containers, say_pages};
use crate::survey::survey_in_lists;
use std::alloc::{AllocError, Global};
use std::thread::Threads;
use ts_base::{Reply, StoreFault};
use ts_container::{Charges, SurveyFault, Surveyed};
use ts_disk::Volume;
use ts_parallel::Gate;
use ts_recover::{RecoverFault, recover};
use ts_store::{On, Store};

/// Reads a volume, with what its journal puts over the pages, and makes the report on it: where it means a catalogue a
/// line for each container, `container NAME charge C of QUOTA series N`, in the order of their names, and `ok USED of
/// PAGES`, where USED counts the element pages that aren't free; else `bad page N`. What `out` had before is gone;
/// after an error it is empty. Nothing is written or synced, and what is pending stays so. A worker passes the gate
/// before each element page, with the place of the page among the 4096 that are read together.
pub fn check_volume<V: Volume, G: Gate + Sync>(
    rt: &(impl Threads + Sync),
    alloc: Global,
    gate: &G,
    vol: &mut V,
    out: &mut Reply,
) -> Result<Verdict, StoreFault>
    ensures report { IfOk result (λ verdict. IsTrue V.tells → IsReport (V.device vol.old).held verdict out.new) }
    ensures err { OnErr result (out.new ≡ []) }
    // The disk failed only where its count rose in this call.
    ensures cause { IsErrOf result StoreFault.Failed → Rose (V.device vol.old).faults (V.device vol.new).faults }
    ensures no_fault { ¬ IsErrOf result StoreFault.Failed → (V.device vol.new).faults ≡ (V.device vol.old).faults }
    ensures others { OnlyReads V.tells (V.device vol.old) (V.device vol.new) }
{
    out.clear();
    match survey_volume(rt, alloc, gate, vol) {
        Ok(found) => emptied_unless(say_good(alloc, &found, out), Verdict::Good, out),
        Err(SurveyFault::NotAStore { page }) => {
            emptied_unless(say_bad(out, page), Verdict::Bad { page }, out)
        }
        Err(SurveyFault::Failed) => Err(StoreFault::Failed),
        Err(SurveyFault::Memory(error)) => Err(StoreFault::Memory(error)),
    }
}

// The verdict, where what is said of it was said; else nothing is said.
fn emptied_unless(
    said: Result<(), AllocError>,
    verdict: Verdict,
    out: &mut Reply,
) -> Result<Verdict, StoreFault>
    ensures ok { IfOk result (λ given. (given ≡ verdict) × (said ≡ Ok tt) × (out.new ≡ out.old)) }
    ensures err { OnErr result (out.new ≡ []) }
    ensures cause { IsErrOf result StoreFault.Failed → ⊥ }
{
    match said {
        Ok(()) => Ok(verdict),
        Err(error) => {
            out.clear();
            Err(StoreFault::Memory(error))
        }
    }
}

// Says the report on a volume of which this is kept.
fn say_good(alloc: Global, found: &Surveyed, out: &mut Reply) -> Result<(), AllocError>
    requires kept { IsKept found.now.defs.definitions found.now.space found.now.free.items }
    requires empty { out.old ≡ [] }
    ensures { OnOk result ((l : Layout) → IsSound l
        → IsSurveyOf found.now.defs.definitions found.now.space found.now.free.items l
        → out.new ≡ report (catalogue_of l) (used_of found.now.space)) }
{
    let mut charges = Charges::new(alloc)?;
    charges.count(&found.defs, &found.space);
    say_containers(&found.defs, &charges, out)?;
    let used = found.space.used();
    say_pages(out, used, used + found.free.len() as u32)
}

// Reads the journal and all pages of a volume.
fn survey_volume<V: Volume, G: Gate + Sync>(
    rt: &(impl Threads + Sync),
    alloc: Global,
    gate: &G,
    vol: &mut V,
) -> Result<Surveyed, SurveyFault>
    ensures { VolumeSurveyed V.tells result (V.device vol.old) (V.device vol.new) }
{
    match recover(alloc, vol) {
        Ok(replayed) => {
            let count = replayed.pages;
            let mut store = Store::new(alloc, replayed)?;
            survey_over(rt, alloc, gate, &mut store, vol, count)
        }
        Err(fault) => Err(read_as(fault)),
    }
}

fn read_as(fault: RecoverFault) -> SurveyFault
    ensures { result ≡ read_as fault }
{
    match fault {
        RecoverFault::Failed => SurveyFault::Failed,
        RecoverFault::NotAStore { page } => SurveyFault::NotAStore { page },
        RecoverFault::Memory(error) => SurveyFault::Memory(error),
    }
}

// The survey of the pages of a store, of which none is put into its cache.
fn survey_over<V: Volume, G: Gate + Sync>(
    rt: &(impl Threads + Sync),
    alloc: Global,
    gate: &G,
    store: &mut Store,
    vol: &mut V,
    count: u32,
) -> Result<Surveyed, SurveyFault>
    requires read { IsReadOver V.tells store.old (V.device vol.old) }
    requires count { count ≡ store.old.pages }
    ensures found { IfOk result
        (λ s. IsFound V.tells count
        (contents_over store.old (V.device vol.old)) s.defs.definitions s.space s.free.items) }
    ensures refused { IfErr result (λ e. IfRefused e (λ page. IsTrue V.tells
        → IsFirstBad count (read_pages store.old (V.device vol.old).held) page)) }
    ensures cause { IsErrOf result SurveyFault.Failed → Rose (V.device vol.old).faults (V.device vol.new).faults }
    ensures no_fault { ¬ IsErrOf result SurveyFault.Failed → (V.device vol.new).faults ≡ (V.device vol.old).faults }
    ensures undisturbed { Undisturbed V.tells store.old store.new (V.device vol.old) (V.device vol.new) }
{
    let mut on = On {
        store,
        vol,
        scan: true,
    };
    survey_in_lists(rt, alloc, gate, &mut on, count)
}
