// A volume that was read and judged, so that its series can be read.
ghost use Rattle.std.specs.Prelude.{◌≡◌, IfOk, IfErr, IsErrOf, IsTrue};
ghost use Rattle.ts_disk.specs.Device.{Rose};
ghost use Rattle.ts_container.specs.declared.fault.SurveyFault.TheVariants.{Failed as SurveyFailed};
ghost use Rattle.ts_container.specs.Survey.{IfRefused, IsFound};
ghost use Rattle.ts_store.specs.OpenBatch.{IsReadOver, contents_over, read_pages};
ghost use Rattle.ts_store.specs.Undisturbed.{Undisturbed};
ghost use Rattle.ts_volume.specs.FirstBad.{IsFirstBad};
ghost use Rattle.ts_check.specs.Checked.{read_as};
ghost use Rattle.ts_dump.specs.Held.{VolumeOpened};

use std::alloc::Global;
use ts_container::{SurveyFault, Surveyed, survey};
use ts_disk::Volume;
use ts_recover::{RecoverFault, recover};
use ts_store::{On, Store};

/// What a volume's journal puts over its pages, and what was found of these.
#[derive(Drop)]
pub(crate) struct Opened {
    pub(crate) store: Store,
    pub(crate) found: Surveyed,
}

/// Reads the journal and all pages of a volume; nothing is written, whatever is pending.
pub(crate) fn open<V: Volume>(alloc: Global, vol: &mut V) -> Result<Opened, SurveyFault>
    ensures { VolumeOpened V.tells result (V.device vol.old) (V.device vol.new) }
{
    match recover(alloc, vol) {
        Ok(replayed) => {
            let count = replayed.pages;
            let mut store = Store::new(alloc, replayed)?;
            let found = survey_over(alloc, &mut store, vol, count)?;
            Ok(Opened { store, found })
        }
        Err(fault) => Err(read_as(fault)),
    }
}

fn read_as(fault: RecoverFault) -> SurveyFault
    ensures { result ≡ read_as fault }
{
    match fault {
        RecoverFault::Failed => SurveyFault::Failed,
        RecoverFault::NotAStore { page } => SurveyFault::NotAStore { page },
        RecoverFault::Memory(error) => SurveyFault::Memory(error),
    }
}

// The survey of the pages of a store, of which none is put into its cache.
fn survey_over<V: Volume>(
    alloc: Global,
    store: &mut Store,
    vol: &mut V,
    count: u32,
) -> Result<Surveyed, SurveyFault>
    requires read { IsReadOver V.tells store.old (V.device vol.old) }
    requires count { count ≡ store.old.pages }
    ensures found { IfOk result
        (λ s. IsFound V.tells count
        (contents_over store.old (V.device vol.old)) s.defs.definitions s.space s.free.items) }
    ensures refused { IfErr result (λ e. IfRefused e (λ page. IsTrue V.tells
        → IsFirstBad count (read_pages store.old (V.device vol.old).held) page)) }
    ensures cause { IsErrOf result SurveyFault.Failed → Rose (V.device vol.old).faults (V.device vol.new).faults }
    ensures no_fault { ¬ IsErrOf result SurveyFault.Failed → (V.device vol.new).faults ≡ (V.device vol.old).faults }
    ensures undisturbed { Undisturbed V.tells store.old store.new (V.device vol.old) (V.device vol.new) }
{
    let mut on = On {
        store,
        vol,
        scan: true,
    };
    survey(alloc, &mut on, count)
}
