// The old images of the pages that a commit will change are kept in every open view.
ghost use Rattle.std.specs.Prelude.{◌≡◌, ◌<◌, ◌*◌, OnOk, IsErrOf};
ghost use Rattle.ts_base.specs.declared.fault.StoreFault.TheVariants.{Failed as StoreFailed};
ghost use Rattle.ts_disk.specs.Device.{Rose};
ghost use Rattle.ts_page.specs.Pages.{page_size, IsOutsideJournal};
ghost use Rattle.ts_journal.specs.Moment.{OnlyReads};
ghost use Rattle.ts_store.specs.OpenBatch.{committed_pages};
ghost use Rattle.ts_views.specs.View.{HasImage, OfEachOpen};
ghost use Rattle.ts_session_engine.specs.Beside.{AllHaveMore, AreCovered, AreStillCovered};

use ts_base::StoreFault;
use ts_disk::Volume;
use ts_page::Page;
use ts_store::Store;
use ts_views::Views;

/// Keeps the image of each page that a commit of the transaction and the open batch will change, as it was committed
/// last, in every open view that has none. Store and volume are only read.
pub(crate) fn keep_old<V: Volume>(
    store: &Store,
    vol: &mut V,
    views: &mut Views,
) -> Result<(), StoreFault>
    requires size { (V.device vol.old).size ≡ page_size * store.now.pages }
    ensures more { AllHaveMore V.tells (committed_pages store.now (V.device vol.old).held) views.old views.new }
    ensures covered { OnOk result (AreCovered store.now views.new) }
    ensures reads { OnlyReads V.tells (V.device vol.old) (V.device vol.new) }
    ensures cause { IsErrOf result StoreFailed → Rose (V.device vol.old).faults (V.device vol.new).faults }
    ensures no_fault { ¬ IsErrOf result StoreFailed → (V.device vol.new).faults ≡ (V.device vol.old).faults }
{
    for place in 0..store.changes() {
        keep_page(store, vol, views, store.changed_page(place))?;
    }
    Ok(())
}

// The same of one page.
fn keep_page<V: Volume>(
    store: &Store,
    vol: &mut V,
    views: &mut Views,
    no: u32,
) -> Result<(), StoreFault>
    requires size { (V.device vol.old).size ≡ page_size * store.now.pages }
    requires within { no < store.now.pages }
    requires outside { IsOutsideJournal no }
    ensures more { AllHaveMore V.tells (committed_pages store.now (V.device vol.old).held) views.old views.new }
    ensures covered { OnOk result (OfEachOpen (HasImage no) views.new) }
    ensures still { OnOk result (AreStillCovered views.old views.new) }
    ensures reads { OnlyReads V.tells (V.device vol.old) (V.device vol.new) }
    ensures cause { IsErrOf result StoreFailed → Rose (V.device vol.old).faults (V.device vol.new).faults }
    ensures no_fault { ¬ IsErrOf result StoreFailed → (V.device vol.new).faults ≡ (V.device vol.old).faults }
{
    if !views.lacks(no) {
        return Ok(());
    }
    let mut page = Page::zero();
    let read = store.committed(vol, no, &mut page);
    if read.is_err() {
        return Err(StoreFault::Failed);
    }
    views.keep(no, &page)?;
    Ok(())
}
