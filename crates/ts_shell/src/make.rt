// A new store: its header, in the newest format, and zeros behind it.
ghost use Rattle.std.specs.Prelude.{◌≡◌, ◌+◌, ◌*◌, ◌≤◌, ◌<◌, IsTrue, IsErr, OnOk};
ghost use Rattle.ts_disk.specs.Device.{Only, Rose};
ghost use Rattle.ts_model.specs.Catalogue.{empty_catalogue, newest_format};
ghost use Rattle.ts_page.specs.Pages.{page_size, first_element_page};
ghost use Rattle.ts_volume.specs.Volume.{MeansCatalogue};
ghost use Rattle.ts_shell.specs.Making.{EmptyFrom};

use ts_container::write_header;
use ts_disk::{Failed, Volume};
use ts_model::FORMAT;
use ts_page::{FIRST_ELEMENT_PAGE, PAGE, Page};

/// Makes an empty store with so many element pages.
pub(crate) fn make<V: Volume>(vol: &mut V, pages: u32) -> Result<(), Failed>
    requires empty { (V.device vol.old).size ≡ 0 }
    requires some { 1 ≤ pages }
    requires limit { pages ≤ 65536 }
    ensures means { OnOk result (IsTrue V.tells
        → MeansCatalogue (V.device vol.new).held (empty_catalogue newest_format pages)) }
    ensures size { OnOk result ((V.device vol.new).size ≡ page_size * (first_element_page + pages)) }
    ensures durable { OnOk result (Only (V.device vol.new).held (V.device vol.new).images) }
    ensures said { (V.device vol.new).said ≡ (V.device vol.old).said }
    // Where a sync answered Ok, two calls had answered Ok by then.
    ensures moments { IsTrue V.tells → (V.device vol.old).syncs < (V.device vol.new).syncs
        → EmptyFrom pages ((V.device vol.old).clock + 2) (V.device vol.old) (V.device vol.new) }
    ensures no_fault { OnOk result ((V.device vol.new).faults ≡ (V.device vol.old).faults) }
    ensures say_faults { (V.device vol.new).say_faults ≡ (V.device vol.old).say_faults }
    ensures cause { IsErr result → Rose (V.device vol.old).faults (V.device vol.new).faults }
{
    vol.resize(PAGE * (FIRST_ELEMENT_PAGE as u64 + pages as u64))?;
    vol.sync()?;
    let mut header = Page::zero();
    write_header(FORMAT, pages, &mut header);
    vol.write_at(0, &header.bytes)?;
    vol.sync()?;
    Ok(())
}
