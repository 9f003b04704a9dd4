// A volume of the old format is put into the newest one.
ghost use Rattle.std.specs.Prelude.{◌≡◌, ◌+◌, ◌-◌, ◌≤◌, ℕ, None, Some, Ok, Err, length};
ghost use Rattle.ts_page.specs.Pages.{first_element_page, most_element_pages, image_entry_size};
ghost use Rattle.ts_store.specs.OpenBatch.{IsIdle, IsOver, contents_over};
ghost use Rattle.ts_store.specs.Undisturbed.{Undisturbed};
ghost use Rattle.ts_space.specs.Directory.{used_of};
ghost use Rattle.ts_model.specs.Catalogue.{newest_format};
ghost use Rattle.ts_layout.specs.Placed.{AreKept};
ghost use Rattle.ts_container.specs.Survey.{HeaderWritten};
ghost use Rattle.ts_engine.specs.Engine.{IsReady};
ghost use Rattle.ts_engine.specs.Migrate.{Migrated};
ghost use Rattle.ts_engine.specs.declared.fault.StepFault.TheVariants.{Closed};

use crate::engine::Engine;
use crate::fault::StepFault;
use ts_base::StoreFault;
use ts_container::put_header;
use ts_disk::Volume;
use ts_model::FORMAT;
use ts_page::Pages;
use ts_space::Space;
use ts_store::{On, Store};

impl Engine {
    /// Puts a volume of the old format into the newest one, by one record, where no transaction is open. A volume of
    /// the newest format stays as it is: no call is made on it.
    pub fn migrate<V: Volume>(&mut self, vol: &mut V) -> Result<(), StepFault>
        requires ready { self.old.spent ≡ None → IsReady V.tells self.old (V.device vol.old) }
        requires rests { self.old.saved ≡ None }
        ensures migrated { self.old.spent ≡ None → Migrated V.tells result self.old self.new (V.device vol.old)
            (V.device vol.new) }
        ensures idle { self.old.spent ≡ None → self.old.tables.definitions.format ≡ newest_format → (result ≡ Ok tt)
            × (self.new ≡ self.old) × (vol.new ≡ vol.old) }
        // An engine that the disk failed makes no call any more.
        ensures closed { (faults : ℕ) → self.old.spent ≡ Some faults → (result ≡ Err (Closed faults))
            × (self.new ≡ self.old) × (vol.new ≡ vol.old) }
    {
        if let Some(faults) = self.spent {
            return Err(StepFault::Closed { faults });
        }
        if self.defs.format() == FORMAT {
            return Ok(());
        }
        self.take_newest_format(vol)
    }

    // The same of a volume of the old format.
    fn take_newest_format<V: Volume>(&mut self, vol: &mut V) -> Result<(), StepFault>
        requires unspent { self.old.spent ≡ None }
        requires rests { self.old.saved ≡ None }
        requires ready { IsReady V.tells self.old (V.device vol.old) }
        ensures migrated { Migrated V.tells result self.old self.new (V.device vol.old) (V.device vol.new) }
    {
        let put = self.put_newest_format(vol);
        self.finish(vol, put)?;
        self.defs.set_format(FORMAT);
        Ok(())
    }

    // Puts the header of that format into the open batch.
    fn put_newest_format<V: Volume>(&mut self, vol: &mut V) -> Result<(), StoreFault>
        requires idle { IsIdle V.tells self.old.store (V.device vol.old) }
        requires kept { AreKept self.old.tables.definitions self.old.space self.old.store.free self.old.store.pages }
        ensures written { HeaderWritten V.tells newest_format (self.old.store.pages - first_element_page) result
            (contents_over self.old.store (V.device vol.old)) (contents_over self.new.store (V.device vol.new)) }
        ensures over { IsOver V.tells self.new.store (V.device vol.new) }
        ensures short { (contents_over self.new.store (V.device vol.new)).change_bytes ≤
            (contents_over self.old.store (V.device vol.old)).change_bytes + image_entry_size }
        ensures undisturbed { Undisturbed V.tells self.old.store self.new.store (V.device vol.old) (V.device vol.new) }
        ensures others { self.new ≡ record self.old { store = self.new.store } }
    {
        put_newest_format_over(&mut self.store, vol, &self.space)
    }
}

// The same over a store.
fn put_newest_format_over<V: Volume>(
    store: &mut Store,
    vol: &mut V,
    space: &Space,
) -> Result<(), StoreFault>
    requires idle { IsIdle V.tells store.old (V.device vol.old) }
    requires some { first_element_page + 1 ≤ store.old.pages }
    requires most { store.old.pages ≤ first_element_page + most_element_pages }
    requires all { length store.old.free + used_of space.now ≡ store.old.pages - first_element_page }
    ensures written { HeaderWritten V.tells newest_format (store.old.pages - first_element_page) result
        (contents_over store.old (V.device vol.old)) (contents_over store.new (V.device vol.new)) }
    ensures over { IsOver V.tells store.new (V.device vol.new) }
    ensures short { (contents_over store.new (V.device vol.new)).change_bytes ≤
        (contents_over store.old (V.device vol.old)).change_bytes + image_entry_size }
    ensures undisturbed { Undisturbed V.tells store.old store.new (V.device vol.old) (V.device vol.new) }
{
    let mut on = On {
        store,
        vol,
        scan: false,
    };
    let pages = on.spare() + space.used();
    put_header(&mut on, FORMAT, pages)
}
