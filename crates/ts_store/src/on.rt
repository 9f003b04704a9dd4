// A store over its volume, as a keeper of pages.
ghost use Rattle.std.specs.Prelude.{◌≡◌, ◌*◌, IsTrue};
ghost use Rattle.std.proofs.Props.{props};
ghost use Rattle.ts_page.specs.Pages.{page_size, IsLawful};
ghost use Rattle.ts_store.specs.OpenBatch.{AreInPlace, contents_over};

use crate::store::Store;
use ts_base::StoreFault;
use ts_disk::Volume;
use ts_journal::Change;
use ts_page::{PAGE, Page, Pages};

/// A store and the volume that it is of.
#[derive(Drop)]
pub struct On<'a, V: Volume> {
    pub store: &'a mut Store,
    pub vol: &'a mut V,
    /// Pages are read that nobody will soon ask for again: none of them is put into the cache.
    pub scan: bool,
    ghost size: { (V.device vol.now).size ≡ page_size * store.now.pages },
    ghost lawful: { IsLawful V.tells (contents_over store.now (V.device vol.now)) } by { Prim.hlevel props },
    ghost cached: { IsTrue V.tells → AreInPlace (V.device vol.now).held store.now.cache } by { Prim.hlevel props },
}

impl<'a, V: Volume> Pages for On<'a, V> {
    ghost use Rattle.std.specs.Prelude.{◌<◌, IsSome};
    ghost use Rattle.std.proofs.Common.{refl, ◌∙◌};
    ghost use Rattle.ts_page.specs.Pages.{Got};
    ghost use Rattle.ts_store.specs.OpenBatch.{in_memory, change_read, after_read};
    ghost use Rattle.ts_recover.proofs.CallerLemmas.{reads_none, reads_then};
    ghost use Rattle.ts_store.specs.Undisturbed.{Undisturbed};

    ghost tells = { V.tells };

    ghost contents = { λ on. contents_over on.store.now (V.device on.vol.now) };

    ghost undisturbed = { λ a b. (b.store.ghost_name ≡ a.store.ghost_name) × (b.vol.ghost_name ≡ a.vol.ghost_name)
        × Undisturbed V.tells a.store.now b.store.now (V.device a.vol.now) (V.device b.vol.now) };

    /// Reads a page. One of the open batch, the transaction, the overlay or the cache is read with no call on the
    /// volume; another one is then in the cache, but for a scan, or where there is no memory.
    fn get(&mut self, no: u32, into: &mut Page) -> Result<(), StoreFault>
        requires { no < self.old.store.now.pages }
        ensures got { Got V.tells no into.new.bytes result
            (contents_over self.old.store.now (V.device self.old.vol.now))
            (contents_over self.new.store.now (V.device self.new.vol.now)) }
        ensures undisturbed { (self.new.store.ghost_name ≡ self.old.store.ghost_name)
            × (self.new.vol.ghost_name ≡ self.old.vol.ghost_name)
            × Undisturbed V.tells self.old.store.now self.new.store.now
            (V.device self.old.vol.now) (V.device self.new.vol.now) }
        ensures kept { IsSome (in_memory no self.old.store.now) → self.new.vol.now ≡ self.old.vol.now }
        ensures scan { IsTrue self.old.scan
            → self.new.store.now.cache ≡ after_read (change_read no self.old.store.now) no self.old.store.now.cache }
    {
        if self.store.read(no, into) {
            return Ok(());
        }
        let read = self.vol.read_at(PAGE * no as u64, &mut into.bytes);
        if read.is_err() {
            return Err(StoreFault::Failed);
        }
        self.store.keep_read(no, into, self.scan);
        Ok(())
    }

    fn put(&mut self, no: u32, page: &Page) -> Result<(), StoreFault> {
        // An image has as many bytes as a page, and so has each of the open batch.
        let _bytes: &[u8] = &page.bytes;
        self.store.rules();
        self.store.set(no, Change::Image(*page))?;
        Ok(())
    }

    fn free(&mut self, no: u32) -> Result<(), StoreFault> {
        self.store.free(no)?;
        Ok(())
    }

    fn spare(&self) -> u32 {
        self.store.spare() as u32
    }

    fn take(&mut self) -> u32 {
        self.store.take()
    }

    ghost lawful = { λ on. on.lawful };

    ghost stays = { λ on. (
      refl,
      refl,
      record {
        pages = refl;
        journal = refl;
        overlay = refl;
        transaction = refl;
        kept_free = refl;
        base_free = refl;
        reads = reads_none V.tells (V.device on.vol.now) (V.lawful on.vol.now);
        cached = λ told now. now;
      },
    ) };

    ghost then = { λ a b c p q. (
      q.0 ∙ p.0,
      q.1 ∙ p.1,
      record {
        pages = q.2.pages ∙ p.2.pages;
        journal = q.2.journal ∙ p.2.journal;
        overlay = q.2.overlay ∙ p.2.overlay;
        transaction = q.2.transaction ∙ p.2.transaction;
        kept_free = q.2.kept_free ∙ p.2.kept_free;
        base_free = q.2.base_free ∙ p.2.base_free;
        reads = reads_then V.tells (V.device a.vol.now) (V.device b.vol.now) (V.device c.vol.now) p.2.reads q.2.reads;
        cached = λ told now. q.2.cached told (p.2.cached told now);
      },
    ) };
}
