// The numbers of pages, each once and in rising order.
ghost use Rattle.std.specs.Prelude.{◌≡◌, ◌+◌, ◌≤◌, ◌<◌, ◌^◌, [], Some, None, if◌then◌else◌, length, OnOk, OnErr, IsOk};
ghost use Rattle.std.specs.Prelude.{slice_index_or};
ghost use Rattle.ts_journal.specs.declared.batch.Change.TheVariants.{Free};
ghost use Rattle.ts_journal.specs.Journal.{Entry, IsRising, IsBatch, change_of, put};

use std::alloc::{AllocError, Global};
use std::marker::Model;

/// A number alone stands for a page that is freed.
#[derive(Drop)]
pub(crate) struct Numbers {
    items: Vec<u32>,
}

impl Model for Numbers {
    ghost use Rattle.std.specs.Prelude.{◌-◌, ◌^◌, map, vec_len, vec_capacity};
    ghost use Rattle.ts_journal.specs.Journal.{IsRising};
    ghost use Rattle.ts_journal.specs.Stored.{Listed, freed};

    ghost Value = { Listed };

    ghost view = { λ n. record { entries = map freed n.items.items; spare = vec_capacity n.items - vec_len n.items } };

    ghost invariant = { λ n. IsRising 0 (2 ^ 32) (map freed n.items.items) };
}

impl Numbers {
    pub(crate) fn new(alloc: Global) -> Numbers
        ensures { result.entries ≡ [] }
    {
        Numbers {
            items: Vec::new(alloc),
        }
    }

    pub(crate) fn len(&self) -> usize
        ensures { result ≡ length self.now.entries }
    {
        self.items.len()
    }

    pub(crate) fn at(&self, place: usize) -> u32
        requires { place < length self.now.entries }
        ensures is { (other : Entry) → (result, Free) ≡ slice_index_or self.now.entries place other }
        ensures batch { IsBatch self.now.entries }
    {
        self.items[place]
    }

    pub(crate) fn has(&self, no: u32) -> bool
        ensures { change_of no self.now.entries ≡ (if result then Some Free else None) }
    {
        self.items.binary_search(&no).is_ok()
    }

    /// The rules that they keep. Nothing is done.
    pub(crate) fn rules(&self)
        ensures { IsBatch self.now.entries }
    {
        let _ = &self.items;
    }

    /// Adds a number, unless it is there.
    pub(crate) fn add(&mut self, no: u32) -> Result<(), AllocError>
        ensures ok { OnOk result (self.new.entries ≡ put no Free self.old.entries) }
        ensures err { OnErr result (self.new.entries ≡ self.old.entries) }
        ensures missing { OnErr result (change_of no self.old.entries ≡ None) }
        ensures memory { 1 ≤ self.old.spare → IsOk result }
        ensures spare { self.old.spare ≤ self.new.spare + 1 }
        ensures rising { IsRising 0 (2 ^ 32) self.old.entries }
    {
        if let Err(place) = self.items.binary_search(&no) {
            self.items.insert(place, no)?;
        }
        Ok(())
    }

    pub(crate) fn reserve(&mut self, more: usize) -> Result<(), AllocError>
        ensures ok { OnOk result (more ≤ self.new.spare) }
        ensures others { self.new.entries ≡ self.old.entries }
        ensures err { OnErr result (self.new.spare ≡ self.old.spare) }
        ensures spare { self.old.spare ≤ self.new.spare }
    {
        self.items.reserve(more)
    }

    /// Drops all of them and keeps the memory.
    pub(crate) fn clear(&mut self)
        ensures ok { self.new.entries ≡ [] }
        ensures spare { self.old.spare + length self.old.entries ≤ self.new.spare }
    {
        self.items.clear();
    }
}
