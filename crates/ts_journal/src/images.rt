// Images of pages by their numbers. Each has memory of its own, so none moves where another is put.
ghost use Rattle.std.specs.Prelude.{◌≡◌, ◌+◌, ◌≤◌, ◌<◌, ◌^◌, [], map, length, OnOk, OnErr, IsOk};
ghost use Rattle.std.specs.Option.{option_copied, unwrap_or};
ghost use Rattle.ts_journal.specs.declared.batch.Change.TheVariants.{Free};
ghost use Rattle.ts_journal.specs.Journal.{IsRising, IsWhole, IsBatch, change_of, put};
ghost use Rattle.ts_journal.specs.Place.{place_of, stands_at};
ghost use Rattle.ts_journal.specs.Stored.{entry_of, image_in, change_in, Sets};

use crate::batch::Change;
use std::alloc::{AllocError, Global};
use std::marker::Model;

type Stored = (u32, Box<Change>);

const FREE: Change = Change::Free;

/// In the order of their numbers, at most one for each.
#[derive(Drop)]
pub(crate) struct Images {
    items: Vec<Stored>,
}

impl Model for Images {
    ghost use Rattle.std.specs.Prelude.{◌-◌, map, vec_len, vec_capacity};
    ghost use Rattle.ts_journal.specs.Journal.{IsBatch};
    ghost use Rattle.ts_journal.specs.Stored.{Listed, entry_of};

    ghost Value = { Listed };

    ghost view = { λ m. record { entries = map entry_of m.items.items; spare = vec_capacity m.items - vec_len m.items } };

    ghost invariant = { λ m. IsBatch (map entry_of m.items.items) };
}

impl Images {
    pub(crate) fn new(alloc: Global) -> Images
        ensures { result.entries ≡ [] }
    {
        Images {
            items: Vec::new(alloc),
        }
    }

    /// The rules that they keep. Nothing is done.
    pub(crate) fn rules(&self)
        ensures { IsBatch self.now.entries }
    {
        let _ = &self.items;
    }

    /// What becomes of a page: its image, or else it is freed.
    pub(crate) fn change(&self, no: u32) -> &Change
        ensures is { result.now ≡ unwrap_or (change_of no self.now.entries) Free }
        ensures batch { IsBatch self.now.entries }
    {
        match self.find(no) {
            Some(image) => image,
            None => &FREE,
        }
    }

    fn find(&self, no: u32) -> Option<&Change>
        ensures is { option_copied result ≡ change_of no self.now.entries }
        ensures batch { IsBatch self.now.entries }
    {
        let place = place_in(&self.items, no);
        if is_at(&self.items, place, no) {
            Some(&self.items[place].1)
        } else {
            None
        }
    }

    /// Puts an image in its place, or drops the one that is there.
    pub(crate) fn set(&mut self, no: u32, image: Option<Box<Change>>) -> Result<(), AllocError>
        requires { IsWhole (change_in image) }
        ensures ok { OnOk result (Sets no (image_in image) self.old.entries self.new.entries) }
        ensures err { OnErr result (self.new.entries ≡ self.old.entries) }
        ensures memory { 1 ≤ self.old.spare → IsOk result }
        ensures spare { self.old.spare ≤ self.new.spare + 1 }
    {
        match image {
            Some(image) => self.put(no, image),
            None => {
                let _ = self.remove(no);
                Ok(())
            }
        }
    }

    fn put(&mut self, no: u32, image: Box<Change>) -> Result<(), AllocError>
        requires { IsWhole image.value }
        ensures ok { OnOk result (self.new.entries ≡ put no image.value self.old.entries) }
        ensures err { OnErr result (self.new.entries ≡ self.old.entries) }
        ensures memory { 1 ≤ self.old.spare → IsOk result }
        ensures spare { self.old.spare ≤ self.new.spare + 1 }
    {
        let place = place_in(&self.items, no);
        if is_at(&self.items, place, no) {
            self.items[place] = (no, image);
            return Ok(());
        }
        self.items.insert(place, (no, image))?;
        Ok(())
    }

    /// Takes an image out, if it is there.
    pub(crate) fn remove(&mut self, no: u32) -> Option<Box<Change>>
        ensures value { image_in result ≡ change_of no self.old.entries }
        ensures whole { IsWhole (change_in result) }
        ensures rest { Sets no None self.old.entries self.new.entries }
        ensures spare { self.old.spare ≤ self.new.spare }
    {
        let place = place_in(&self.items, no);
        if is_at(&self.items, place, no) {
            Some(self.items.remove(place).1)
        } else {
            None
        }
    }

    pub(crate) fn reserve(&mut self, more: usize) -> Result<(), AllocError>
        ensures ok { OnOk result (more ≤ self.new.spare) }
        ensures others { self.new.entries ≡ self.old.entries }
        ensures err { OnErr result (self.new.spare ≡ self.old.spare) }
        ensures spare { self.old.spare ≤ self.new.spare }
    {
        self.items.reserve(more)
    }

    /// Drops all of them and keeps the memory of their numbers.
    pub(crate) fn clear(&mut self)
        ensures ok { self.new.entries ≡ [] }
        ensures spare { self.old.spare ≤ self.new.spare }
    {
        self.items.clear();
    }
}

// How many entries have a lower number.
fn place_in(items: &[Stored], no: u32) -> usize
    requires { IsRising 0 (2 ^ 32) (map entry_of items.now) }
    ensures place { result ≡ place_of no (map entry_of items.now) }
    ensures within { result ≤ length items.now }
{
    let mut low = 0;
    let mut high = items.len();
    while low < high {
        let middle = low + (high - low) / 2;
        if items[middle].0 < no {
            low = middle + 1;
        } else {
            high = middle;
        }
    }
    low
}

fn is_at(items: &[Stored], place: usize, no: u32) -> bool
    ensures { result ≡ stands_at place no (map entry_of items.now) }
{
    place < items.len() && items[place].0 == no
}
