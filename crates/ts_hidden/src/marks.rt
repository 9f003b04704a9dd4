// The keys of series that may have hidden elements.
ghost use Rattle.std.specs.Prelude.{◌≡◌, ◌<◌, true, false, Some, IfOk, OnOk, slice_index_or};
ghost use Rattle.ts_model.specs.Definitions.{SeriesDef, at_slot, series_slots};
ghost use Rattle.ts_hidden.specs.Marks.{is_marked, Include, IsNoted, IsNowhere, IsUnmarked, AreOfSlots};

use std::alloc::{AllocError, Global};
use std::collections::BTreeSet;
use std::marker::Model;
use ts_base::Key;
use ts_command::Command;
use ts_layout::names_stand_in_slots;
use ts_model::{Def, Defs, Kind};

/// The keys of series that may have hidden elements, as bytes in order.
#[derive(Drop)]
pub struct Marks {
    alloc: Global,
    keys: BTreeSet<Vec<u8>>,
}

impl Model for Marks {
    ghost use Rattle.std.specs.Prelude.{ℕ, List, map};

    ghost Value = { List (List ℕ) };

    ghost view = { λ m. map (λ key. key.items) m.keys.keys };
}

impl Marks {
    /// The series in the slots that have a mark.
    pub fn of_slots(alloc: Global, defs: &Defs, slots: &[bool]) -> Result<Marks, AllocError>
        ensures { IfOk result (AreOfSlots defs.now.definitions slots.now) }
    {
        let mut marks = Marks {
            alloc,
            keys: BTreeSet::new(alloc),
        };
        for slot in 0..Kind::Series.limit() {
            if has_mark(slots, slot) {
                marks.mark_slot(defs, slot)?;
            }
        }
        Ok(marks)
    }

    /// Whether a series is marked.
    pub fn has(&self, key: &Key) -> bool
        ensures { result ≡ is_marked key.now self.now }
    {
        self.keys.contains(key.as_slice())
    }

    /// Marks a series.
    pub fn mark(&mut self, key: &Key) -> Result<(), AllocError>
        ensures marked { OnOk result (is_marked key.now self.new ≡ true) }
        ensures more { Include self.new self.old }
    {
        if self.has(key) {
            return Ok(());
        }
        let key = Vec::from_slice(self.alloc, key.as_slice())?;
        self.keys.insert(key)?;
        Ok(())
    }

    /// Marks the series of which a command hides an element, where there is such a series.
    pub fn note(&mut self, command: &Command, defs: &Defs) -> Result<(), AllocError>
        ensures noted { OnOk result (IsNoted command.now defs.now.definitions self.new) }
        ensures more { Include self.new self.old }
    {
        match command {
            Command::HideElem { key, .. } => self.mark_named(key, defs),
            _ => Ok(()),
        }
    }

    /// Whether a command counts the entries of a series that isn't marked.
    pub fn has_unmarked(&self, command: &Command) -> bool
        ensures { IsUnmarked result command.now self.now }
    {
        match command {
            Command::GetNthElem { key, .. } | Command::ClipGetCount { key, .. } => !self.has(key),
            _ => false,
        }
    }

    // Marks a series if it is there: so there are no more marks than keys that series have had.
    fn mark_named(&mut self, key: &Key, defs: &Defs) -> Result<(), AllocError>
        ensures marked { OnOk result (is_marked key.now self.new ≡ false → IsNowhere key.now defs.now.definitions) }
        ensures more { Include self.new self.old }
    {
        // A series has its key in a slot.
        names_stand_in_slots();
        if defs.find(Kind::Series, key.as_slice()).is_none() {
            return Ok(());
        }
        self.mark(key)
    }

    // Marks the series in a slot.
    fn mark_slot(&mut self, defs: &Defs, slot: u16) -> Result<(), AllocError>
        requires slot { slot < series_slots }
        ensures marked { OnOk result ((s : SeriesDef) → at_slot slot defs.now.definitions.series ≡ Some s
            → is_marked s.key self.new ≡ true) }
        ensures more { Include self.new self.old }
    {
        let Some(Def::Series { key, .. }) = defs.get(Kind::Series, slot) else {
            return Ok(());
        };
        self.mark(key)
    }
}

// Whether a slot has a mark; those behind the last one have.
fn has_mark(slots: &[bool], slot: u16) -> bool
    ensures { result ≡ slice_index_or slots.now slot true }
{
    match slots.get(slot as usize) {
        Some(mark) => *mark,
        None => true,
    }
}
