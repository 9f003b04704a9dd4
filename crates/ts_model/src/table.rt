// One kind's definitions in their slots. The numbers of the filled slots are kept in the order of their names, so
// that a name is found by a binary search; and so is the lowest empty slot.
ghost use Rattle.std.specs.Prelude.{◌≡◌, ◌+◌, ◌-◌, ◌++◌, ◌<◌, ◌≤◌, ◌⊎◌, vec_capacity, true, false, length, replicate};
ghost use Rattle.std.specs.Prelude.{slice_set, Some, None, OnOk, OnErr, IsOk, IsSome, IfSome, IfOk, EachIndex};
ghost use Rattle.std.specs.Prelude.{slice_index, ℕ, option_copied, option_map};
ghost use Rattle.std.specs.FinMap.{values, entries};
ghost use Rattle.ts_model.specs.Definitions.{name_of, at_slot, slot_of, vacant_slot, slots_by_name, IsNewName, IsTable};
ghost use Rattle.ts_model.specs.Table.{padded, place_of, stands_at, lower, slot_behind, AreApart};

use crate::Def;
use std::alloc::{AllocError, Global};
use std::cmp::Ordering;
use std::marker::Model;

#[derive(Drop)]
pub(crate) struct Table {
    count: u16,
    // Whether memory was taken for all slots.
    room: bool,
    // The first slots; those behind them are empty.
    slots: Vec<Option<Def>>,
    order: Vec<u16>,
    vacant: Option<u16>,
}

impl Model for Table {
    ghost use Rattle.std.specs.Prelude.{vec_capacity};
    ghost use Rattle.ts_model.specs.Table.{Slots, padded, IsHeld};

    ghost Value = { Slots };

    ghost view = { λ t. record { count = t.count; slots = padded t.count t.slots.items; room = t.room } };

    ghost invariant = { λ t. IsHeld t.count t.slots.items t.order.items t.vacant t.room (vec_capacity t.slots)
        (vec_capacity t.order) };
}

impl Table {
    /// Empty slots, for which there is no memory yet.
    pub(crate) fn new(alloc: Global, count: u16) -> Table
        requires some { 0 < count }
        requires most { count ≤ 4096 }
        ensures { result ≡ record { count = count; slots = replicate count None; room = false } }
    {
        Table {
            count,
            room: false,
            slots: Vec::new(alloc),
            order: Vec::new(alloc),
            vacant: Some(0),
        }
    }

    /// The slot that has this name.
    pub(crate) fn find(&self, name: &[u8]) -> Option<u16>
        ensures value { result ≡ slot_of name.now self.now.slots }
        ensures within { IfSome result (λ slot. slot < self.now.count) }
    {
        let slots = self.slots.as_slice();
        let order = self.order.as_slice();
        let place = place_in(slots, order, name);
        if is_at(slots, order, place, name) {
            Some(order[place])
        } else {
            None
        }
    }

    /// What stands in a slot.
    pub(crate) fn get(&self, slot: u16) -> Option<&Def>
        ensures { option_copied result ≡ at_slot slot self.now.slots }
    {
        match self.slots.get(slot as usize) {
            Some(Some(def)) => Some(def),
            _ => None,
        }
    }

    /// The lowest empty slot.
    pub(crate) fn vacant(&self) -> Option<u16>
        ensures value { result ≡ vacant_slot self.now.slots }
        ensures within { IfSome result (λ slot. slot < self.now.count) }
    {
        self.vacant
    }

    /// The filled slots in the order of their names.
    pub(crate) fn in_order(&self) -> &[u16]
        ensures value { result.now ≡ values (slots_by_name self.now.slots) }
        ensures filled { EachIndex result.now (λ k. IsSome (at_slot (slice_index result.now k) self.now.slots)) }
        ensures within { EachIndex result.now (λ k. slice_index result.now k < self.now.count) }
        ensures rules { IsTable name_of self.now.count self.now.slots }
    {
        self.order.as_slice()
    }

    /// Takes memory for all slots.
    pub(crate) fn reserve(&mut self) -> Result<(), AllocError>
        ensures ok { OnOk result (self.new.room ≡ true) }
        ensures err { OnErr result (self.new.room ≡ self.old.room) }
        ensures memory { self.old.room ≡ true → IsOk result }
        ensures others { (self.new.slots ≡ self.old.slots) × (self.new.count ≡ self.old.count) }
    {
        if self.room {
            return Ok(());
        }
        let count = self.count as usize;
        self.order.reserve(count)?;
        self.slots.reserve(count)?;
        self.room = true;
        Ok(())
    }

    /// The same slots anew, with the same room. Where there is none it takes no memory; it takes no
    /// more time than there are slots up to the last that was filled.
    pub(crate) fn copy(&self) -> Result<Table, AllocError>
        ensures { IfOk result (λ made. made ≡ self.now) }
    {
        let alloc = *self.slots.allocator();
        let size = memory_for(self.room, self.count);
        let slots = copied(alloc, self.slots.as_slice(), size)?;
        let mut order = Vec::with_capacity(alloc, size)?;
        order.extend_from_slice(self.order.as_slice())?;
        Ok(Table {
            count: self.count,
            room: self.room,
            slots,
            order,
            vacant: self.vacant,
        })
    }

    /// Fills a slot with a definition, or empties it.
    pub(crate) fn set(&mut self, slot: u16, def: Option<Def>)
        requires slot { slot < self.old.count }
        requires name { IfSome def (λ d. IsNewName (name_of d) slot self.old.slots) }
        requires room { IsSome def → (self.old.room ≡ true) ⊎ IsSome (at_slot slot self.old.slots) }
        ensures { self.new ≡ record self.old { slots = slice_set self.old.slots slot def } }
    {
        self.clear(slot);
        if let Some(def) = def {
            self.fill(slot, def);
        }
    }

    // Empties a slot.
    fn clear(&mut self, slot: u16)
        requires { slot < self.old.count }
        ensures slot { self.new ≡ record self.old { slots = slice_set self.old.slots slot None } }
        ensures apart { AreApart self.old.slots }
        ensures room { IsSome (at_slot slot self.old.slots) → self.old.room ≡ true }
    {
        let Some(def) = self.get(slot) else {
            return;
        };
        let place = place_in(self.slots.as_slice(), self.order.as_slice(), def.name());
        self.order.remove(place);
        self.slots[slot as usize] = None;
        self.vacant = Some(lower(self.vacant, slot));
    }

    // Fills an empty slot.
    fn fill(&mut self, slot: u16, def: Def)
        requires slot { slot < self.old.count }
        requires empty { at_slot slot self.old.slots ≡ None }
        requires name { slot_of (name_of def) self.old.slots ≡ None }
        requires room { self.old.room ≡ true }
        ensures { self.new ≡ record self.old { slots = slice_set self.old.slots slot (Some def) } }
    {
        extend(&mut self.slots, slot as usize);
        let place = place_in(self.slots.as_slice(), self.order.as_slice(), def.name());
        let Ok(()) = self.order.insert(place, slot) else {
            unreachable!()
        };
        self.slots[slot as usize] = Some(def);
        if self.vacant == Some(slot) {
            self.vacant = vacant_behind(self.slots.as_slice(), slot, self.count);
        }
    }
}

// How many of the filled slots have a lower name.
fn place_in(slots: &[Option<Def>], order: &[u16], name: &[u8]) -> usize
    requires index { order.now ≡ values (slots_by_name slots.now) }
    ensures place { result ≡ place_of name.now (entries (slots_by_name slots.now)) }
    ensures within { result ≤ length order.now }
{
    let mut low = 0;
    let mut high = order.len();
    while low < high {
        let middle = low + (high - low) / 2;
        match name.cmp(name_in(slots, order[middle])) {
            Ordering::Greater => low = middle + 1,
            Ordering::Less | Ordering::Equal => high = middle,
        }
    }
    low
}

// Whether the slot at this place has the name.
fn is_at(slots: &[Option<Def>], order: &[u16], place: usize, name: &[u8]) -> bool
    requires index { order.now ≡ values (slots_by_name slots.now) }
    ensures { result ≡ stands_at place name.now (entries (slots_by_name slots.now)) }
{
    place < order.len() && name == name_in(slots, order[place])
}

// The name in a filled slot.
fn name_in(slots: &[Option<Def>], slot: u16) -> &[u8]
    requires { IsSome (at_slot slot slots.now) }
    ensures { Some result.now ≡ option_map name_of (at_slot slot slots.now) }
{
    let Some(def) = &slots[slot as usize] else {
        unreachable!()
    };
    def.name()
}

// The lower of the two slots.
fn lower(vacant: Option<u16>, slot: u16) -> u16
    ensures { result ≡ lower vacant slot }
{
    match vacant {
        Some(lowest) => lowest.min(slot),
        None => slot,
    }
}

// The lowest empty slot of so many, of which these are the first, where those up to this one are filled.
fn vacant_behind(slots: &[Option<Def>], slot: u16, count: u16) -> Option<u16>
    requires within { slot < length slots.now }
    requires most { length slots.now ≤ count }
    requires filled { (i : ℕ) → i ≤ slot → IsSome (at_slot i slots.now) }
    ensures { result ≡ vacant_slot (padded count slots.now) }
{
    let first = slot as usize + 1;
    let len = slots.len();
    match first_empty(&slots[first..]) {
        Some(more) => Some((first + more) as u16),
        None => slot_behind(len, count),
    }
}

// The slot behind so many of all slots.
fn slot_behind(len: usize, count: u16) -> Option<u16>
    ensures { result ≡ slot_behind len count }
{
    if len < count as usize {
        Some(len as u16)
    } else {
        None
    }
}

// The number of the first empty slot.
fn first_empty(slots: &[Option<Def>]) -> Option<usize>
    ensures value { result ≡ vacant_slot slots.now }
    ensures within { IfSome result (λ n. n < length slots.now) }
{
    slots.iter().position(|kept| kept.is_none())
}

// For how many slots a table with or without room takes memory.
fn memory_for(room: bool, count: u16) -> usize
    ensures { room ≡ true → count ≤ result }
{
    if room { count as usize } else { 0 }
}

// Has empty slots up to this one. There is room for them.
fn extend(slots: &mut Vec<Option<Def>>, slot: usize)
    requires small { slot < 4096 }
    requires room { slot < vec_capacity slots.old }
    ensures within { slot < length slots.new.items }
    ensures empty { slots.new.items ≡ slots.old.items ++ replicate (slot + 1 - length slots.old.items) None }
    ensures room { vec_capacity slots.old ≤ vec_capacity slots.new }
{
    for _ in slots.len()..slot + 1 {
        let Ok(()) = slots.push(None) else {
            unreachable!()
        };
    }
}

// Slots with copies of their definitions, with room for so many.
fn copied(alloc: Global, slots: &[Option<Def>], room: usize) -> Result<Vec<Option<Def>>, AllocError>
    ensures slots { IfOk result (λ made. made.items ≡ slots.now) }
    ensures room { IfOk result (λ made. room ≤ vec_capacity made) }
{
    let mut made = Vec::with_capacity(alloc, room)?;
    for slot in slots {
        let copy = copied_slot(slot)?;
        made.push(copy)?;
    }
    Ok(made)
}

// A copy of what stands in a slot.
fn copied_slot(slot: &Option<Def>) -> Result<Option<Def>, AllocError>
    ensures { IfOk result (λ made. made ≡ slot.now) }
{
    match slot {
        Some(def) => {
            let copy = def.copy()?;
            Ok(Some(copy))
        }
        None => Ok(None),
    }
}
