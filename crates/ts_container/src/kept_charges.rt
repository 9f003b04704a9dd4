// What each container is charged, kept as a sum, so that no edit of an element goes over the slots.
ghost use Rattle.std.specs.Prelude.{◌≡◌, ◌≢◌, ◌+◌, ◌≤◌, ◌<◌, ◌^◌, ℕ, List, Some, IfOk, length, replicate, slice_index};
ghost use Rattle.ts_row.specs.Row.{Heading};
ghost use Rattle.ts_space.specs.Directory.{Directory, places_of};
ghost use Rattle.ts_cells.specs.IrregularPage.{page_room};
ghost use Rattle.ts_model.specs.Definitions.{Definitions, SeriesDef, container_slots, series_slots, at_slot};
ghost use Rattle.ts_model.specs.Definitions.{with_format, IsDefinitions};
ghost use Rattle.ts_layout.specs.Meaning.{KeepLimits, heading_in};
ghost use Rattle.ts_layout.specs.Charges.{IsCountable, AreCountable, places_charge};
ghost use Rattle.ts_container.specs.KeptCharges.{AreCharges, IsCharged, charged_to, with_charge};

use crate::charges::charge_of_places;
use crate::content::row_type_in;
use std::alloc::{AllocError, Global};
use std::marker::Model;
use ts_cells::page_room;
use ts_model::{Def, Defs, Kind};
use ts_space::Space;

const SLOTS: usize = 64;

/// For each slot of a container what it is charged.
#[derive(Drop)]
pub struct Charges {
    sums: Vec<u64>,
}

impl Model for Charges {
    ghost use Rattle.std.specs.Prelude.{◌≡◌, ℕ, List, length};
    ghost use Rattle.ts_model.specs.Definitions.{container_slots};

    ghost Value = { List ℕ };

    ghost view = { λ c. c.sums.items };

    ghost invariant = { λ c. length c.sums.items ≡ container_slots };
}

impl Charges {
    /// Nothing is charged to any container.
    pub fn new(alloc: Global) -> Result<Charges, AllocError>
        ensures { IfOk result (λ charges. charges ≡ replicate container_slots 0) }
    {
        let mut sums = Vec::with_capacity(alloc, SLOTS)?;
        for _slot in 0..SLOTS {
            sums.push(0)?;
        }
        Ok(Charges { sums })
    }

    /// What the container in a slot is charged.
    pub fn of(&self, slot: u8) -> u64
        requires { slot < container_slots }
        ensures ok { result ≡ slice_index self.now slot }
        ensures slots { length self.now ≡ container_slots }
    {
        self.sums[slot as usize]
    }

    /// Counts anew what every container is charged, as is needed where a definition comes or goes: each series is read
    /// once. It takes no memory.
    pub fn count(&mut self, defs: &Defs, space: &Space)
        requires limits { KeepLimits defs.now.definitions }
        requires rules { IsDefinitions defs.now.definitions }
        requires countable { AreCountable space.now }
        ensures { AreCharges self.new defs.now.definitions space.now }
    {
        self.clear();
        for slot in defs.in_order(Kind::Series) {
            self.add(defs, space, *slot);
        }
    }

    /// The places of one series of a container change: what the series cost, and what it costs then.
    pub fn change(&mut self, slot: u8, old: u64, new: u64)
        requires slot { slot < container_slots }
        requires part { old ≤ slice_index self.old slot }
        requires fits { slice_index self.old slot + new < 2 ^ 64 }
        ensures { self.new ≡ with_charge slot old new self.old }
    {
        let sum = self.sums[slot as usize];
        self.sums[slot as usize] = sum + new - old;
    }

    // Nothing is charged to any container any more.
    fn clear(&mut self)
        ensures { (container : ℕ) → slice_index self.new container ≡ 0 }
    {
        for container in 0..SLOTS {
            self.sums[container] = 0;
        }
    }

    // Adds what the series in a slot is charged to the sum of its container.
    fn add(&mut self, defs: &Defs, space: &Space, slot: u16)
        requires slot { slot < series_slots }
        requires limits { KeepLimits defs.now.definitions }
        requires countable { IsCountable (places_of slot space.now) }
        requires room { (container : ℕ) → slice_index self.old container < 2 ^ 63 }
        ensures added { (container : ℕ) → container < container_slots → slice_index self.new container
            ≡ slice_index self.old container + charged_to defs.now.definitions space.now container slot }
        ensures bound { (container : ℕ) → slice_index self.new container ≤ slice_index self.old container + 2 ^ 33 }
    {
        let Some(
            Def::Series {
                container,
                regular,
                ..
            },
        ) = defs.get(Kind::Series, slot)
        else {
            return;
        };
        let Some(kind) = row_type_in(defs, *container) else {
            return;
        };
        let charge = charge_of_places(space, *regular, slot, page_room(kind));
        let sum = self.sums[*container as usize];
        self.sums[*container as usize] = sum + charge;
    }
}

/// Where the places of one series change, the charge of its container changes with them, and no other does.
pub fn a_charge_changes_with_a_series()
    ensures part { (d : Definitions) (space : Directory) (slot : ℕ) (s : SeriesDef) (h : Heading) (sums : List ℕ) →
        IsDefinitions d → at_slot slot d.series ≡ Some s → s.container < container_slots → heading_in d s.container
        ≡ Some h → AreCharges sums d space →
        places_charge (page_room h.columns) s.regular (places_of slot space) ≤ slice_index sums s.container }
    ensures changed { (d : Definitions) (space space' : Directory) (slot : ℕ) (s : SeriesDef) (h : Heading)
        (sums : List ℕ) →
        IsDefinitions d → at_slot slot d.series ≡ Some s → s.container < container_slots → heading_in d s.container
        ≡ Some h → length sums ≡ container_slots →
        ((t : ℕ) → t < series_slots → t ≢ slot → places_of t space' ≡ places_of t space) → AreCharges sums d space →
        AreCharges (with_charge s.container (places_charge (page_room h.columns) s.regular (places_of slot space))
        (places_charge (page_room h.columns) s.regular (places_of slot space')) sums) d space' }
{}

/// Another format changes no charge.
pub fn charges_are_the_same_in_every_format()
    ensures { (format : ℕ) (d : Definitions) (space : Directory) (sums : List ℕ) → IsCharged sums d space →
        IsCharged sums (with_format format d) space }
{}
