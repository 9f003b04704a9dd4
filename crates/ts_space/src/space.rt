// The directory.
ghost use Rattle.std.specs.Prelude.{◌≡◌, ◌+◌, ◌-◌, ◌^◌, ◌<◌, ◌≤◌, [], None, length, map, replicate, IfOk, OnOk, OnErr};
ghost use Rattle.std.specs.Prelude.{vec_len, vec_capacity};
ghost use Rattle.ts_space.specs.Place.{IsRising, place_at, put_place, drop_place, count_of};
ghost use Rattle.ts_space.specs.Moved.{moved_to};
ghost use Rattle.ts_space.specs.Directory.{Directory, places_of, spare_of, capacity_of, used_of, ChangesOnly, HasGrown};

use crate::moved::{Moved, exchange};
use crate::place::{Place, counted, drop_at, put};
use std::alloc::{AllocError, Global};
use std::marker::Model;

const SLOTS: usize = 4096;

/// For each slot of a series the list of its places, rising in `at`.
#[derive(Drop)]
pub struct Space {
    alloc: Global,
    /// The lists of the first slots; those behind them have no places. There is room for all.
    lists: Vec<Vec<Place>>,
    /// How many elements each of these lists has by its places: kept with each change, so that no
    /// walk counts them.
    counts: Vec<u64>,
    /// How many places all lists have together.
    used: u128,
}

impl Model for Space {
    ghost use Rattle.std.specs.Prelude.{◌-◌, [], map, vec_len, vec_capacity};
    ghost use Rattle.ts_space.specs.Directory.{Directory, IsRoomy, padded};

    ghost Value = { Directory };

    ghost view = { λ s. record {
      lists = padded [] (map (λ list. list.items) s.lists.items);
      spares =
          padded 0 (map (λ list. vec_capacity list - vec_len list) s.lists.items);
    } };

    ghost invariant = { λ s. IsRoomy (map (λ list. list.items) s.lists.items) s.counts.items s.used (vec_capacity s.lists)
        (vec_capacity s.counts) };
}

impl Space {
    /// A directory without places.
    pub fn new(alloc: Global) -> Result<Space, AllocError>
        ensures ok { IfOk result (λ space. space.lists ≡ replicate 4096 []) }
        ensures used { IfOk result (λ space. used_of space ≡ 0) }
    {
        let lists = Vec::with_capacity(alloc, SLOTS)?;
        let counts = Vec::with_capacity(alloc, SLOTS)?;
        Ok(Space {
            alloc,
            lists,
            counts,
            used: 0,
        })
    }

    /// The same places anew: a list takes room for its places alone, and one without places none. It
    /// takes no more time than there are slots up to the last that had places.
    pub fn copy(&self) -> Result<Space, AllocError>
        ensures { IfOk result (λ made. made.lists ≡ self.now.lists) }
    {
        let alloc = self.alloc;
        let mut lists = Vec::with_capacity(alloc, SLOTS)?;
        for list in &self.lists {
            let places = Vec::from_slice(alloc, list)?;
            lists.push(places)?;
        }
        let mut counts = Vec::with_capacity(alloc, SLOTS)?;
        counts.extend_from_slice(&self.counts)?;
        Ok(Space {
            alloc,
            lists,
            counts,
            used: self.used,
        })
    }

    /// The places of a series, rising in `at`.
    pub fn places(&self, series: u16) -> &[Place]
        requires { series < 4096 }
        ensures ok { result.now ≡ places_of series self.now }
        ensures rising { IsRising result.now }
        ensures slots { length self.now.lists ≡ 4096 }
    {
        let slot = series as usize;
        if slot < self.lists.len() {
            &self.lists[slot]
        } else {
            &[]
        }
    }

    /// Takes memory for so many places more of a series.
    pub fn reserve(&mut self, series: u16, more: usize) -> Result<(), AllocError>
        requires { series < 4096 }
        ensures ok { OnOk result (more ≤ spare_of series self.new) }
        ensures err { OnErr result (self.new ≡ self.old) }
        ensures places { self.new.lists ≡ self.old.lists }
        ensures spare { spare_of series self.old ≤ spare_of series self.new }
        ensures others { ChangesOnly series self.old self.new }
    {
        let slot = series as usize;
        grow(self.alloc, &mut self.lists, &mut self.counts, slot);
        self.lists[slot].reserve(more)
    }

    /// Sets a place of a series, in place of the one that begins there.
    pub fn set(&mut self, series: u16, place: Place)
        requires slot { series < 4096 }
        requires room { place_at place.at (places_of series self.old) ≡ None → 1 ≤ spare_of series self.old }
        ensures ok { places_of series self.new ≡ put_place place (places_of series self.old) }
        ensures others { ChangesOnly series self.old self.new }
        ensures memory { capacity_of series self.new ≡ capacity_of series self.old }
        ensures spare { spare_of series self.old ≤ spare_of series self.new + 1 }
    {
        let slot = series as usize;
        let count = self.counts[slot];
        let places = &mut self.lists[slot];
        let before = places.len();
        let count = put(places, place, count);
        let after = places.len();
        self.used = self.used - before as u128 + after as u128;
        self.counts[slot] = count;
    }

    /// Drops the place of a series that begins at `at`, if one does.
    pub fn clear(&mut self, series: u16, at: i64)
        requires { series < 4096 }
        ensures ok { places_of series self.new ≡ drop_place at (places_of series self.old) }
        ensures others { ChangesOnly series self.old self.new }
        ensures memory { capacity_of series self.new ≡ capacity_of series self.old }
        ensures spare { spare_of series self.old ≤ spare_of series self.new }
    {
        let slot = series as usize;
        if slot >= self.lists.len() {
            return;
        }
        let count = self.counts[slot];
        let list = &mut self.lists[slot];
        let before = list.len();
        let count = drop_at(list, at, count);
        let after = list.len();
        self.used = self.used - before as u128 + after as u128;
        self.counts[slot] = count;
    }

    /// Makes a change of the places of a series.
    pub fn splice(&mut self, series: u16, moved: &Moved)
        requires slot { series < 4096 }
        requires rising { IsRising (moved_to moved.now (places_of series self.old)) }
        requires room { 2 ≤ spare_of series self.old }
        ensures ok { places_of series self.new ≡ moved_to moved.now (places_of series self.old) }
        ensures others { ChangesOnly series self.old self.new }
        ensures memory { capacity_of series self.new ≡ capacity_of series self.old }
        ensures spare { spare_of series self.old ≤ spare_of series self.new + 2 }
    {
        let slot = series as usize;
        let count = self.counts[slot];
        let list = &mut self.lists[slot];
        let before = list.len();
        let count = exchange(list, moved, count);
        let after = list.len();
        self.used = self.used - before as u128 + after as u128;
        self.counts[slot] = count;
    }

    /// How many elements a series has, by its places. Kept, not counted.
    pub fn count(&self, series: u16) -> u64
        requires slot { series < 4096 }
        requires bound { count_of (places_of series self.now) < 2 ^ 64 }
        ensures { result ≡ count_of (places_of series self.now) }
    {
        let slot = series as usize;
        if slot < self.counts.len() {
            self.counts[slot]
        } else {
            0
        }
    }

    /// How many places all series have together.
    pub fn used(&self) -> u32
        requires { used_of self.now < 2 ^ 32 }
        ensures { result ≡ used_of self.now }
    {
        self.used as u32
    }

    /// A copy of the places of a series.
    pub fn saved(&self, series: u16) -> Result<Vec<Place>, AllocError>
        requires { series < 4096 }
        ensures ok { IfOk result (λ places. places.items ≡ places_of series self.now) }
        ensures rising { IfOk result (λ places. IsRising places.items) }
    {
        Vec::from_slice(self.alloc, self.places(series))
    }

    /// Makes these the places of a series.
    pub fn restore(&mut self, series: u16, places: Vec<Place>)
        requires slot { series < 4096 }
        requires rising { IsRising places.items }
        ensures ok { places_of series self.new ≡ places.items }
        ensures spare { spare_of series self.new ≡ vec_capacity places - vec_len places }
        ensures others { ChangesOnly series self.old self.new }
    {
        let slot = series as usize;
        grow(self.alloc, &mut self.lists, &mut self.counts, slot);
        let kept = &mut self.lists[slot];
        let before = kept.len();
        let after = places.len();
        let count = counted(&places);
        *kept = places;
        self.used = self.used - before as u128 + after as u128;
        self.counts[slot] = count;
    }
}

// Has lists without places up to that of a slot. There is room for them.
fn grow(alloc: Global, lists: &mut Vec<Vec<Place>>, counts: &mut Vec<u64>, slot: usize)
    requires slot { slot < 4096 }
    requires room { 4096 ≤ vec_capacity lists.old }
    requires counts_room { 4096 ≤ vec_capacity counts.old }
    requires same { vec_len counts.old ≡ vec_len lists.old }
    ensures within { slot < length lists.new.items }
    ensures grown { HasGrown (slot + 1 - length lists.old.items) (map (λ list. list.items) lists.old.items)
        (map (λ list. list.items) lists.new.items)
        (map (λ list. vec_capacity list - vec_len list) lists.old.items)
        (map (λ list. vec_capacity list - vec_len list) lists.new.items)
        counts.old.items counts.new.items }
    ensures room { vec_capacity lists.old ≤ vec_capacity lists.new }
    ensures counts_room { vec_capacity counts.old ≤ vec_capacity counts.new }
{
    for _ in lists.len()..slot + 1 {
        let Ok(()) = lists.push(Vec::new(alloc)) else {
            unreachable!()
        };
        let Ok(()) = counts.push(0) else {
            unreachable!()
        };
    }
}
