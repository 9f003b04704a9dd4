ghost use Rattle.std.specs.Prelude.{◌≡◌, ◌<◌, ◌⊎◌, true, OnOk, OnErr, IsOk, IfOk, IfSome, IsSome, EachIndex};
ghost use Rattle.std.specs.Prelude.{slice_index, option_copied};
ghost use Rattle.std.specs.FinMap.{values};
ghost use Rattle.ts_model.specs.Definitions.{limit, kind_of, name_of, slots, with_slot, has_room, with_room, no_tables};
ghost use Rattle.ts_model.specs.Definitions.{at_slot, slot_of, vacant_slot, slots_by_name, with_format, IsNewName};
ghost use Rattle.ts_model.specs.Definitions.{IsFormat, IsDefinitions};

use crate::table::Table;
use crate::{Def, FORMAT, Kind};
use std::alloc::{AllocError, Global};
use std::marker::Model;

/// Row types, patterns, calendars, containers and series in numbered slots, each found by its name.
#[derive(Drop)]
pub struct Defs {
    format: u8,
    row_types: Table,
    patterns: Table,
    calendars: Table,
    containers: Table,
    series: Table,
}

impl Model for Defs {
    ghost use Rattle.ts_model.specs.Definitions.{Tables};
    ghost use Rattle.ts_model.specs.Parts.{tables_of, AreParts};

    ghost Value = { Tables };

    ghost view = { λ d. tables_of d.format d.row_types d.patterns d.calendars d.containers d.series };

    ghost invariant = { λ d. AreParts d.format d.row_types d.patterns d.calendars d.containers d.series };
}

impl Defs {
    /// Nothing defined, in the newest format; it takes no memory.
    pub fn new(alloc: Global) -> Defs
        ensures { result ≡ no_tables }
    {
        Defs {
            format: FORMAT,
            row_types: Table::new(alloc, Kind::RowType.limit()),
            patterns: Table::new(alloc, Kind::Pattern.limit()),
            calendars: Table::new(alloc, Kind::Calendar.limit()),
            containers: Table::new(alloc, Kind::Container.limit()),
            series: Table::new(alloc, Kind::Series.limit()),
        }
    }

    /// The format of the volume.
    pub fn format(&self) -> u8
        ensures value { result ≡ self.now.definitions.format }
        ensures one { IsFormat result }
    {
        self.format
    }

    /// Takes another format. The definitions stay, and it takes no memory.
    pub fn set_format(&mut self, format: u8)
        requires { IsFormat format }
        ensures { self.new ≡ record self.old { definitions = with_format format self.old.definitions } }
    {
        self.format = format;
    }

    /// The slot that has this name, or this key.
    pub fn find(&self, kind: Kind, name: &[u8]) -> Option<u16>
        ensures value { result ≡ slot_of name.now (slots kind self.now.definitions) }
        ensures within { IfSome result (λ slot. slot < limit kind) }
    {
        self.table(kind).find(name)
    }

    /// What stands in a slot.
    pub fn get(&self, kind: Kind, slot: u16) -> Option<&Def>
        requires { slot < limit kind }
        ensures { option_copied result ≡ at_slot slot (slots kind self.now.definitions) }
    {
        self.table(kind).get(slot)
    }

    /// The lowest empty slot.
    pub fn vacant(&self, kind: Kind) -> Option<u16>
        ensures value { result ≡ vacant_slot (slots kind self.now.definitions) }
        ensures within { IfSome result (λ slot. slot < limit kind) }
    {
        self.table(kind).vacant()
    }

    /// The filled slots in the order of their names.
    pub fn in_order(&self, kind: Kind) -> &[u16]
        ensures value { result.now ≡ values (slots_by_name (slots kind self.now.definitions)) }
        ensures filled { EachIndex result.now
            (λ k. IsSome (at_slot (slice_index result.now k) (slots kind self.now.definitions))) }
        ensures within { EachIndex result.now (λ k. slice_index result.now k < limit kind) }
        ensures rules { IsDefinitions self.now.definitions }
    {
        self.table(kind).in_order()
    }

    /// Takes memory for each empty slot of a kind.
    pub fn reserve(&mut self, kind: Kind) -> Result<(), AllocError>
        ensures ok { OnOk result (self.new.room ≡ with_room kind self.old.room) }
        ensures err { OnErr result (self.new.room ≡ self.old.room) }
        ensures memory { has_room kind self.old.room ≡ true → IsOk result }
        ensures others { self.new.definitions ≡ self.old.definitions }
    {
        match kind {
            Kind::RowType => self.row_types.reserve(),
            Kind::Pattern => self.patterns.reserve(),
            Kind::Calendar => self.calendars.reserve(),
            Kind::Container => self.containers.reserve(),
            Kind::Series => self.series.reserve(),
        }
    }

    /// Fills a slot with a definition, or empties it. It takes no memory.
    pub fn set(&mut self, kind: Kind, slot: u16, def: Option<Def>)
        requires slot { slot < limit kind }
        requires kind { IfSome def (λ d. kind_of d ≡ kind) }
        requires name { IfSome def (λ d. IsNewName (name_of d) slot (slots kind self.old.definitions)) }
        requires room { IsSome def → (has_room kind self.old.room ≡ true)
            ⊎ IsSome (at_slot slot (slots kind self.old.definitions)) }
        ensures slot { self.new.definitions ≡ with_slot kind slot def self.old.definitions }
        ensures room { self.new.room ≡ self.old.room }
    {
        match kind {
            Kind::RowType => self.row_types.set(slot, def),
            Kind::Pattern => self.patterns.set(slot, def),
            Kind::Calendar => self.calendars.set(slot, def),
            Kind::Container => self.containers.set(slot, def),
            Kind::Series => self.series.set(slot, def),
        }
    }

    /// The same definitions anew, with the same room.
    pub fn copy(&self) -> Result<Defs, AllocError>
        ensures { IfOk result (λ made. made ≡ self.now) }
    {
        let row_types = self.row_types.copy()?;
        let patterns = self.patterns.copy()?;
        let calendars = self.calendars.copy()?;
        let containers = self.containers.copy()?;
        let series = self.series.copy()?;
        Ok(Defs {
            format: self.format,
            row_types,
            patterns,
            calendars,
            containers,
            series,
        })
    }

    // The slots of a kind.
    fn table(&self, kind: Kind) -> &Table
        ensures slots { result.now.slots ≡ slots kind self.now.definitions }
        ensures count { result.now.count ≡ limit kind }
        ensures rules { IsDefinitions self.now.definitions }
    {
        match kind {
            Kind::RowType => &self.row_types,
            Kind::Pattern => &self.patterns,
            Kind::Calendar => &self.calendars,
            Kind::Container => &self.containers,
            Kind::Series => &self.series,
        }
    }
}
