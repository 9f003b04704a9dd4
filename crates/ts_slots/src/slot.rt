// Slots of all kinds.
ghost use Rattle.std.specs.Prelude.{◌≡◌, ◌↔◌, ℕ, length, IsTrue, IfOk, IfSome, Some};
ghost use Rattle.ts_model.specs.declared.def.Def.{Def};
ghost use Rattle.ts_model.specs.Definitions.{kind_of};
ghost use Rattle.ts_layout.specs.Slot.{slot_size, def_bytes};
ghost use Rattle.ts_layout.specs.Meaning.{IsDef};
ghost use Rattle.ts_slots.specs.Reading.{IsReadingOf};
ghost use Rattle.ts_slots.specs.Written.{IsWritten, kind_written, name_written, written_bytes, written_of};

use crate::calendar_slot::{CalendarForm, parse_calendar, write_calendar};
use crate::container_slot::{parse_container, write_container};
use crate::pattern_slot::{parse_pattern, write_pattern};
use crate::row_type_slot::{parse_row_type, write_row_type};
use crate::series_slot::{parse_series, write_series};
use std::alloc::{AllocError, Global};
use ts_model::{Def, Kind};
use ts_row::is_zero;

/// What is written in a slot.
#[derive(Drop)]
pub enum Written {
    /// A definition that is no calendar.
    Whole(Def),
    Form(CalendarForm),
}

/// What the bytes of a slot are.
#[derive(Drop)]
pub enum Reading {
    /// Neither zeros nor what is written of a definition.
    Bad,
    Empty,
    Filled(Written),
}

impl Written {
    /// The name, or the key of a series.
    pub fn name(&self) -> &[u8]
        ensures { result.now ≡ name_written self.now }
    {
        match self {
            Written::Whole(def) => def.name(),
            Written::Form(form) => form.name.as_slice(),
        }
    }

    // Whether it is written with these bytes.
    fn is_written(&self, bytes: &[u8]) -> bool
        requires { length bytes.now ≡ slot_size (kind_written self.now) }
        ensures { IsTrue result ↔ (bytes.now ≡ written_bytes self.now) }
    {
        match self {
            Written::Whole(def) => is_written(def, bytes),
            Written::Form(form) => form.is_written(bytes),
        }
    }
}

/// Reads a slot of a volume of a format: bytes are a definition's exactly where it is written so.
pub fn read_slot(alloc: Global, format: u8, kind: Kind, bytes: &[u8]) -> Result<Reading, AllocError>
    requires { length bytes.now ≡ slot_size kind }
    ensures { IfOk result (IsReadingOf format kind bytes.now) }
{
    if is_zero(bytes) {
        return Ok(Reading::Empty);
    }
    let Some(written) = parse(alloc, format, kind, bytes)? else {
        return Ok(Reading::Bad);
    };
    if written.is_written(bytes) {
        return Ok(Reading::Filled(written));
    }
    Ok(Reading::Bad)
}

// What is written there, if these may be the bytes of a definition of the kind and the format.
fn parse(alloc: Global, format: u8, kind: Kind, bytes: &[u8]) -> Result<Option<Written>, AllocError>
    requires { length bytes.now ≡ slot_size kind }
    ensures rules { IfOk result (λ found. IfSome found (λ w. (kind_written w ≡ kind) × IsWritten format w)) }
    ensures found { IfOk result (λ found. (def : Def) → kind_of def ≡ kind → IsDef format def
        → bytes.now ≡ def_bytes def
        → found ≡ Some (written_of def)) }
{
    let def = match kind {
        Kind::RowType => parse_row_type(alloc, format, bytes)?,
        Kind::Pattern => parse_pattern(alloc, bytes)?,
        Kind::Calendar => return parse_form(alloc, bytes),
        Kind::Container => parse_container(alloc, bytes)?,
        Kind::Series => parse_series(alloc, bytes)?,
    };
    Ok(def.map(Written::Whole))
}

// The same of a calendar.
fn parse_form(alloc: Global, bytes: &[u8]) -> Result<Option<Written>, AllocError>
    requires { length bytes.now ≡ slot_size Kind.Calendar }
    ensures rules { IfOk result (λ found. IfSome found (λ w. (kind_written w ≡ Kind.Calendar)
        × ((format : ℕ) → IsWritten format w))) }
    ensures found { IfOk result (λ found. (format : ℕ) (def : Def) → kind_of def ≡ Kind.Calendar → IsDef format def
        → bytes.now ≡ def_bytes def
        → found ≡ Some (written_of def)) }
{
    match parse_calendar(alloc, bytes)? {
        Some(form) => Ok(Some(Written::Form(form))),
        None => Ok(None),
    }
}

// Whether the definition is written with these bytes.
fn is_written(def: &Def, bytes: &[u8]) -> bool
    requires { length bytes.now ≡ slot_size (kind_of def.now) }
    ensures { IsTrue result ↔ (bytes.now ≡ def_bytes def.now) }
{
    match def.kind() {
        Kind::RowType | Kind::Pattern | Kind::Calendar => {
            is_written_in(def, &mut [0; 4096], bytes)
        }
        Kind::Container => is_written_in(def, &mut [0; 60], bytes),
        Kind::Series => is_written_in(def, &mut [0; 94], bytes),
    }
}

// The same, with room to write it.
fn is_written_in(def: &Def, scratch: &mut [u8], bytes: &[u8]) -> bool
    requires { length scratch.old ≡ slot_size (kind_of def.now) }
    ensures { IsTrue result ↔ (bytes.now ≡ def_bytes def.now) }
{
    write_def(def, scratch);
    &*scratch == bytes
}

/// Writes a definition over its slot.
pub(crate) fn write_def(def: &Def, slot: &mut [u8])
    requires { length slot.old ≡ slot_size (kind_of def.now) }
    ensures { slot.new ≡ def_bytes def.now }
{
    match def {
        Def::RowType { name, kind } => write_row_type(name, kind, slot),
        Def::Pattern { name, pattern } => write_pattern(name, pattern, slot),
        Def::Calendar { name, calendar, by } => {
            write_calendar(name, calendar.calendar(), *by, slot)
        }
        Def::Container {
            name,
            row_type,
            quota,
        } => write_container(name, *row_type, *quota, slot),
        Def::Series {
            key,
            container,
            regular,
        } => write_series(key, *container, regular, slot),
    }
}
