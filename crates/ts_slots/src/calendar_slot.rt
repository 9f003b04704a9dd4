// The slot of a calendar: a whole page. It is judged by itself first, since the calendar may lack its pattern or break
// a rule.
ghost use Rattle.std.specs.Prelude.{◌≡◌, ◌↔◌, ◌++◌, ℕ, ℤ, Option, Some, IsTrue, IfOk, length};
ghost use Rattle.ts_page.specs.Pages.{page_size};
ghost use Rattle.ts_base.specs.Moment.{IsStamp};
ghost use Rattle.ts_cells.specs.IrregularPage.{stamp_bytes};
ghost use Rattle.ts_pattern.specs.Patterns as plan;
ghost use Rattle.ts_pattern.specs.Patterns.{is_pattern};
ghost use Rattle.ts_model.specs.Definitions.{CalendarDef};
ghost use Rattle.ts_layout.specs.Slot.{padded, name_bytes, part_bytes, calendar_bytes};
ghost use Rattle.ts_layout.specs.Meaning.{IsCalendarDef};
ghost use Rattle.ts_slots.specs.Written.{said_bytes, part_on_page, form_of, form_bytes, front_bytes};

use crate::pad::{pad, read_name, write_name};
use crate::plan::{parse_plan, write_plan};
use std::alloc::{AllocError, Global};
use ts_base::{Name, Stamp};
use ts_calendar::Calendar;
use ts_pattern::Pattern;

/// The bytes before those that say which pattern a calendar has.
const FRONT: usize = 50;

/// Which pattern a calendar has: that of a slot, or one of its own.
#[derive(Drop)]
pub enum Part {
    By(u8),
    Own(Pattern),
}

/// A calendar as its slot has it, whatever rules of calendars it breaks.
#[derive(Drop)]
pub struct CalendarForm {
    pub name: Name,
    pub start: Stamp,
    pub patt_start: Stamp,
    pub part: Part,
}

/// Writes a calendar over its page; where it was made by a pattern's name, the slot of that pattern stands for its
/// runs.
pub(crate) fn write_calendar(name: &Name, calendar: &Calendar, by: Option<u8>, page: &mut [u8])
    requires { length page.old ≡ page_size }
    ensures { page.new ≡ calendar_bytes name.now calendar.now by }
{
    write_front(
        name,
        calendar.start(),
        calendar.patt_start(),
        &mut page[..FRONT],
    );
    match by {
        Some(slot) => write_by(slot, &mut page[FRONT..]),
        None => write_own(calendar.pattern(), &mut page[FRONT..]),
    }
}

impl CalendarForm {
    /// Whether a page has these bytes.
    pub(crate) fn is_written(&self, page: &[u8]) -> bool
        requires { length page.now ≡ page_size }
        ensures { IsTrue result ↔ (page.now ≡ form_bytes self.now) }
    {
        let mut scratch = [0; 4096];
        self.write(&mut scratch);
        let written: &[u8] = &scratch;
        written == page
    }

    // Writes it over a page.
    fn write(&self, page: &mut [u8])
        requires { length page.old ≡ page_size }
        ensures { page.new ≡ form_bytes self.now }
    {
        write_front(&self.name, self.start, self.patt_start, &mut page[..FRONT]);
        match &self.part {
            Part::By(slot) => write_by(*slot, &mut page[FRONT..]),
            Part::Own(pattern) => write_own(pattern, &mut page[FRONT..]),
        }
    }
}

// Writes what stands before the pattern.
fn write_front(name: &Name, start: Stamp, patt_start: Stamp, into: &mut [u8])
    requires { length into.old ≡ 50 }
    ensures { into.new ≡ front_bytes name.now start patt_start }
{
    into[0] = 1;
    write_named(name, start, patt_start, &mut into[1..]);
}

// Writes the name and the starts.
fn write_named(name: &Name, start: Stamp, patt_start: Stamp, into: &mut [u8])
    requires { length into.old ≡ 49 }
    ensures { into.new ≡ name_bytes name.now ++ (stamp_bytes start ++ stamp_bytes patt_start) }
{
    write_name(name, &mut into[..33]);
    write_starts(start, patt_start, &mut into[33..]);
}

fn write_starts(start: Stamp, patt_start: Stamp, into: &mut [u8])
    requires { length into.old ≡ 16 }
    ensures { into.new ≡ stamp_bytes start ++ stamp_bytes patt_start }
{
    write_stamp(start, &mut into[..8]);
    write_stamp(patt_start, &mut into[8..]);
}

fn write_stamp(stamp: Stamp, into: &mut [u8])
    requires { length into.old ≡ 8 }
    ensures { into.new ≡ stamp_bytes stamp }
{
    into.copy_from_slice(&stamp.units().to_be_bytes());
}

// Writes the slot of a pattern.
fn write_by(slot: u8, into: &mut [u8])
    requires { length into.old ≡ 4046 }
    ensures { into.new ≡ padded 4046 (said_bytes (Part.By slot)) }
{
    pad(&[0, slot], into);
}

// Writes a pattern of its own.
fn write_own(pattern: &Pattern, into: &mut [u8])
    requires { length into.old ≡ 4046 }
    ensures { into.new ≡ padded 4046 (said_bytes (Part.Own pattern.now)) }
{
    into[0] = 1;
    into[1] = 0;
    write_plan(pattern, &mut into[2..]);
}

/// The one form whose page this may be.
pub(crate) fn parse_calendar(alloc: Global, page: &[u8]) -> Result<Option<CalendarForm>, AllocError>
    requires { length page.now ≡ page_size }
    ensures { IfOk result (λ found. (c : CalendarDef) → IsCalendarDef c
        → page.now ≡ calendar_bytes c.name c.calendar c.by
        → found ≡ Some (form_of c)) }
{
    let Some(name) = read_name(alloc, &page[1..34])? else {
        return Ok(None);
    };
    let Some(start) = parse_stamp(&page[34..42]) else {
        return Ok(None);
    };
    let Some(patt_start) = parse_stamp(&page[42..FRONT]) else {
        return Ok(None);
    };
    let Some(part) = parse_part(alloc, &page[FRONT..])? else {
        return Ok(None);
    };
    Ok(Some(CalendarForm {
        name,
        start,
        patt_start,
        part,
    }))
}

/// The one stamp whose 8 bytes these may be.
pub(crate) fn parse_stamp(bytes: &[u8]) -> Option<Stamp>
    requires { length bytes.now ≡ 8 }
    ensures { (stamp : ℤ) → IsStamp stamp → bytes.now ≡ stamp_bytes stamp → result ≡ Some stamp }
{
    Stamp::of(i64::from_be_bytes([
        bytes[0], bytes[1], bytes[2], bytes[3], bytes[4], bytes[5], bytes[6], bytes[7],
    ]))
}

// The one part whose bytes these may be.
fn parse_part(alloc: Global, bytes: &[u8]) -> Result<Option<Part>, AllocError>
    requires { length bytes.now ≡ 4046 }
    ensures { IfOk result (λ found. (p : plan.Plan) (by : Option ℕ) → IsTrue (is_pattern p.runs)
        → bytes.now ≡ padded 4046 (part_bytes p by)
        → found ≡ Some (part_on_page p by)) }
{
    if bytes[0] == 0 {
        return Ok(Some(Part::By(bytes[1])));
    }
    let Some(pattern) = parse_plan(alloc, &bytes[2..])? else {
        return Ok(None);
    };
    Ok(Some(Part::Own(pattern)))
}
