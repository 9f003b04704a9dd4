// Patterns and calendars in their pages: their bytes, and what a survey reads.
ghost use Rattle.std.specs.Prelude.{◌≡◌, IfOk};
ghost use Rattle.ts_model.specs.Definitions.{kind_of};
ghost use Rattle.ts_page.specs.Memory.{memory_contents};

use crate::made::{WEEK, calendar, def, name, put_def};
use crate::volume::{Patch, page_in, surveyed, volume, zeros};
use std::alloc::Global;
use std::mem;
use ts_base::StoreFault;
use ts_container::Surveyed;
use ts_model::{Def, Defs, Kind};
use ts_page::MemoryPages;

/// The pattern `{1 off,5 on,1 off},day` with the name `ww` in slot 2; in slot 5 the calendar `cal` by its name, from
/// 2011-01-03 on; and in slot 6 the calendar `own` with such a pattern of its own.
static DEFINITIONS: [Patch; 8] = [
    (323, 0, b"\x01\x02ww"),
    (
        323,
        34,
        b"\x03\x00\x03\x00\x00\x00\x01\x80\x00\x00\x05\x00\x00\x00\x01",
    ),
    (582, 0, b"\x01\x03cal"),
    (582, 34, b"\x00\x00\x75\xb0\x95\x53\xf0\x00"),
    (582, 42, b"\x00\x00\x75\xb0\x95\x53\xf0\x00\x00\x02"),
    (583, 0, b"\x01\x03own"),
    (583, 34, b"\x00\x00\x75\xb0\x95\x53\xf0\x00"),
    (
        583,
        42,
        b"\x00\x00\x75\xb0\x95\x53\xf0\x00\x01\x00\x03\x00\x03\x00\x00\x00\x01\x80\x00\x00\x05\x00\x00\x00\x01",
    ),
];

// Whether the calendar in a slot has the runs of the week, and was made by this pattern or by none.
fn has_week(defs: &Defs, slot: u16, pattern: Option<u8>) -> bool {
    if slot >= Kind::Calendar.limit() {
        return false;
    }
    match defs.get(Kind::Calendar, slot) {
        Some(Def::Calendar { calendar, by, .. }) => {
            *by == pattern && calendar.calendar().pattern().runs() == WEEK.as_slice()
        }
        _ => false,
    }
}

fn are_read(found: &Surveyed) -> bool {
    found.defs.find(Kind::Pattern, b"ww") == Some(2)
        && found.defs.find(Kind::Calendar, b"cal") == Some(5)
        && has_week(&found.defs, 5, Some(2))
        && has_week(&found.defs, 6, None)
}

fn are_surveyed(alloc: Global) -> bool {
    match surveyed(alloc, &DEFINITIONS, &[]) {
        Ok(found) => {
            let are_read = are_read(&found);
            mem::drop(found);
            are_read
        }
        Err(_) => false,
    }
}

#[test]
fn a_calendar_by_a_name_has_the_runs_of_its_pattern(rt: HostRuntime) {
    assert!(rt; are_surveyed(rt.alloc()));
}

// The calendar of the week by the name of the pattern in slot 2.
fn by_name(alloc: Global) -> Result<Def, StoreFault>
    ensures { IfOk result (λ def. kind_of def ≡ Kind.Calendar) }
{
    Ok(Def::Calendar {
        name: name(alloc, b"cal")?,
        calendar: calendar(alloc)?,
        by: Some(2),
    })
}

// Puts the three definitions into their slots.
fn put_defs(alloc: Global, pages: &mut MemoryPages) -> Result<(), StoreFault>
    requires { (memory_contents pages.old).count ≡ 933 }
    ensures { (memory_contents pages.new).count ≡ 933 }
{
    let pattern = def(alloc, Kind::Pattern, b"ww");
    put_def(alloc, pages, Kind::Pattern, 2, pattern)?;
    put_def(alloc, pages, Kind::Calendar, 5, by_name(alloc))?;
    let own = def(alloc, Kind::Calendar, b"own");
    put_def(alloc, pages, Kind::Calendar, 6, own)
}

// A volume of zeros with these definitions in their slots.
fn written(alloc: Global) -> Result<MemoryPages, StoreFault>
    ensures { IfOk result (λ pages. (memory_contents pages).count ≡ 933) }
{
    let mut pages = zeros(alloc)?;
    put_defs(alloc, &mut pages)?;
    Ok(pages)
}

// Whether a page is that of the volume with these bytes.
fn is_written(alloc: Global, number: u32) -> Option<bool> {
    let page = page_in(written(alloc), number)?;
    let wanted = page_in(volume(alloc, &DEFINITIONS, &[]), number)?;
    Some(page == wanted)
}

#[test]
fn patterns_and_calendars_have_the_bytes_of_the_format(rt: HostRuntime) {
    for number in &[323, 324, 582, 583] {
        assert!(rt; is_written(rt.alloc(), *number) == Some(true));
    }
}
