// The routines that make calendars, and the calendar of a name.
ghost use Rattle.std.specs.Prelude.{◌≡◌, ◌<◌, ℕ, Some, IsSome, IfOk, option_map};
ghost use Rattle.ts_command.specs.declared.command.Command.TheVariants.{CreateCalendar};
ghost use Rattle.ts_command.specs.Form.{HasForm};
ghost use Rattle.ts_model.specs.declared.kind.Kind.TheVariants.{Calendar as Calendars};
ghost use Rattle.ts_model.specs.Definitions.{calendar_slots, at_slot};
ghost use Rattle.ts_layout.specs.Meaning.{Layout, catalogue_of};
ghost use Rattle.ts_answer.specs.Answer.{a_calendar};
ghost use Rattle.ts_answer.specs.Decided.{IsDecision, FitsSlot};
ghost use Rattle.ts_answer.specs.Slots.{IsSlotNamed, IsCalendarIn};
ghost use Rattle.ts_answer.specs.Tried.{IsTried};
ghost use Rattle.ts_answer.specs.View.{IsDefinedBy};
ghost use Rattle.ts_define.specs.Patterns.{join_of_calendars};

use crate::made_calendars::{calendar_in, given, join};
use crate::slots::{slot_for, slot_named};
use std::alloc::Global;
use ts_base::{Bytes, Name, Trouble};
use ts_calendar::{Calendar, CalendarText};
use ts_model::{Def, Defs, Kind};
use ts_offset::Counter;
use ts_pattern::Junction;

/// The definition of the calendar that a text gives, and the slot for it.
pub fn new_calendar(
    alloc: Global,
    defs: &Defs,
    name: &Name,
    text: &Bytes,
) -> Result<(u16, Option<Def>), Trouble>
    requires form { HasForm (CreateCalendar name.now text.now) }
    ensures fits { IfOk result (λ change. FitsSlot Calendars change.0 change.1 defs.now.definitions) }
    ensures decision { (count : ℕ)
        → IsDecision Calendars (CreateCalendar name.now text.now) result defs.now.definitions count }
{
    let read = CalendarText::read(alloc, text.as_slice())?;
    let (pattern, by) = given(defs, read.part)?;
    let slot = slot_for(defs, Kind::Calendar, name)?;
    let calendar = match Calendar::make(read.start, read.patt_start, pattern) {
        Ok(calendar) => calendar,
        Err(why) => return Err(Trouble::Refused(why)),
    };
    calendar_in(alloc, slot, name, calendar, by)
}

/// The definition of two calendars joined, and the slot for it.
pub fn joined_calendar(
    alloc: Global,
    defs: &Defs,
    junction: Junction,
    name: &Name,
    first: &Name,
    second: &Name,
) -> Result<(u16, Option<Def>), Trouble>
    requires form { HasForm (join_of_calendars junction name.now first.now second.now) }
    ensures fits { IfOk result (λ change. FitsSlot Calendars change.0 change.1 defs.now.definitions) }
    ensures decision { (count : ℕ)
        → IsDecision Calendars
        (join_of_calendars junction name.now first.now second.now) result defs.now.definitions count }
{
    let a = calendar_named(defs, first)?;
    let b = calendar_named(defs, second)?;
    let slot = slot_for(defs, Kind::Calendar, name)?;
    let joined = join(junction, a, b)?;
    calendar_in(alloc, slot, name, joined, None)
}

/// The calendar that has this name.
pub fn calendar_named<'a>(defs: &'a Defs, name: &Name) -> Result<&'a Counter, Trouble>
    ensures { (count : ℕ) (l : Layout) → IsDefinedBy defs.now.definitions count l
        → IsTried result (a_calendar name.now (catalogue_of l)) (λ found calendar. found.now ≡ calendar) }
{
    let slot = calendar_slot(defs, name)?;
    Ok(calendar_at(defs, slot))
}

/// The slot of the calendar that has this name.
pub(crate) fn calendar_slot(defs: &Defs, name: &Name) -> Result<u16, Trouble>
    ensures found { IfOk result (λ slot. IsSlotNamed Calendars slot name.now defs.now.definitions) }
    ensures tried { (count : ℕ) (l : Layout) → IsDefinedBy defs.now.definitions count l
        → IsTried result (a_calendar name.now (catalogue_of l)) (IsCalendarIn name.now l) }
{
    slot_named(defs, Kind::Calendar, name)
}

/// The calendar in a slot.
pub(crate) fn calendar_at(defs: &Defs, slot: u16) -> &Counter
    requires within { slot < calendar_slots }
    requires filled { IsSome (at_slot slot defs.now.definitions.calendars) }
    ensures { option_map (λ c. c.calendar) (at_slot slot defs.now.definitions.calendars) ≡ Some result.now }
{
    match defs.get(Kind::Calendar, slot) {
        Some(Def::Calendar { calendar, .. }) => calendar,
        _ => unreachable!(),
    }
}
