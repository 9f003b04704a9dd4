// The routines that only read patterns and calendars. Each says the reply of its command, whatever series and pages
// there are.
ghost use Rattle.std.specs.Prelude.{◌≡◌, ◌<◌, [], IfOk, IsSome, Some, option_copied, option_map, option_and_then};
ghost use Rattle.ts_command.specs.declared.command.Command.TheVariants.{ShowPattern, ShowCalendar, CalIndex, CalStamp};
ghost use Rattle.ts_command.specs.declared.command.Command.TheVariants.{CalRange};
ghost use Rattle.ts_command.specs.Form.{HasForm};
ghost use Rattle.ts_space.specs.Directory.{Directory};
ghost use Rattle.ts_model.specs.Definitions.{CalendarDef, at_slot, pattern_reference, calendar_slots};
ghost use Rattle.ts_layout.specs.Meaning.{IsThere, part_of, text_of};
ghost use Rattle.ts_answer.specs.Reading.{IsSaid};

use std::alloc::{AllocError, Global};
use ts_base::{Name, Refusal, Reply, Stamp, Trouble};
use ts_calendar::{Calendar, CalendarText, PatternPart};
use ts_define::{calendar_named, pattern_named, slot_named};
use ts_model::{Def, Defs, Kind};
use ts_say::{say_calendar, say_pattern, say_signed, say_stamp, say_stamps};

/// Says a pattern.
pub fn show_pattern(alloc: Global, defs: &Defs, name: &Name, out: &mut Reply) -> Result<(), Trouble>
    requires empty { out.old ≡ [] }
    ensures { (space : Directory) → IsSaid (ShowPattern name.now) result out.new defs.now.definitions space }
{
    let pattern = pattern_named(defs, name)?;
    say_pattern(alloc, out, pattern)?;
    Ok(())
}

/// Says a calendar, with the name of the pattern by whose name it was made.
pub fn show_calendar(
    alloc: Global,
    defs: &Defs,
    name: &Name,
    out: &mut Reply,
) -> Result<(), Trouble>
    requires empty { out.old ≡ [] }
    ensures { (space : Directory) → IsSaid (ShowCalendar name.now) result out.new defs.now.definitions space }
{
    let slot = slot_named(defs, Kind::Calendar, name)?;
    let text = text_in(defs, slot)?;
    say_calendar(alloc, out, &text)?;
    Ok(())
}

/// Says how many on starts of a calendar lie between two stamps.
pub fn cal_index(
    defs: &Defs,
    calendar: &Name,
    from: Stamp,
    to: Stamp,
    out: &mut Reply,
) -> Result<(), Trouble>
    requires empty { out.old ≡ [] }
    ensures { (space : Directory) → IsSaid (CalIndex calendar.now from to) result out.new defs.now.definitions space }
{
    let counter = calendar_named(defs, calendar)?;
    say_signed(out, counter.cal_index(from, to))?;
    Ok(())
}

/// Says the on start of a number after a stamp.
pub fn cal_stamp(
    defs: &Defs,
    calendar: &Name,
    after: Stamp,
    count: i64,
    out: &mut Reply,
) -> Result<(), Trouble>
    requires form { HasForm (CalStamp calendar.now after count) }
    requires empty { out.old ≡ [] }
    ensures { (space : Directory)
        → IsSaid (CalStamp calendar.now after count) result out.new defs.now.definitions space }
{
    let counter = calendar_named(defs, calendar)?;
    let Some(stamp) = counter.cal_stamp(after, count as u32) else {
        return Err(Trouble::Refused(Refusal::PastEnd));
    };
    say_stamp(out, stamp)?;
    Ok(())
}

/// Lists the on starts of a calendar from one stamp to another.
pub fn cal_range(
    defs: &Defs,
    calendar: &Name,
    from: Stamp,
    to: Stamp,
    out: &mut Reply,
) -> Result<(), Trouble>
    requires empty { out.old ≡ [] }
    ensures { (space : Directory) → IsSaid (CalRange calendar.now from to) result out.new defs.now.definitions space }
{
    let counter = calendar_named(defs, calendar)?;
    let starts = counter.cal_range(from, to)?;
    say_stamps(out, &starts)?;
    Ok(())
}

// The text of the calendar in a slot.
fn text_in(defs: &Defs, slot: u16) -> Result<CalendarText, AllocError>
    requires within { slot < calendar_slots }
    requires filled { IsSome (at_slot slot defs.now.definitions.calendars) }
    ensures { IfOk result (λ text. (c : CalendarDef) → at_slot slot defs.now.definitions.calendars ≡ Some c
        → IsThere defs.now.definitions (pattern_reference c.by) → text ≡ text_of defs.now.definitions c) }
{
    match defs.get(Kind::Calendar, slot) {
        Some(Def::Calendar { calendar, by, .. }) => Ok(CalendarText {
            start: calendar.calendar().start(),
            patt_start: calendar.calendar().patt_start(),
            part: part_in(defs, calendar.calendar(), *by)?,
        }),
        _ => unreachable!(),
    }
}

// The part of a calendar's text that gives its pattern: by name, where it was made by one, else its own.
fn part_in(defs: &Defs, calendar: &Calendar, by: Option<u8>) -> Result<PatternPart, AllocError>
    ensures { IfOk result (λ part. (c : CalendarDef) → c.calendar ≡ calendar.now
        → IsThere defs.now.definitions (pattern_reference by) → part ≡ part_of defs.now.definitions c by) }
{
    match pattern_name(defs, by) {
        Some(name) => Ok(PatternPart::Named(name.copy()?)),
        None => Ok(PatternPart::Own(calendar.pattern().copy()?)),
    }
}

// The name of the pattern in a slot, if one is given.
fn pattern_name(defs: &Defs, by: Option<u8>) -> Option<&Name>
    ensures { option_copied result
        ≡ option_and_then (λ slot. option_map (λ p. p.name) (at_slot slot defs.now.definitions.patterns)) by }
{
    match defs.get(Kind::Pattern, by? as u16) {
        Some(Def::Pattern { name, .. }) => Some(name),
        _ => None,
    }
}
