// A calendar is completed with its pattern, and judged by the rules of calendars.
ghost use Rattle.std.specs.Prelude.{◌≡◌, IfOk, option_map};
ghost use Rattle.ts_model.specs.Definitions.{at_slot};
ghost use Rattle.ts_slots.specs.Written.{IsWritten};
ghost use Rattle.ts_container.specs.Reading.{Completes, HasPattern, Makes};

use std::alloc::{AllocError, Global};
use ts_base::{Name, Stamp};
use ts_calendar::Calendar;
use ts_model::{Def, Defs, Kind};
use ts_offset::Counter;
use ts_pattern::Pattern;
use ts_slots::{CalendarForm, Part, Written};

/// The definition that is written, among those before it; of a calendar that breaks a rule its name.
pub(crate) fn complete(
    alloc: Global,
    written: Written,
    defs: &Defs,
) -> Result<Result<Def, Name>, AllocError>
    requires limits { IsWritten defs.now.definitions.format written }
    requires there { HasPattern defs.now.definitions written }
    ensures { IfOk result (Completes defs.now.definitions written) }
{
    match written {
        Written::Whole(def) => Ok(Ok(def)),
        Written::Form(form) => complete_calendar(alloc, form, defs),
    }
}

// The calendar of a form. One without runs of its own has those of the pattern in the slot that it says.
fn complete_calendar(
    alloc: Global,
    form: CalendarForm,
    defs: &Defs,
) -> Result<Result<Def, Name>, AllocError>
    requires { HasPattern defs.now.definitions (Written.Form form) }
    ensures { IfOk result (Completes defs.now.definitions (Written.Form form)) }
{
    let CalendarForm {
        name,
        start,
        patt_start,
        part,
    } = form;
    match part {
        Part::Own(pattern) => make(alloc, name, start, patt_start, pattern, None),
        Part::By(slot) => match pattern_at(defs, slot)? {
            Some(pattern) => make(alloc, name, start, patt_start, pattern, Some(slot)),
            None => Ok(Err(name)),
        },
    }
}

// The pattern in a slot, once more.
fn pattern_at(defs: &Defs, slot: u8) -> Result<Option<Pattern>, AllocError>
    ensures { IfOk result (λ found. found ≡ option_map (λ p. p.pattern) (at_slot slot defs.now.definitions.patterns)) }
{
    match defs.get(Kind::Pattern, slot as u16) {
        Some(Def::Pattern { pattern, .. }) => Ok(Some(pattern.copy()?)),
        _ => Ok(None),
    }
}

// The calendar of these parts, if it breaks no rule; else its name.
fn make(
    alloc: Global,
    name: Name,
    start: Stamp,
    patt_start: Stamp,
    pattern: Pattern,
    by: Option<u8>,
) -> Result<Result<Def, Name>, AllocError>
    ensures { IfOk result (Makes name (record { start = start; patt_start = patt_start; pattern = pattern }) by) }
{
    match Calendar::make(start, patt_start, pattern) {
        Ok(calendar) => {
            let calendar = Counter::make(alloc, calendar)?;
            Ok(Ok(Def::Calendar { name, calendar, by }))
        }
        Err(_) => Ok(Err(name)),
    }
}
