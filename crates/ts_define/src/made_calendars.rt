// What calendars are made of: the pattern that a text gives, two calendars joined, and the slot that one goes into.
ghost use Rattle.std.specs.Prelude.{ℕ, IfOk, IsTrue};
ghost use Rattle.ts_base.specs.Name.{is_name};
ghost use Rattle.ts_base.specs.Answer.{Answers};
ghost use Rattle.ts_calendar.specs.Calendars.{joined_calendar};
ghost use Rattle.ts_model.specs.declared.kind.Kind.TheVariants.{Calendar as Calendars};
ghost use Rattle.ts_model.specs.Definitions.{Definitions};
ghost use Rattle.ts_layout.specs.Chains.{AreFilled};
ghost use Rattle.ts_layout.specs.Meaning.{Layout, IsSound, catalogue_of, text_of};
ghost use Rattle.ts_answer.specs.Answer.{given};
ghost use Rattle.ts_answer.specs.Decided.{FitsSlot};
ghost use Rattle.ts_answer.specs.Slots.{IsFreeSlot};
ghost use Rattle.ts_answer.specs.Tried.{IsTried};
ghost use Rattle.ts_answer.specs.View.{IsDefinedBy};
ghost use Rattle.ts_define.specs.Patterns.{IsPatternBy, IsGivenPattern, IsMade};

use crate::patterns::pattern_at;
use crate::slots::slot_named;
use std::alloc::Global;
use ts_base::{Name, Trouble};
use ts_calendar::{Calendar, PatternPart};
use ts_model::{Def, Defs, Kind};
use ts_offset::Counter;
use ts_pattern::{Junction, Pattern};

/// The pattern that a text gives: a copy of the one of a name, with its slot, or its own.
pub(crate) fn given(defs: &Defs, part: PatternPart) -> Result<(Pattern, Option<u8>), Trouble>
    ensures { (count : ℕ) (l : Layout) → IsDefinedBy defs.now.definitions count l
        → IsTried result (given part (catalogue_of l)) (IsGivenPattern part l) }
{
    match part {
        PatternPart::Named(name) => {
            let slot = slot_named(defs, Kind::Pattern, &name)?;
            let copied = pattern_at(defs, slot).copy()?;
            Ok((copied, Some(slot as u8)))
        }
        PatternPart::Own(pattern) => Ok((pattern, None)),
    }
}

/// The two calendars joined.
pub(crate) fn join(junction: Junction, a: &Counter, b: &Counter) -> Result<Calendar, Trouble>
    ensures { Answers (joined_calendar junction a.now b.now) result }
{
    match junction {
        Junction::And => a.calendar().and_op(b.calendar()),
        Junction::Or => a.calendar().or_op(b.calendar()),
    }
}

/// A calendar goes under a new name into the slot for it.
pub(crate) fn calendar_in(
    alloc: Global,
    slot: u16,
    name: &Name,
    calendar: Calendar,
    by: Option<u8>,
) -> Result<(u16, Option<Def>), Trouble>
    requires { IsTrue (is_name name.now) }
    ensures fits { (d : Definitions) → IsFreeSlot Calendars slot name.now d
        → IfOk result (λ change. FitsSlot Calendars change.0 change.1 d) }
    ensures made { (l : Layout) → IsSound l → AreFilled l → IsFreeSlot Calendars slot name.now l.definitions
        → IsPatternBy by calendar.pattern l.definitions
        → IsMade Calendars name.now
        (text_of l.definitions (record { name = name.now; calendar = calendar; by = by })) l result }
{
    // What each calendar keeps: two stamps, and a pattern within the limits.
    let _start = calendar.start().units();
    let _patt_start = calendar.patt_start();
    let _length = calendar.pattern().length();
    let copied = name.copy()?;
    let counter = Counter::make(alloc, calendar)?;
    Ok((
        slot,
        Some(Def::Calendar {
            name: copied,
            calendar: counter,
            by,
        }),
    ))
}
