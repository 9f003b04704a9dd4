// The origins of regular series.
ghost use Rattle.std.specs.Prelude.{◌≡◌, ◌↔◌, ◌<◌, Some, IsTrue, IfSome, MatchOption};
ghost use Rattle.ts_calendar.specs.Calendars.{start_at};
ghost use Rattle.ts_offset.specs.Grid.{IsOnStart};
ghost use Rattle.ts_model.specs.Definitions.{SeriesDef, at_slot, series_slots, IsDefinitions};
ghost use Rattle.ts_layout.specs.Meaning.{IsOnCalendar, HaveOrigins};
ghost use Rattle.ts_volume.specs.FirstBad.{IsAstray, IsLeast};

use ts_base::Stamp;
use ts_calendar::{Calendar, starts_rise};
use ts_layout::page_of_slot;
use ts_model::{Def, Defs, Kind};

/// The page of the first regular series whose origin is no on start of its calendar. It takes no memory.
pub(crate) fn first_astray(defs: &Defs) -> Option<u32>
    requires { IsDefinitions defs.now.definitions }
    ensures { MatchOption result (HaveOrigins defs.now.definitions) (IsLeast (IsAstray defs.now.definitions)) }
{
    for slot in 0..Kind::Series.limit() {
        if !has_origin_at(defs, slot) {
            return Some(page_of_slot(Kind::Series, slot));
        }
    }
    None
}

// Whether the origin of the series in a slot, where it is regular, is an on start of its calendar.
fn has_origin_at(defs: &Defs, slot: u16) -> bool
    requires { slot < series_slots }
    ensures { IsTrue result ↔ ((s : SeriesDef) → at_slot slot defs.now.definitions.series ≡ Some s →
        IfSome s.regular (IsOnCalendar defs.now.definitions)) }
{
    match defs.get(Kind::Series, slot) {
        Some(Def::Series { regular, .. }) => match regular {
            Some((calendar, origin)) => is_on_calendar(defs, *calendar, *origin),
            None => true,
        },
        _ => true,
    }
}

// Whether the calendar in a slot, if there is one, has an on start at a stamp.
fn is_on_calendar(defs: &Defs, calendar: u8, stamp: Stamp) -> bool
    ensures { IsTrue result ↔ IsOnCalendar defs.now.definitions (calendar, stamp) }
{
    match defs.get(Kind::Calendar, calendar as u16) {
        Some(Def::Calendar { calendar, .. }) => is_on_start(calendar.calendar(), stamp),
        _ => true,
    }
}

// Whether an on interval of a calendar starts at a stamp.
fn is_on_start(calendar: &Calendar, stamp: Stamp) -> bool
    ensures { IsTrue result ↔ IsOnStart calendar.now stamp }
{
    // No earlier interval starts there, and no later one.
    starts_rise();
    let k = calendar.interval_around(stamp);
    if !calendar.is_on(k) {
        return false;
    }
    starts_at(calendar, k, stamp)
}

// Whether an interval starts at a stamp.
fn starts_at(calendar: &Calendar, k: i64, stamp: Stamp) -> bool
    ensures { IsTrue result ↔ (start_at calendar.now k ≡ Some stamp) }
{
    match calendar.start_of(k) {
        Some(start) => start.units() == stamp.units(),
        None => false,
    }
}
