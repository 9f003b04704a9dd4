// Two series as one.
ghost use Rattle.std.specs.Prelude.{◌⊎◌, length, IfOk, All};
ghost use Rattle.ts_pattern.specs.declared.junction.Junction.TheVariants.{And, Or};
ghost use Rattle.ts_combine.specs.Combine.{joined};
ghost use Rattle.ts_combine.specs.Series.{side_of, HasCalendar, IsSeries};
ghost use Rattle.ts_combine.specs.Rows.{IsTooLarge, IsRefusedFor};
ghost use Rattle.ts_combine.specs.Call.{joined_row, HasElements, AnswersRows, HaveNoGrid};
ghost use Rattle.ts_combine.specs.Reach.{IsOnCalendar, LiesOn};

use crate::joined::Joined;
use crate::line::common_line;
use crate::merge::merged;
use crate::side::Side;
use crate::sweep::swept;
use std::alloc::Global;
use ts_base::{Stamp, Trouble};
use ts_calendar::Calendar;
use ts_offset::Shape;
use ts_pattern::Junction;

/// The rows of two series at the stamps from one to another, both included, at which one has an element or both have.
/// Where both lie on grids, these are the starts of the grid that the two have in common, and each series has the
/// element whose interval holds such a start. UnitMismatch where neither unit is made of the other, NotAligned where
/// the grids don't meet, TooLarge where the rows are more than 1000000.
pub fn union(
    alloc: Global,
    first: &Side,
    second: &Side,
    from: Stamp,
    to: Stamp,
) -> Result<Vec<Joined>, Trouble>
    requires first { HasCalendar first.now }
    requires second { HasCalendar second.now }
    ensures rows { let a = side_of first.now in let b = side_of second.now in IsSeries a → IsSeries b
        → AnswersRows (joined_row a b) (joined Or a b from to) result }
    ensures within { IfOk result
        (λ rows. All (HasElements (length first.now.elems.now) (length second.now.elems.now)) rows.items) }
    ensures cause { IsRefusedFor (λ why. HaveNoGrid first.now.shape.now second.now.shape.now why
        ⊎ IsTooLarge why) result }
{
    joined(alloc, Junction::Or, first, second, from, to)
}

/// The same at the stamps at which both have an element.
pub fn intersect(
    alloc: Global,
    first: &Side,
    second: &Side,
    from: Stamp,
    to: Stamp,
) -> Result<Vec<Joined>, Trouble>
    requires first { HasCalendar first.now }
    requires second { HasCalendar second.now }
    ensures rows { let a = side_of first.now in let b = side_of second.now in IsSeries a → IsSeries b
        → AnswersRows (joined_row a b) (joined And a b from to) result }
    ensures within { IfOk result
        (λ rows. All (HasElements (length first.now.elems.now) (length second.now.elems.now)) rows.items) }
    ensures cause { IsRefusedFor (λ why. HaveNoGrid first.now.shape.now second.now.shape.now why
        ⊎ IsTooLarge why) result }
{
    joined(alloc, Junction::And, first, second, from, to)
}

fn joined(
    alloc: Global,
    junction: Junction,
    first: &Side,
    second: &Side,
    from: Stamp,
    to: Stamp,
) -> Result<Vec<Joined>, Trouble>
    requires first { HasCalendar first.now }
    requires second { HasCalendar second.now }
    ensures rows { let a = side_of first.now in let b = side_of second.now in IsSeries a → IsSeries b
        → AnswersRows (joined_row a b) (joined junction a b from to) result }
    ensures within { IfOk result
        (λ rows. All (HasElements (length first.now.elems.now) (length second.now.elems.now)) rows.items) }
    ensures cause { IsRefusedFor (λ why. HaveNoGrid first.now.shape.now second.now.shape.now why
        ⊎ IsTooLarge why) result }
{
    match (grid_calendar(first), grid_calendar(second)) {
        (Some(calendar), Some(other)) => {
            joined_on(alloc, junction, first, calendar, second, other, from, to)
        }
        _ => merged(alloc, junction, first, second, from, to)?.done(),
    }
}

// The calendar of a series on a grid.
fn grid_calendar<'a>(side: &Side<'a>) -> Option<&'a Calendar>
    requires { HasCalendar side.now }
    ensures { LiesOn side.now.shape.now result }
{
    match side.shape {
        Shape::Regular(_) => side.calendar,
        Shape::Irregular => None,
    }
}

// Two series on calendars as one.
fn joined_on(
    alloc: Global,
    junction: Junction,
    first: &Side,
    calendar: &Calendar,
    second: &Side,
    other: &Calendar,
    from: Stamp,
    to: Stamp,
) -> Result<Vec<Joined>, Trouble>
    requires first { IsOnCalendar first.now.shape.now calendar.now }
    requires second { IsOnCalendar second.now.shape.now other.now }
    ensures rows { let a = side_of first.now in let b = side_of second.now in IsSeries a → IsSeries b
        → AnswersRows (joined_row a b) (joined junction a b from to) result }
    ensures within { IfOk result
        (λ rows. All (HasElements (length first.now.elems.now) (length second.now.elems.now)) rows.items) }
    ensures cause { IsRefusedFor (λ why. HaveNoGrid first.now.shape.now second.now.shape.now why
        ⊎ IsTooLarge why) result }
{
    match calendar.common_grid(other) {
        Ok(grid) => {
            let line = common_line(calendar, other, grid, from, to);
            swept(alloc, junction, &line, first, calendar, second, other)?.done()
        }
        Err(why) => Err(Trouble::Refused(why)),
    }
}
