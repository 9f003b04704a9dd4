// Two series at the starts of the grid that they have in common.
ghost use Rattle.std.specs.Prelude.{◌≡◌, ◌+◌, ◌<◌, ◌≤◌, ◌^◌, [], ◌++◌, if◌then◌else◌, pos, ◌+ℤ◌, ◌≤ℤ◌, ◌<ℤ◌, ◌⊎◌, List};
ghost use Rattle.std.specs.Prelude.{length, OnOk, IfOk};
ghost use Rattle.ts_calendar.specs.Calendars.{IsNear};
ghost use Rattle.ts_base.specs.Answer.{most_rows};
ghost use Rattle.ts_offset.specs.Grid.{gap};
ghost use Rattle.ts_combine.specs.Combine.{is_kept};
ghost use Rattle.ts_combine.specs.Series.{side_of};
ghost use Rattle.ts_combine.specs.Rows.{Gathers};
ghost use Rattle.ts_combine.specs.Call.{GathersJoined};
ghost use Rattle.ts_combine.specs.Line.{AllExist, starts_of_next, starts_up_to};
ghost use Rattle.ts_combine.specs.Reach.{IsOnCalendar, reach_end, rows_held, rows_with};

use crate::joined::Joined;
use crate::line::Line;
use crate::merge::is_kept;
use crate::reach::{Reach, next_reach, reach_of};
use crate::rows::Rows;
use crate::side::Side;
use std::alloc::{AllocError, Global};
use ts_calendar::Calendar;
use ts_pattern::Junction;

/// The rows that two series on calendars have at the starts of a line. Stretches of it in which neither row changes are
/// taken at once.
pub(crate) fn swept(
    alloc: Global,
    junction: Junction,
    line: &Line,
    first: &Side,
    calendar: &Calendar,
    second: &Side,
    other: &Calendar,
) -> Result<Rows<Joined>, AllocError>
    requires first { IsOnCalendar first.now.shape.now calendar.now }
    requires second { IsOnCalendar second.now.shape.now other.now }
    ensures { IfOk result
        (GathersJoined first.now second.now (rows_held junction (side_of first.now) calendar.now
        (side_of second.now) other.now
        (starts_up_to line.now.calendar.now line.now.low line.now.limit))) }
{
    let limit = line.limit;
    let mut rows = Rows::new(alloc);
    let mut at = line.low;
    let mut here = reach_of(line, calendar, first.elems, 0);
    let mut there = reach_of(line, other, second.elems, 0);
    while at < limit {
        let end = stretch_end(&here, &there, at, limit);
        let index = here.index_at(at);
        let other_index = there.index_at(at);
        add(&mut rows, junction, line, at, end, index, other_index)?;
        here = next_reach(line, calendar, first.elems, here, end);
        there = next_reach(line, other, second.elems, there, end);
        at = end;
    }
    Ok(rows)
}

// Up to which interval no row changes; none may be left where one reach is over.
fn stretch_end(first: &Reach, second: &Reach, at: i64, limit: i64) -> i64
    requires { at <ℤ limit }
    ensures from { at ≤ℤ result }
    ensures to { result ≤ℤ limit }
    ensures within { at <ℤ result → (result ≤ℤ reach_end first.now at) × (result ≤ℤ reach_end second.now at) }
    ensures over { result ≤ℤ at → (reach_end first.now at ≤ℤ at) ⊎ (reach_end second.now at ≤ℤ at) }
{
    let end = earlier(first.end(at), second.end(at));
    if end <= at { at } else { earlier(end, limit) }
}

// The earlier of two intervals.
fn earlier(a: i64, b: i64) -> i64
    ensures first { result ≤ℤ a }
    ensures second { result ≤ℤ b }
    ensures one { (result ≡ a) ⊎ (result ≡ b) }
{
    if a < b { a } else { b }
}

// Rows at each start from one interval up to another, which isn't counted, where the row is kept.
fn add(
    rows: &mut Rows<Joined>,
    junction: Junction,
    line: &Line,
    from: i64,
    to: i64,
    first: Option<usize>,
    second: Option<usize>,
) -> Result<(), AllocError>
    requires low { line.now.low ≤ℤ from }
    requires order { from ≤ℤ to }
    requires high { to ≤ℤ line.now.limit }
    requires fits { rows.old.count + gap from to < 2 ^ 63 }
    ensures gathers { OnOk result ((all : List Joined) → Gathers rows.old all → Gathers rows.new
        (all ++ (if is_kept junction first second
        then rows_with first second (starts_up_to line.now.calendar.now from to) else []))) }
    ensures count { OnOk result (rows.new.count ≤ rows.old.count + gap from to) }
{
    if !is_kept(junction, first, second) {
        return Ok(());
    }
    let count = steps(from, to);
    if !rows.may_have(count) {
        rows.skip(count);
        return Ok(());
    }
    list(rows, line, from, count, first, second)?;
    Ok(())
}

// How many intervals lead from one to another.
fn steps(from: i64, to: i64) -> u64
    requires near { IsNear from × IsNear to }
    requires order { from ≤ℤ to }
    ensures { result ≡ gap from to }
{
    (to - from) as u64
}

// Rows at the next starts from an interval on.
fn list(
    rows: &mut Rows<Joined>,
    line: &Line,
    from: i64,
    count: u64,
    first: Option<usize>,
    second: Option<usize>,
) -> Result<(), AllocError>
    requires low { line.now.low ≤ℤ from }
    requires high { (from +ℤ pos count) ≤ℤ line.now.limit }
    requires fits { rows.old.count + count ≤ most_rows }
    ensures gathers { OnOk result ((all : List Joined) → Gathers rows.old all
        → Gathers rows.new (all ++ rows_with first second (starts_of_next line.now.calendar.now from count))) }
    ensures count { OnOk result (rows.new.count ≡ rows.old.count + count) }
{
    for n in 0..count {
        let stamp = line.calendar.existing_start(from + n as i64);
        rows.push(Joined {
            stamp,
            first,
            second,
        })?;
    }
    Ok(())
}
