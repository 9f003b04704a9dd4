// The walk from interval to interval, a plain program with which the calls are compared.
ghost use Rattle.std.specs.Prelude.{◌<◌};

use crate::laid::pattern;
use std::alloc::Global;
use ts_base::Unit::{Day, Hour, Minute, Month, Second, Week, Year};
use ts_base::{Stamp, Unit};
use ts_calendar::Calendar;
use ts_offset::{Counter, Grid};
use ts_pattern::{Pattern, Run};

// The starts of the on intervals from one on.
fn walked(alloc: Global, calendar: &Calendar, from: i32, steps: u32) -> Option<Vec<Stamp>> {
    let mut starts = Vec::new(alloc);
    for step in 0..steps {
        let k = from as i64 + step as i64;
        if calendar.is_on(k) {
            if let Some(start) = calendar.start_of(k) {
                starts.push(start).ok()?;
            }
        }
    }
    Some(starts)
}

// Runs that take turns, of one to five intervals each.
fn turns(alloc: Global, unit: Unit, first: bool, runs: u32) -> Option<Pattern> {
    let mut all = Vec::new(alloc);
    let mut on = first;
    for i in 0..runs {
        let count = i % 5 + 1;
        all.push(Run { on, count }).ok()?;
        on = !on;
    }
    Pattern::of_runs(unit, all)
}

// A calendar that starts two intervals before its pattern does.
fn calendar(alloc: Global, unit: Unit, first: bool, runs: u32) -> Option<Calendar> {
    let start = Stamp::read(b"2011-01-02 06:00:00")?;
    let each = Calendar::make(start, start, pattern(alloc, unit, true, &[1])?).ok()?;
    let patt_start = each.start_of(2)?;
    Calendar::make(start, patt_start, turns(alloc, unit, first, runs)?).ok()
}

// Whether a grid knows the offset of a start.
fn grid_agrees(grid: &Grid<'_>, offset: u64, start: Stamp) -> bool {
    grid.offset_of(start) == Ok(offset)
        && grid.offset_from(start) == offset
        && grid.stamp_of(offset) == Some(start)
        && grid.starts_from(offset).next() == Some(start)
}

// Whether a counter counts so many starts from the one after a stamp up to another.
fn counter_agrees(counter: &Counter, before: Stamp, count: u32, start: Stamp) -> bool
    requires { 0 < count }
{
    counter.cal_index(before, start) == count as i64
        && counter.cal_stamp(before, count) == Some(start)
}

// Whether a counter counts each of the starts of a walk.
fn counts_each(counter: &Counter, before: Stamp, starts: &[Stamp]) -> bool {
    let mut count: u32 = 0;
    for start in starts {
        count = count.saturating_add(1);
        if count > 0 && !counter_agrees(counter, before, count, *start) {
            return false;
        }
    }
    true
}

// Whether a counter lists the starts of a walk up to its last one.
fn lists(counter: &Counter, before: Stamp, starts: &[Stamp]) -> Option<bool> {
    let listed = counter.cal_range(before, *starts.last()?).ok()?;
    Some(listed.as_slice() == starts)
}

// Whether the calls of a counter agree with the starts of a walk.
fn is_counted(counter: &Counter, before: Stamp, starts: &[Stamp]) -> bool {
    lists(counter, before, starts) == Some(true) && counts_each(counter, before, starts)
}

// Whether a grid knows the offset of each of the starts of a walk.
fn is_numbered(counter: &Counter, before: Stamp, starts: &[Stamp]) -> Option<bool> {
    let grid = Grid::make(counter, before).ok()?;
    let mut offset: u64 = 0;
    for start in starts {
        if !grid_agrees(&grid, offset, *start) {
            return Some(false);
        }
        offset = offset.saturating_add(1);
    }
    Some(true)
}

// Whether the calls on a calendar agree with the walk over so many of its intervals.
fn agrees(alloc: Global, unit: Unit, first: bool, runs: u32, steps: u32) -> Option<bool> {
    let before = Stamp::read(b"2011-01-01 00:00:00")?;
    let counter = Counter::make(alloc, calendar(alloc, unit, first, runs)?).ok()?;
    let starts = walked(alloc, counter.calendar(), -9, steps)?;
    let is_counted = is_counted(&counter, before, &starts);
    Some(is_counted && is_numbered(&counter, before, &starts) == Some(true))
}

const UNITS: [Unit; 7] = [Second, Minute, Hour, Day, Week, Month, Year];

/// Whether the first run is on, how many runs there are, and how many steps are walked.
static WALKS: [(bool, u32, u32); 3] = [(true, 3, 60), (false, 6, 90), (true, 512, 2000)];

#[test]
fn the_calls_agree_with_the_walk(rt: HostRuntime) {
    for unit in &UNITS {
        for (first, runs, steps) in &WALKS {
            assert!(rt; agrees(rt.alloc(), *unit, *first, *runs, *steps) == Some(true));
        }
    }
}
