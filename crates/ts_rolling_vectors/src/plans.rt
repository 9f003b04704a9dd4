// Plans of puts into a set of days.
ghost use Rattle.std.specs.Prelude.{IsTrue};
ghost use Rattle.std.specs.List.Sorted.{IsStrictlyIncreasing};

use std::alloc::Global;
use ts_base::{Refusal, Stamp, Trouble, Unit};
use ts_calendar::Calendar;
use ts_offset::{Counter, Grid};
use ts_pattern::{Pattern, Run};
use ts_rolling::{Plan, plan_put};

const ORIGIN: &[u8] = b"2011-01-03 00:00:00";

/// How many windows are kept, the live ones, a stamp, its window, whether it is made, and those that go.
type Row = (
    u16,
    &'static [u64],
    &'static [u8],
    u64,
    bool,
    &'static [u64],
);

static PLANS: [Row; 10] = [
    // The first three puts of a set that keeps two days.
    (2, &[], b"2011-01-03 10:00:00", 0, true, &[]),
    (2, &[0], b"2011-01-04 00:00:00", 1, true, &[]),
    (2, &[0, 1], b"2011-01-05 00:00:00", 2, true, &[0]),
    // Another put of the newest day, and of the day before.
    (2, &[1, 2], b"2011-01-05 23:59:59.99999", 2, false, &[]),
    (2, &[1, 2], b"2011-01-04 12:00:00", 1, false, &[]),
    // A day between that has no window yet.
    (3, &[1, 3], b"2011-01-05 00:00:00", 2, true, &[]),
    // A far jump: all go.
    (2, &[0, 1], b"2011-12-31 00:00:00", 362, true, &[0, 1]),
    (
        1000,
        &[0, 1, 2],
        b"2013-09-30 00:00:00",
        1001,
        true,
        &[0, 1],
    ),
    // One day is kept.
    (1, &[4], b"2011-01-07 08:00:00", 4, false, &[]),
    // Windows that another command made, too old beside the newest.
    (2, &[0, 3, 9], b"2011-01-12 00:00:00", 9, false, &[0, 3]),
];

/// How many windows are kept, the live ones, a stamp, and why no put is planned there.
static REFUSED: [(u16, &[u64], &[u8], Refusal); 4] = [
    (
        2,
        &[1, 2],
        b"2011-01-03 00:00:00",
        Refusal::WindowGone { newest: 2 },
    ),
    (
        1,
        &[4],
        b"2011-01-06 23:00:00",
        Refusal::WindowGone { newest: 4 },
    ),
    (2, &[1, 2], b"2011-01-01 00:00:00", Refusal::BeforeOrigin),
    (2, &[1, 2], b"2010-12-31 00:00:00", Refusal::OffStamp),
];

// All days from 2011-01-01 on.
fn days(alloc: Global) -> Option<Counter> {
    let start = Stamp::read(b"2011-01-01 00:00:00")?;
    let mut runs = Vec::new(alloc);
    runs.push(Run { on: true, count: 1 }).ok()?;
    let pattern = Pattern::of_runs(Unit::Day, runs)?;
    let calendar = Calendar::make(start, start, pattern).ok()?;
    Counter::make(alloc, calendar).ok()
}

// Whether each number is below the next.
fn is_rising(live: &[u64]) -> bool
    ensures { IsTrue result → IsStrictlyIncreasing live.now }
{
    for i in 1..live.len() {
        if live[i - 1] >= live[i] {
            return false;
        }
    }
    true
}

fn is_plan(plan: &Plan, window: u64, attach: bool, purge: &[u64]) -> bool {
    plan.window == window && plan.attach == attach && plan.purge.as_slice() == purge
}

fn is_planned(alloc: Global, row: &Row) -> Option<bool> {
    let (n, live, stamp, window, attach, purge) = row;
    let counter = days(alloc)?;
    let grid = Grid::make(&counter, Stamp::read(ORIGIN)?).ok()?;
    if !is_rising(live) {
        return None;
    }
    let plan = plan_put(alloc, &grid, *n, live, Stamp::read(stamp)?).ok()?;
    Some(is_plan(&plan, *window, *attach, purge))
}

fn is_refused(alloc: Global, n: u16, live: &[u64], stamp: &[u8], refusal: Refusal) -> Option<bool> {
    let counter = days(alloc)?;
    let grid = Grid::make(&counter, Stamp::read(ORIGIN)?).ok()?;
    if !is_rising(live) {
        return None;
    }
    match plan_put(alloc, &grid, n, live, Stamp::read(stamp)?) {
        Err(Trouble::Refused(why)) => Some(why == refusal),
        _ => Some(false),
    }
}

#[test]
fn a_put_has_its_plan(rt: HostRuntime) {
    for row in &PLANS {
        assert!(rt; is_planned(rt.alloc(), row) == Some(true));
    }
}

#[test]
fn a_put_that_is_too_old_or_off_is_refused(rt: HostRuntime) {
    for (n, live, stamp, refusal) in &REFUSED {
        assert!(rt; is_refused(rt.alloc(), *n, live, stamp, *refusal) == Some(true));
    }
}
