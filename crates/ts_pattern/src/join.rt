// The runs of two rows of runs that are joined, from run end to run end.
ghost use Rattle.std.specs.Prelude.{◌≡◌, ℕ, ◌+◌, ◌*◌, ◌%◌, ◌^◌, ◌<◌, ◌≤◌, ◌↔◌, length as count_of, take, slice_get};
ghost use Rattle.std.specs.Prelude.{sum_by, Some, IsTrue, IsSome, IfSome, IfOk, OnOk, OnErr};
ghost use Rattle.ts_pattern.specs.Patterns.{total, is_pattern, runs_of, run, joined};
ghost use Rattle.ts_pattern.specs.Growth.{extended, ends_on};
ghost use Rattle.ts_pattern.specs.Line.{side_by_side};

use crate::cursor::{Cursor, run_at};
use crate::pattern::MOST_RUNS;
use crate::{Junction, Run};
use std::alloc::{AllocError, Global};

// Merged runs that repeat, read from an interval of the first round on.
#[derive(Clone, Copy)]
pub(crate) struct Line<'a> {
    pub runs: &'a [Run],
    pub from: u32,
}

// The first runs of two lines that are joined, if there are no more than 512.
pub(crate) fn join(
    alloc: Global,
    junction: Junction,
    left: Line,
    right: Line,
    length: u32,
) -> Result<Option<Vec<Run>>, AllocError>
    requires left { IsTrue (is_pattern left.runs.now) }
    requires right { IsTrue (is_pattern right.runs.now) }
    requires within { (left.from < total left.runs.now) × (right.from < total right.runs.now) }
    requires small { length ≤ 527_040 }
    ensures fits { IfOk result (λ o. IsSome o
        ↔ (count_of (runs_of (side_by_side junction left.entry.runs.now left.entry.from right.entry.runs.now right.entry.from) length) ≤ 512)) }
    ensures value { IfOk result (λ o. IfSome o (λ runs. runs.items
        ≡ runs_of (side_by_side junction left.entry.runs.now left.entry.from right.entry.runs.now right.entry.from) length)) }
{
    let mut runs: Vec<Run> = Vec::new(alloc);
    let mut a = Cursor::new(left.runs, left.from);
    let mut b = Cursor::new(right.runs, right.from);
    let mut at: u32 = 0;
    while at < length {
        let most = length - at;
        let step = a.steady(most).min(b.steady(most));
        extend(&mut runs, joined(junction, a.on, b.on), step)?;
        if runs.len() > MOST_RUNS {
            return Ok(None);
        }
        a.advance(step);
        b.advance(step);
        at += step;
    }
    Ok(Some(runs))
}

// How many runs the first flags of two lines have that are joined.
pub(crate) fn count_joined(junction: Junction, left: Line, right: Line, length: u32) -> u32
    requires left { IsTrue (is_pattern left.runs.now) }
    requires right { IsTrue (is_pattern right.runs.now) }
    requires within { (left.from < total left.runs.now) × (right.from < total right.runs.now) }
    requires small { length ≤ 527_040 }
    ensures { result
        ≡ count_of (runs_of
        (side_by_side junction left.entry.runs.now left.entry.from right.entry.runs.now right.entry.from) length) }
{
    let mut count: u32 = 0;
    let mut last: Option<bool> = None;
    let mut a = Cursor::new(left.runs, left.from);
    let mut b = Cursor::new(right.runs, right.from);
    let mut at: u32 = 0;
    while at < length {
        let most = length - at;
        let step = a.steady(most).min(b.steady(most));
        let on = joined(junction, a.on, b.on);
        if !goes_on(last, on) {
            count += 1;
        }
        last = Some(on);
        a.advance(step);
        b.advance(step);
        at += step;
    }
    count
}

// Whether the last flag, if there is one, is this one.
fn goes_on(last: Option<bool>, on: bool) -> bool
    ensures { IsTrue result ↔ (last ≡ Some on) }
{
    match last {
        Some(flag) => flag == on,
        None => false,
    }
}

// Puts intervals of one flag at the end of runs.
pub(crate) fn extend(runs: &mut Vec<Run>, on: bool, count: u32) -> Result<(), AllocError>
    requires { sum_by (λ r. r.count) runs.old.items + count < 2 ^ 32 }
    ensures ok { OnOk result (runs.new.items ≡ extended runs.old.items on count) }
{
    if ends_on(runs, on) {
        let last = runs.len() - 1;
        let run = run_at(runs, last);
        runs[last] = Run {
            on: run.on,
            count: run.count + count,
        };
        return Ok(());
    }
    runs.push(Run { on, count })?;
    Ok(())
}

// Whether the last run has this flag.
fn ends_on(runs: &[Run], on: bool) -> bool
    ensures same { result ≡ ends_on runs.now on }
    ensures some { IsTrue result → 0 < count_of runs.now }
{
    if runs.len() == 0 {
        return false;
    }
    let last = run_at(runs, runs.len() - 1);
    last.on == on
}

fn joined(junction: Junction, a: bool, b: bool) -> bool
    ensures { result ≡ joined junction a b }
{
    match junction {
        Junction::And => a && b,
        Junction::Or => a || b,
    }
}
