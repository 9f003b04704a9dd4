// Runs as a list: their length, their flags, and what becomes of each run.
ghost use Rattle.std.specs.Prelude.{◌≡◌, ℕ, ◌+◌, ◌-◌, ◌*◌, ◌<◌, ◌≤◌, ◌↔◌, length, IsTrue, IsSome, IfSome, IfOk, map};
ghost use Rattle.ts_pattern.specs.Patterns.{total, flag_at, is_pattern, turned, scaled, has_on};

use crate::Run;
use crate::pattern::{MOST_INTERVALS, MOST_RUNS};
use std::alloc::{AllocError, Global};

// The length of runs that make a pattern.
pub(crate) fn checked_length(runs: &[Run]) -> Option<u32>
    ensures within { IsSome result ↔ IsTrue (is_pattern runs.now) }
    ensures value { IfSome result (λ n. n ≡ total runs.now) }
{
    if runs.is_empty() || runs.len() > MOST_RUNS {
        return None;
    }
    let mut length: u32 = 0;
    let mut last: Option<bool> = None;
    for run in runs {
        if run.count == 0 || run.count > MOST_INTERVALS - length || last == Some(run.on) {
            return None;
        }
        length += run.count;
        last = Some(run.on);
    }
    Some(length)
}

// The flag of an interval of runs.
pub(crate) fn flag_of(runs: &[Run], at: u32) -> bool
    requires { at < total runs.now }
    ensures { result ≡ flag_at runs.now at }
{
    let mut rest = at;
    for run in runs {
        if rest < run.count {
            return run.on;
        }
        rest -= run.count;
    }
    unreachable!()
}

// Whether a run is on.
pub(crate) fn has_on(runs: &[Run]) -> bool
    ensures { result ≡ has_on runs.now }
{
    runs.iter().any(|run| run.on)
}

pub(crate) fn turned_runs(alloc: Global, runs: &[Run]) -> Result<Vec<Run>, AllocError>
    ensures { IfOk result (λ v. v.items ≡ map turned runs.now) }
{
    runs.iter().map(|run| turned(*run)).collect(alloc)
}

fn turned(run: Run) -> Run
    ensures { result ≡ turned run }
{
    Run {
        on: !run.on,
        count: run.count,
    }
}

// The runs in intervals of which `parts` make one of before.
pub(crate) fn scaled_runs(alloc: Global, runs: &[Run], parts: u32) -> Result<Vec<Run>, AllocError>
    requires some { 0 < parts }
    requires small { total runs.now * parts ≤ 527_040 }
    ensures { IfOk result (λ v. v.items ≡ map (scaled parts) runs.now) }
{
    let mut all = Vec::with_capacity(alloc, runs.len())?;
    for run in runs {
        all.push(scaled(*run, parts))?;
    }
    Ok(all)
}

fn scaled(run: Run, parts: u32) -> Run
    requires { run.count * parts ≤ 527_040 }
    ensures { result ≡ scaled parts run }
{
    Run {
        on: run.on,
        count: run.count * parts,
    }
}
