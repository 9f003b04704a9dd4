// A pattern without its name in bytes: its unit, how many runs it has, these.
ghost use Rattle.std.specs.Prelude.{◌≡◌, ◌+◌, ◌*◌, ◌≤◌, ◌<◌, ◌^◌, ◌++◌, ℕ, List, Some, IsTrue, IfOk, length};
ghost use Rattle.std.specs.List.{flat_map};
ghost use Rattle.std.specs.Int.{w16, to_be_bytes};
ghost use Rattle.ts_base.specs.declared.unit.Unit as unit;
ghost use Rattle.ts_pattern.specs.declared.run.Run as run;
ghost use Rattle.ts_pattern.specs.Patterns as plan;
ghost use Rattle.ts_pattern.specs.Patterns.{total, is_pattern};
ghost use Rattle.ts_layout.specs.Slot.{padded, unit_code, run_number, run_bytes, plan_bytes};

use crate::pad::pad;
use std::alloc::{AllocError, Global};
use ts_base::Unit;
use ts_pattern::{MOST_RUNS, Pattern, Run};

/// The bytes of a run.
const RUN: usize = 4;

/// The highest of 32 bits: it is set where a run is on.
const ON: u32 = 0x8000_0000;

/// Writes a pattern, and zeros behind it.
pub(crate) fn write_plan(pattern: &Pattern, into: &mut [u8])
    requires { 3 + 4 * 512 ≤ length into.old }
    ensures { into.new ≡ padded (length into.old) (plan_bytes pattern.now) }
{
    into[0] = unit_code(pattern.unit());
    write_counted(pattern.runs(), &mut into[1..]);
}

// Writes how many runs there are, these, and zeros behind them.
fn write_counted(runs: &[Run], into: &mut [u8])
    requires runs { IsTrue (is_pattern runs.now) }
    requires room { 2 + 4 * 512 ≤ length into.old }
    ensures { into.new ≡ padded (length into.old) (to_be_bytes w16 (length runs.now) ++ flat_map run_bytes runs.now) }
{
    let count = runs.len() as u16;
    into[..2].copy_from_slice(&count.to_be_bytes());
    write_runs(runs, &mut into[2..]);
}

// Writes runs, and zeros behind them.
fn write_runs(runs: &[Run], into: &mut [u8])
    requires short { total runs.now < 2 ^ 31 }
    requires room { 4 * length runs.now ≤ length into.old }
    ensures { into.new ≡ padded (length into.old) (flat_map run_bytes runs.now) }
{
    let Some((run, runs)) = runs.split_first() else {
        pad(&[], into);
        return;
    };
    into[..RUN].copy_from_slice(&number_of(*run).to_be_bytes());
    write_runs(runs, &mut into[RUN..]);
}

// A run as a number.
fn number_of(run: Run) -> u32
    requires { run.count < 2 ^ 31 }
    ensures { result ≡ run_number run }
{
    if run.on {
        return ON + run.count;
    }
    run.count
}

fn unit_code(unit: Unit) -> u8
    ensures { result ≡ unit_code unit }
{
    match unit {
        Unit::Second => 0,
        Unit::Minute => 1,
        Unit::Hour => 2,
        Unit::Day => 3,
        Unit::Week => 4,
        Unit::Month => 5,
        Unit::Year => 6,
    }
}

/// The one pattern with whose bytes these may begin.
pub(crate) fn parse_plan(alloc: Global, bytes: &[u8]) -> Result<Option<Pattern>, AllocError>
    requires { 3 + 4 * 512 ≤ length bytes.now }
    ensures { IfOk result (λ found. (p : plan.Plan) (rest : List ℕ) → IsTrue (is_pattern p.runs)
        → bytes.now ≡ plan_bytes p ++ rest
        → found ≡ Some p) }
{
    let Some(unit) = unit_of(bytes[0]) else {
        return Ok(None);
    };
    let count = u16::from_be_bytes([bytes[1], bytes[2]]) as usize;
    if count > MOST_RUNS {
        return Ok(None);
    }
    let runs = parse_runs(alloc, count, &bytes[3..])?;
    Ok(Pattern::of_runs(unit, runs))
}

// The runs that bytes may begin with, so many.
fn parse_runs(alloc: Global, count: usize, bytes: &[u8]) -> Result<Vec<Run>, AllocError>
    requires { 4 * count ≤ length bytes.now }
    ensures { IfOk result (λ found. (runs : List run.Run) (rest : List ℕ) → length runs ≡ count → total runs < 2 ^ 31
        → bytes.now ≡ flat_map run_bytes runs ++ rest → found.items ≡ runs) }
{
    let mut runs = Vec::with_capacity(alloc, count)?;
    for i in 0..count {
        runs.push(parse_run(&bytes[RUN * i..RUN * i + RUN]))?;
    }
    Ok(runs)
}

// The one run whose 4 bytes these may be.
fn parse_run(bytes: &[u8]) -> Run
    requires { length bytes.now ≡ 4 }
    ensures { (r : run.Run) → r.count < 2 ^ 31 → bytes.now ≡ run_bytes r → result ≡ r }
{
    let number = u32::from_be_bytes([bytes[0], bytes[1], bytes[2], bytes[3]]);
    run_of(number)
}

// The one run of a number.
fn run_of(number: u32) -> Run
    ensures { (r : run.Run) → r.count < 2 ^ 31 → number ≡ run_number r → result ≡ r }
{
    if number >= ON {
        return Run {
            on: true,
            count: number - ON,
        };
    }
    Run {
        on: false,
        count: number,
    }
}

// The one unit of a number.
fn unit_of(code: u8) -> Option<Unit>
    ensures { (u : unit.Unit) → code ≡ unit_code u → result ≡ Some u }
{
    match code {
        0 => Some(Unit::Second),
        1 => Some(Unit::Minute),
        2 => Some(Unit::Hour),
        3 => Some(Unit::Day),
        4 => Some(Unit::Week),
        5 => Some(Unit::Month),
        6 => Some(Unit::Year),
        _ => None,
    }
}
