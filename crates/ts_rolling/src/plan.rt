// What a put into a rolling set asks for.
ghost use Rattle.std.specs.Prelude.{◌≡◌, ◌<◌, ◌≤◌, Ok, IfOk, IfErr, length, take, filter};
ghost use Rattle.std.specs.List.Sorted.{IsStrictlyIncreasing};
ghost use Rattle.ts_base.specs.Answer.{Fails};
ghost use Rattle.ts_rolling.specs.Sets.{a_plan, planned, plan_for, greatest, is_old, is_gone, later};

use std::alloc::{AllocError, Global};
use ts_base::{Refusal, Stamp, Trouble};
use ts_offset::Grid;

/// What a put asks for: the window of its stamp, whether that one is to be made, and the live windows that go, the
/// least first.
#[derive(Debug, Drop)]
pub struct Plan {
    pub window: u64,
    pub attach: bool,
    pub purge: Vec<u64>,
}

/// The plan for a put at a stamp into a set that keeps the last n windows of a grid, of which these are live, the least
/// first. OffStamp and BeforeOrigin are the grid's. WindowGone comes where a live window lies n or more behind that of
/// the stamp.
pub fn plan_put(
    alloc: Global,
    grid: &Grid,
    n: u16,
    live: &[u64],
    stamp: Stamp,
) -> Result<Plan, Trouble>
    requires rising { IsStrictlyIncreasing live.now }
    ensures ok { IfOk result (λ p. planned grid.now n live.now stamp ≡ Ok (a_plan p.window p.attach p.purge.items)) }
    ensures few { IfOk result (λ p. p.window < 1_000_000_000_000) }
    ensures cause { IfErr result (Fails (planned grid.now n live.now stamp)) }
{
    match grid.offset_of(stamp) {
        Ok(window) => plan_for(alloc, n as u64, live, window),
        Err(refusal) => Err(Trouble::Refused(refusal)),
    }
}

// The plan for a put into a window.
fn plan_for(alloc: Global, n: u64, live: &[u64], window: u64) -> Result<Plan, Trouble>
    requires { IsStrictlyIncreasing live.now }
    ensures ok { IfOk result (λ p. plan_for n live.now window ≡ Ok (a_plan p.window p.attach p.purge.items)) }
    ensures window { IfOk result (λ p. p.window ≡ window) }
    ensures cause { IfErr result (Fails (plan_for n live.now window)) }
{
    let newest = newest_of(live);
    if is_gone(n, live, window) {
        return Err(Trouble::Refused(Refusal::WindowGone { newest }));
    }
    let attach = !live.contains(&window);
    let purge = old_of(alloc, n, later(newest, window), live)?;
    Ok(Plan {
        window,
        attach,
        purge,
    })
}

// Whether a window is older than those that are kept beside the live ones.
fn is_gone(n: u64, live: &[u64], window: u64) -> bool
    requires { IsStrictlyIncreasing live.now }
    ensures { result ≡ is_gone n live.now window }
{
    !live.is_empty() && is_old(n, newest_of(live), window)
}

// The last of rising windows; 0 of none.
#[tactic(auto, using(crate::proofs::PlanLemmas::greatest_last))]
fn newest_of(live: &[u64]) -> u64
    requires { IsStrictlyIncreasing live.now }
    ensures { result ≡ greatest live.now }
{
    let count = live.len();
    if count == 0 { 0 } else { live[count - 1] }
}

// The later of two windows.
fn later(j: u64, k: u64) -> u64
    ensures { result ≡ later j k }
{
    if j < k { k } else { j }
}

// The old ones of rising windows, where the newest is `top`.
fn old_of(alloc: Global, n: u64, top: u64, live: &[u64]) -> Result<Vec<u64>, AllocError>
    requires { IsStrictlyIncreasing live.now }
    ensures { IfOk result (λ old. old.items ≡ filter (is_old n top) live.now) }
{
    Vec::from_slice(alloc, &live[..count_old(n, top, live)])
}

// How many of rising windows are old: those in front.
#[tactic(auto, using(crate::proofs::PlanLemmas::old_front))]
fn count_old(n: u64, top: u64, live: &[u64]) -> usize
    requires { IsStrictlyIncreasing live.now }
    ensures within { result ≤ length live.now }
    ensures front { take result live.now ≡ filter (is_old n top) live.now }
{
    for (i, window) in live.iter().enumerate() {
        if !is_old(n, top, *window) {
            return i;
        }
    }
    live.len()
}

// Whether a window is none of the last n that end with `top`.
fn is_old(n: u64, top: u64, window: u64) -> bool
    ensures { result ≡ is_old n top window }
{
    n <= top && window <= top - n
}
