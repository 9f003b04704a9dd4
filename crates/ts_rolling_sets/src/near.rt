// The plan of a put among the windows of a set: the newest of them, the old ones in front and its own are looked up
// alone, however many windows there are.
ghost use Rattle.std.specs.Prelude.{◌≡◌, ◌<◌, ◌≤◌, ◌++◌, ◌==◌, is_none, not, codes, Ok, IfErr, length, filter};
ghost use Rattle.std.specs.Prelude.{option_to_list, EachIndex, IfOk, IfSome, None, Some, if◌then◌else◌, slice_index};
ghost use Rattle.std.specs.Option.{option_copied, option_map};
ghost use Rattle.std.specs.List.{list_any, filter_map};
ghost use Rattle.std.specs.List.Sorted.{IsStrictlyIncreasing};
ghost use Rattle.ts_base.specs.Answer.{Fails};
ghost use Rattle.ts_model.specs.Definitions.{series_slots};
ghost use Rattle.ts_rolling.specs.Sets.{window_key, a_plan, is_old, later, plan_for, planned};
ghost use Rattle.ts_rolling_sets.specs.InMemory.{window_at, live_in};
ghost use Rattle.ts_rolling_sets.specs.Near.{newest, key_if};
ghost use Rattle.ts_rolling_sets.specs.Order.{IsPlace};

use crate::live::{Window, add_window, window_at, window_in};
use crate::order::{place_of, series_before};
use std::alloc::{AllocError, Global};
use ts_base::{Key, Refusal, Stamp, Trouble};
use ts_model::{Defs, Kind};
use ts_offset::Grid;
use ts_rolling::{Plan, window_key};

/// A plan, and the key of its window where that one is there.
#[derive(Drop)]
pub(crate) struct PlanNear<'a> {
    pub(crate) plan: Plan,
    pub(crate) own: Option<&'a Key>,
}

/// The plan for a put at a stamp into a set that keeps the last n windows of a grid, in the container in a slot; the
/// windows stand in front of a place. OffStamp and BeforeOrigin are the grid's. WindowGone comes where a live window
/// lies n or more behind that of the stamp.
pub(crate) fn plan_near<'a>(
    alloc: Global,
    defs: &'a Defs,
    set: &Key,
    container: u8,
    place: usize,
    grid: &Grid,
    n: u16,
    stamp: Stamp,
) -> Result<PlanNear<'a>, Trouble>
    requires short { length set.now ≤ 40 }
    requires place { IsPlace defs.now.definitions (set.now ++ codes "#w") place }
    requires rising { IsStrictlyIncreasing (live_in defs.now.definitions set.now container) }
    ensures ok { IfOk result (λ p. planned grid.now n (live_in defs.now.definitions set.now container) stamp
        ≡ Ok (a_plan p.plan.window p.plan.attach p.plan.purge.items)) }
    ensures own { IfOk result (λ p. option_copied p.own ≡ key_if set.now p.plan.window (not p.plan.attach)) }
    ensures few { IfOk result (λ p. p.plan.window < 1_000_000_000_000) }
    ensures cause { IfErr result
        (Fails (planned grid.now n (live_in defs.now.definitions set.now container) stamp)) }
{
    match grid.offset_of(stamp) {
        Ok(window) => plan_at(alloc, defs, set, container, place, n, window),
        Err(refusal) => Err(Trouble::Refused(refusal)),
    }
}

// The same for a put into a window.
fn plan_at<'a>(
    alloc: Global,
    defs: &'a Defs,
    set: &Key,
    container: u8,
    place: usize,
    n: u16,
    window: u64,
) -> Result<PlanNear<'a>, Trouble>
    requires short { length set.now ≤ 40 }
    requires few { window < 1_000_000_000_000 }
    requires place { IsPlace defs.now.definitions (set.now ++ codes "#w") place }
    requires rising { IsStrictlyIncreasing (live_in defs.now.definitions set.now container) }
    ensures ok { IfOk result (λ p. plan_for n (live_in defs.now.definitions set.now container) window
        ≡ Ok (a_plan p.plan.window p.plan.attach p.plan.purge.items)) }
    ensures window { IfOk result (λ p. p.plan.window ≡ window) }
    ensures own { IfOk result (λ p. option_copied p.own ≡ key_if set.now p.plan.window (not p.plan.attach)) }
    ensures cause { IfErr result (Fails (plan_for n (live_in defs.now.definitions set.now container) window)) }
{
    let slots = series_before(defs, place, set.as_slice(), b"#");
    let Some(newest) = newest_of(defs, set, container, slots) else {
        let none = Vec::new(alloc);
        let first = plan_of(window, None, none);
        return Ok(first);
    };
    if is_old(n, newest.number, window) {
        return Err(Trouble::Refused(Refusal::WindowGone {
            newest: newest.number,
        }));
    }
    let purge = old_of(
        alloc,
        defs,
        set,
        container,
        n,
        later(newest.number, window),
        slots,
    )?;
    let own = own_of(alloc, defs, set, container, newest, window)?;
    let made = plan_of(window, own, purge);
    Ok(made)
}

// A plan, by the key of the window where that one is there.
fn plan_of<'a>(window: u64, own: Option<&'a Key>, purge: Vec<u64>) -> PlanNear<'a>
    ensures window { result.plan.window ≡ window }
    ensures attach { result.plan.attach ≡ is_none (option_copied own.entry) }
    ensures purge { result.plan.purge.items ≡ purge.items }
    ensures own { option_copied result.own ≡ option_copied own.entry }
{
    let attach = own.is_none();
    PlanNear {
        plan: Plan {
            window,
            attach,
            purge,
        },
        own,
    }
}

// The newest of the windows in some slots.
fn newest_of<'a>(defs: &'a Defs, set: &Key, container: u8, slots: &[u16]) -> Option<Window<'a>>
    requires within { EachIndex slots.now (λ k. slice_index slots.now k < series_slots) }
    requires rising { IsStrictlyIncreasing
        (filter_map (window_at defs.now.definitions set.now container) slots.now) }
    ensures value { option_map (λ w. w.number) result
        ≡ newest (filter_map (window_at defs.now.definitions set.now container) slots.now) }
    ensures key { IfSome result (λ w. w.key.now ≡ window_key set.now w.number) }
{
    let mut end = slots.len();
    while end > 0 {
        end -= 1;
        if let Some(window) = window_in(defs, set, container, slots[end]) {
            return Some(window);
        }
    }
    None
}

// The old ones of the windows in some slots, where the newest is `top`.
fn old_of(
    alloc: Global,
    defs: &Defs,
    set: &Key,
    container: u8,
    n: u16,
    top: u64,
    slots: &[u16],
) -> Result<Vec<u64>, AllocError>
    requires within { EachIndex slots.now (λ k. slice_index slots.now k < series_slots) }
    requires rising { IsStrictlyIncreasing
        (filter_map (window_at defs.now.definitions set.now container) slots.now) }
    ensures { IfOk result (λ old. old.items ≡ filter (is_old n top)
        (filter_map (window_at defs.now.definitions set.now container) slots.now)) }
{
    let mut old = Vec::new(alloc);
    for slot in slots {
        let window = window_at(defs, set, container, *slot);
        if is_kept(n, top, window) {
            return Ok(old);
        }
        add_window(&mut old, window)?;
    }
    Ok(old)
}

// The key of a window, where that one is live; the newest of those that are is known.
fn own_of<'a>(
    alloc: Global,
    defs: &'a Defs,
    set: &Key,
    container: u8,
    last: Window<'a>,
    window: u64,
) -> Result<Option<&'a Key>, AllocError>
    requires short { length set.now ≤ 40 }
    requires few { window < 1_000_000_000_000 }
    requires newest { newest (live_in defs.now.definitions set.now container) ≡ Some last.number }
    requires key { last.key.now ≡ window_key set.now last.number }
    ensures { IfOk result (λ own. option_copied own ≡ key_if set.now window
        (list_any (λ k. k == window) (live_in defs.now.definitions set.now container))) }
{
    if last.number == window {
        return Ok(Some(last.key));
    }
    if last.number < window {
        return Ok(None);
    }
    let text = window_key(alloc, set, window)?;
    Ok(live_key(defs, set, container, window, &text))
}

// The key of the window that has this text as its key, where that one is live.
fn live_key<'a>(
    defs: &'a Defs,
    set: &Key,
    container: u8,
    window: u64,
    text: &Key,
) -> Option<&'a Key>
    requires key { text.now ≡ window_key set.now window }
    requires few { window < 1_000_000_000_000 }
    ensures { option_copied result ≡ key_if set.now window
        (list_any (λ k. k == window) (live_in defs.now.definitions set.now container)) }
{
    let slots = defs.in_order(Kind::Series);
    let place = place_of(defs, text.as_slice(), b"");
    if place < slots.len() {
        key_of(window_in(defs, set, container, slots[place]), window)
    } else {
        None
    }
}

// The key of a window that was found, if it is the one of a number.
fn key_of<'a>(found: Option<Window<'a>>, window: u64) -> Option<&'a Key>
    ensures { option_copied result
        ≡ (if list_any (λ k. k == window) (option_to_list (option_map (λ w. w.number) found.entry))
        then option_map (λ w. w.key.now) found.entry else None) }
{
    match found {
        Some(other) if other.number == window => Some(other.key),
        _ => None,
    }
}

// Whether this is a window, and none of the old ones where the newest is `top`.
fn is_kept(n: u16, top: u64, window: Option<u64>) -> bool
    ensures { result ≡ list_any (λ k. not (is_old n top k)) (option_to_list window) }
{
    match window {
        Some(window) => !is_old(n, top, window),
        None => false,
    }
}

// Whether a window is none of the last n that end with `top`.
fn is_old(n: u16, top: u64, window: u64) -> bool
    ensures { result ≡ is_old n top window }
{
    let n = n as u64;
    n <= top && window <= top - n
}

// The later of two windows.
fn later(j: u64, k: u64) -> u64
    ensures { result ≡ later j k }
{
    if j < k { k } else { j }
}
