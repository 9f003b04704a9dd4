// The controls and windows of a set among the definitions.
ghost use Rattle.std.specs.Prelude.{◌≡◌, ◌≤◌, ◌<◌, ◌++◌, ◌∷◌, [], IfOk, IfSome, OnOk, codes, slice_get};
ghost use Rattle.std.specs.Prelude.{if◌then◌else◌, option_to_list};
ghost use Rattle.std.specs.Option.{option_map};
ghost use Rattle.ts_model.specs.Definitions.{series_slots};
ghost use Rattle.ts_rolling.specs.Sets.{control_key, window_key, read_control, read_window};
ghost use Rattle.ts_rolling_sets.specs.InMemory.{IsKeyIn, control_at, window_at, kept_in, live_in};
ghost use Rattle.ts_rolling_sets.specs.Order.{IsPlace};
ghost use Rattle.ts_rolling_sets.specs.Windows.{window_slots_in};

use crate::order::{is_below, place_of, series_from};
use std::alloc::{AllocError, Global};
use ts_base::Key;
use ts_model::{Def, Defs, Kind};
use ts_rolling::{read_control, read_window};

/// The control of a set among the definitions: how many windows it keeps, and its series.
#[derive(Clone, Copy)]
pub(crate) struct KeptBy<'a> {
    pub(crate) kept: u16,
    pub(crate) slot: u16,
    pub(crate) key: &'a Key,
}

/// A window of a set: its number, and the key of its series.
#[derive(Clone, Copy)]
pub(crate) struct Window<'a> {
    pub(crate) number: u64,
    pub(crate) key: &'a Key,
}

/// Where the controls of a set stand in the order of keys, and its windows in front of them.
pub(crate) fn controls_place(defs: &Defs, set: &Key) -> usize
    ensures { IsPlace defs.now.definitions (set.now ++ codes "#w") result }
{
    place_of(defs, set.as_slice(), b"#w")
}

/// How many windows a set keeps, by its control with the least key; none where there is no control.
pub(crate) fn kept_by(defs: &Defs, set: &Key) -> Option<u16>
    ensures value { result ≡ slice_get (kept_in defs.now.definitions set.now) 0 }
    ensures few { IfSome result (λ n. (1 ≤ n) × (n ≤ 1000)) }
{
    match first_control(defs, set, controls_place(defs, set)) {
        Some(control) => Some(control.kept),
        None => None,
    }
}

/// The control of a set with the least key, where those of the set stand from a place on.
pub(crate) fn first_control<'a>(defs: &'a Defs, set: &Key, place: usize) -> Option<KeptBy<'a>>
    requires { IsPlace defs.now.definitions (set.now ++ codes "#w") place }
    ensures value { option_map (λ c. c.kept) result ≡ slice_get (kept_in defs.now.definitions set.now) 0 }
    ensures few { IfSome result (λ c. (1 ≤ c.kept) × (c.kept ≤ 1000)) }
    ensures key { IfSome result (λ c. c.key.now ≡ control_key set.now c.kept) }
    ensures there { IfSome result (λ c. IsKeyIn defs.now.definitions c.slot c.key.now) }
{
    for slot in series_from(defs, place) {
        if let Some(control) = control_in(defs, set, *slot) {
            return Some(control);
        }
        if !is_below(defs, *slot, set.as_slice(), b"#x") {
            return None;
        }
    }
    None
}

// The series in a slot as a control of a set, if it is one.
fn control_in<'a>(defs: &'a Defs, set: &Key, slot: u16) -> Option<KeptBy<'a>>
    requires { slot < series_slots }
    ensures value { option_map (λ c. c.kept) result ≡ control_at defs.now.definitions set.now slot }
    ensures few { IfSome result (λ c. (1 ≤ c.kept) × (c.kept ≤ 1000)) }
    ensures key { IfSome result (λ c. c.key.now ≡ control_key set.now c.kept) }
    ensures there { IfSome result (λ c. IsKeyIn defs.now.definitions c.slot c.key.now) }
{
    match defs.get(Kind::Series, slot) {
        Some(Def::Series { key, .. }) => as_control(slot, key, set),
        _ => None,
    }
}

// A series of a key as a control of a set, if its key is that of one.
fn as_control<'a>(slot: u16, key: &'a Key, set: &Key) -> Option<KeptBy<'a>>
    ensures value { option_map (λ c. c.kept) result ≡ read_control key.now set.now }
    ensures few { IfSome result (λ c. (1 ≤ c.kept) × (c.kept ≤ 1000)) }
    ensures key { IfSome result (λ c. c.key.now ≡ control_key set.now c.kept) }
    ensures own { IfSome result (λ c. (c.slot ≡ slot) × (c.key.now ≡ key.now)) }
{
    match read_control(key, set) {
        Some(kept) => Some(KeptBy { kept, slot, key }),
        None => None,
    }
}

/// The numbers of the windows of a set in the container in a slot, in the order of their keys.
pub(crate) fn live_windows(
    alloc: Global,
    defs: &Defs,
    set: &Key,
    container: u8,
) -> Result<Vec<u64>, AllocError>
    ensures { IfOk result (λ live. live.items ≡ live_in defs.now.definitions set.now container) }
{
    let mut live = Vec::new(alloc);
    for slot in defs.in_order(Kind::Series) {
        add_window(&mut live, window_at(defs, set, container, *slot))?;
    }
    Ok(live)
}

/// The number of the window in a slot, if that is one of the set in the container.
pub(crate) fn window_at(defs: &Defs, set: &Key, container: u8, slot: u16) -> Option<u64>
    requires { slot < series_slots }
    ensures { result ≡ window_at defs.now.definitions set.now container slot }
{
    match defs.get(Kind::Series, slot) {
        Some(
            Def::Series {
                key,
                container: own,
                regular: None,
            },
        ) if *own == container => read_window(key, set),
        _ => None,
    }
}

/// The same with the key of its series.
pub(crate) fn window_in<'a>(
    defs: &'a Defs,
    set: &Key,
    container: u8,
    slot: u16,
) -> Option<Window<'a>>
    requires { slot < series_slots }
    ensures value { option_map (λ w. w.number) result ≡ window_at defs.now.definitions set.now container slot }
    ensures key { IfSome result (λ w. w.key.now ≡ window_key set.now w.number) }
{
    match defs.get(Kind::Series, slot) {
        Some(
            Def::Series {
                key,
                container: own,
                regular: None,
            },
        ) if *own == container => as_window(key, set),
        _ => None,
    }
}

// A series of a key as a window of a set, if its key is that of one.
fn as_window<'a>(key: &'a Key, set: &Key) -> Option<Window<'a>>
    ensures value { option_map (λ w. w.number) result ≡ read_window key.now set.now }
    ensures key { IfSome result (λ w. w.key.now ≡ window_key set.now w.number) }
{
    match read_window(key, set) {
        Some(number) => Some(Window { number, key }),
        None => None,
    }
}

/// One window more, if it is one.
pub(crate) fn add_window(live: &mut Vec<u64>, window: Option<u64>) -> Result<(), AllocError>
    ensures { OnOk result (live.new.items ≡ live.old.items ++ option_to_list window) }
{
    if let Some(window) = window {
        live.push(window)?;
    }
    Ok(())
}

/// The slots of the windows of a set in the container in a slot, in the order of their keys.
pub(crate) fn window_slots(
    alloc: Global,
    defs: &Defs,
    set: &Key,
    container: u8,
) -> Result<Vec<u16>, AllocError>
    ensures { IfOk result (λ slots. slots.items ≡ window_slots_in defs.now.definitions set.now container) }
{
    let mut slots = Vec::new(alloc);
    for slot in defs.in_order(Kind::Series) {
        let is = window_at(defs, set, container, *slot).is_some();
        add_slot(&mut slots, is, *slot)?;
    }
    Ok(slots)
}

// One slot more, if a window stands in it.
fn add_slot(slots: &mut Vec<u16>, is: bool, slot: u16) -> Result<(), AllocError>
    ensures { OnOk result (slots.new.items ≡ slots.old.items ++ (if is then slot ∷ [] else [])) }
{
    if is {
        slots.push(slot)?;
    }
    Ok(())
}
