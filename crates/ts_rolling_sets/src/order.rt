// Searches among the series in the order of their keys.
ghost use Rattle.std.specs.Prelude.{◌≡◌, ◌<◌, ◌≤◌, ◌++◌, ℕ, Option, None, true, EachIndex, drop, length, slice_index};
ghost use Rattle.std.specs.List.{filter_map};
ghost use Rattle.std.specs.Ordering.{is_lt};
ghost use Rattle.ts_model.specs.Catalogue.{name_cmp};
ghost use Rattle.ts_model.specs.Definitions.{series_slots};
ghost use Rattle.ts_rolling_sets.specs.InMemory.{in_order};
ghost use Rattle.ts_rolling_sets.specs.Order.{is_below, IsPlace};

use ts_model::{Def, Defs, Kind};

/// The slots of the series in front of a place whose keys aren't below two texts, one behind the other, in the order of
/// their keys. Nothing that is picked of all series alone by such keys is missed.
pub(crate) fn series_before<'a>(defs: &'a Defs, end: usize, front: &[u8], low: &[u8]) -> &'a [u16]
    requires { end ≤ length (in_order defs.now.definitions) }
    ensures within { EachIndex result.now (λ k. slice_index result.now k < series_slots) }
    ensures picked { (pick : ℕ → Option ℕ)
        → ((slot : ℕ) → is_below defs.now.definitions (front.now ++ low.now) slot ≡ true → pick slot ≡ None)
        → ((k : ℕ) → end ≤ k → k < length (in_order defs.now.definitions)
        → pick (slice_index (in_order defs.now.definitions) k) ≡ None)
        → filter_map pick result.now ≡ filter_map pick (in_order defs.now.definitions) }
{
    let below = &defs.in_order(Kind::Series)[..end];
    let start = place_of(defs, front, low);
    &below[start.min(end)..]
}

/// The slots of the series from a place on, in the order of their keys.
pub(crate) fn series_from(defs: &Defs, place: usize) -> &[u16]
    requires { place ≤ length (in_order defs.now.definitions) }
    ensures within { EachIndex result.now (λ k. slice_index result.now k < series_slots) }
    ensures rest { result.now ≡ drop place (in_order defs.now.definitions) }
{
    let order = defs.in_order(Kind::Series);
    &order[place..]
}

/// How many series have a key below two texts, one behind the other.
pub(crate) fn place_of(defs: &Defs, front: &[u8], rest: &[u8]) -> usize
    ensures { IsPlace defs.now.definitions (front.now ++ rest.now) result }
{
    let order = defs.in_order(Kind::Series);
    let mut low = 0;
    let mut high = order.len();
    while low < high {
        let middle = low + (high - low) / 2;
        if is_below(defs, order[middle], front, rest) {
            low = middle + 1;
        } else {
            high = middle;
        }
    }
    low
}

/// Whether the series in a slot has a key below two texts, one behind the other.
pub(crate) fn is_below(defs: &Defs, slot: u16, front: &[u8], rest: &[u8]) -> bool
    requires { slot < series_slots }
    ensures { result ≡ is_below defs.now.definitions (front.now ++ rest.now) slot }
{
    match defs.get(Kind::Series, slot) {
        Some(Def::Series { key, .. }) => comes_before(key.as_slice(), front, rest),
        _ => false,
    }
}

// Whether a key is below two texts, one behind the other.
fn comes_before(key: &[u8], front: &[u8], rest: &[u8]) -> bool
    ensures { result ≡ is_lt (name_cmp key.now (front.now ++ rest.now)) }
{
    match key.strip_prefix(front) {
        Some(tail) => tail.cmp(rest).is_lt(),
        None => key.cmp(front).is_lt(),
    }
}
