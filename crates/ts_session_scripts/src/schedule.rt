// Whose turn it is.
ghost use Rattle.std.specs.Prelude.{◌≡◌, ◌<◌, ◌==◌, not, [], IfSome, count_by, length, map, slice_get, slice_index_or};
ghost use Rattle.ts_multi.specs.Schedule.{waiting, next_session};

use crate::script::Script;

/// The session on which a pick falls, counted from 0 among all: of those that have items left the one at the place that
/// the pick gives; None where none has any.
pub fn next_session(pick: u32, scripts: &[Script]) -> Option<usize>
    ensures chosen { result ≡ next_session pick (map length scripts.now) }
    ensures waits { IfSome result (λ who. (who < length scripts.now)
        × (0 < length (slice_index_or scripts.now who []))) }
{
    let count = count_waiting(scripts);
    if count == 0 {
        return None;
    }
    waiting_at(scripts, pick as usize % count)
}

// How many sessions have items left.
fn count_waiting(scripts: &[Script]) -> usize
    ensures { result ≡ count_by (λ items. not (length items == 0)) scripts.now }
{
    scripts.iter().filter(|script| script.left() != 0).count()
}

// The session at a place among those that have items left.
fn waiting_at(scripts: &[Script], place: usize) -> Option<usize>
    ensures value { result ≡ slice_get (waiting 0 (map length scripts.now)) place }
    ensures waits { IfSome result (λ who. (who < length scripts.now)
        × (0 < length (slice_index_or scripts.now who []))) }
{
    let mut passed = 0;
    for (who, script) in scripts.iter().enumerate() {
        if script.left() == 0 {
            continue;
        }
        if passed == place {
            return Some(who);
        }
        passed += 1;
    }
    None
}
