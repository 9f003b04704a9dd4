// The places of a series that tell of the elements of a range.
ghost use Rattle.std.specs.Prelude.{◌≡◌, ◌-◌, ◌≤◌, ◌<ℤ◌, ◌≤ℤ◌, IsTrue, false, length, take, drop};
ghost use Rattle.ts_space.specs.Place.{IsRising, count_of};
ghost use Rattle.ts_base.specs.Answer.{most_rows};
ghost use Rattle.ts_clip.specs.Chain.{AreBounded, HaveRange};

use crate::bounds::MOST_ROWS;
use ts_base::Stamp;
use ts_chain::holder;
use ts_space::Place;

/// The places of the pages on which the elements from one stamp to another stand: those from one index on and before
/// another.
pub(crate) fn places_between(places: &[Place], from: Stamp, to: Stamp) -> (usize, usize)
    requires { IsRising places.now }
    ensures order { result.0 ≤ result.1 }
    ensures within { result.1 ≤ length places.now }
    ensures range { HaveRange from to places.now result.0 result.1 }
    ensures bounded { AreBounded from to (take (result.1 - result.0) (drop result.0 places.now)) }
{
    if is_earlier(to, from) {
        return (0, 0);
    }
    let Some(last) = holder(places, to) else {
        return (0, 0);
    };
    match holder(places, from) {
        Some(first) => (first, last + 1),
        None => (0, last + 1),
    }
}

// Whether a stamp is earlier than another.
fn is_earlier(stamp: Stamp, other: Stamp) -> bool
    ensures yes { IsTrue result → stamp <ℤ other }
    ensures no { result ≡ false → other ≤ℤ stamp }
{
    stamp.units() < other.units()
}

/// Whether places tell of no more elements than a reply may have rows.
pub(crate) fn are_few(places: &[Place]) -> bool
    ensures { IsTrue result → count_of places.now ≤ most_rows }
{
    let mut count = 0;
    for place in places {
        count += u64::from(place.count);
        if count > MOST_ROWS {
            return false;
        }
    }
    true
}
