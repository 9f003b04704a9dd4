// All elements in a range of offsets are taken away.
ghost use Rattle.std.specs.Prelude.{◌≡◌, ◌+◌, ◌*◌, ◌-◌, ◌^◌, ◌<◌, ◌≤◌, pos, min, IfOk, OnOk, length};
ghost use Rattle.ts_space.specs.Place.{IsRising, count_of, rank_of};
ghost use Rattle.ts_space.specs.Moved.{list_of};
ghost use Rattle.ts_space.specs.Directory.{places_of};
ghost use Rattle.ts_page.specs.Pages.{Answered};
ghost use Rattle.ts_regular.specs.Places.{ArePlaces};
ghost use Rattle.ts_regular.specs.Range.{IsCleared};
ghost use Rattle.ts_regular.specs.Cut.{IsRange, cuts_of, gone_of, kept_of, recounted};

use crate::cell::base_of;
use crate::cut::{Left, cut_ends};
use crate::free::free_pages;
use std::alloc::Global;
use ts_base::StoreFault;
use ts_page::{Page, Pages};
use ts_row::{RowType, Shelf};
use ts_space::{Come, Moved, Place, Space, search};

/// Takes all elements from one offset up to, not including, another away, hidden or not; gives how many they were, and
/// which places go and come: none, and no page changes, where no element stands there. The pages of the two ends alone
/// are read, and at most these two are written; the head of each is compared with its place, and one that disagrees is
/// taken as a page without elements. A page that loses its last element is freed, and those between the ends are freed
/// unread. After an error pages may have changed in part. `page` is room to read one; the memory is for the numbers of
/// the pages that are freed, 4 bytes each.
pub fn regular_clear<P: Pages>(
    alloc: Global,
    pages: &mut P,
    page: &mut Page,
    space: &Space,
    shelf: &Shelf,
    from: u64,
    to: u64,
) -> Result<(u64, Option<Moved>), StoreFault>
    requires slot { shelf.now.series < 4096 }
    requires limit { to < 2 ^ 63 }
    requires places { ArePlaces shelf.now.kind.now.columns (P.contents pages.old)
        (places_of shelf.now.series space.now) }
    ensures ok { IfOk result (λ r. IsCleared P.tells shelf.now.series shelf.now.kind.now.columns from to
        (places_of shelf.now.series space.now)
        (P.contents pages.old) (P.contents pages.new) r.0 r.1) }
    ensures call { Answered result (P.contents pages.old) (P.contents pages.new) }
    ensures change { (P.contents pages.new).change_bytes
        ≤ (P.contents pages.old).change_bytes + 8202 + 5 * length (places_of shelf.now.series space.now) }
    ensures grows { OnOk result ((P.contents pages.new).change_bytes + 5 * length (P.contents pages.old).free
        ≤ (P.contents pages.old).change_bytes + 5 * length (P.contents pages.new).free + 8202) }
    ensures taken { OnOk result (length (P.contents pages.old).free ≤ length (P.contents pages.new).free) }
    ensures undisturbed { P.undisturbed pages.old pages.new }
{
    if to <= from {
        return Ok((0, None));
    }
    let places = space.places(shelf.series);
    let first = rank(places, base_of(shelf.kind, from));
    let stop = first + rank(&places[first..], to);
    clear(alloc, pages, page, shelf, places, first, stop, from, to)
}

// How many places begin below an offset.
fn rank(places: &[Place], offset: u64) -> usize
    requires rising { IsRising places.now }
    requires limit { offset < 2 ^ 63 }
    ensures rank { result ≡ rank_of (pos offset) places.now }
    ensures within { result ≤ length places.now }
{
    match search(places, offset as i64) {
        Ok(index) => index,
        Err(index) => index,
    }
}

// Takes them from the pages from one index to another.
fn clear<P: Pages>(
    alloc: Global,
    pages: &mut P,
    page: &mut Page,
    shelf: &Shelf,
    places: &[Place],
    first: usize,
    stop: usize,
    from: u64,
    to: u64,
) -> Result<(u64, Option<Moved>), StoreFault>
    requires range { IsRange shelf.now.kind.now.columns from to places.now first stop }
    requires order { from < to }
    requires limit { to < 2 ^ 63 }
    requires rising { IsRising places.now }
    requires places { ArePlaces shelf.now.kind.now.columns (P.contents pages.old) places.now }
    ensures ok { IfOk result (λ r. IsCleared P.tells shelf.now.series shelf.now.kind.now.columns from to places.now
        (P.contents pages.old) (P.contents pages.new) r.0 r.1) }
    ensures call { Answered result (P.contents pages.old) (P.contents pages.new) }
    ensures change { (P.contents pages.new).change_bytes ≤
        (P.contents pages.old).change_bytes + 8202 + 5 * length places.now }
    ensures grows { OnOk result ((P.contents pages.new).change_bytes + 5 * length (P.contents pages.old).free
        ≤ (P.contents pages.old).change_bytes + 5 * length (P.contents pages.new).free + 8202) }
    ensures taken { OnOk result (length (P.contents pages.old).free ≤ length (P.contents pages.new).free) }
    ensures undisturbed { P.undisturbed pages.old pages.new }
{
    let range = &places[first..stop];
    if range.is_empty() {
        return Ok((0, None));
    }
    let left = cut_ends(pages, page, shelf, range, from, to)?;
    let removed = count_among(range) - count_left(left);
    if removed == 0 {
        return Ok((0, None));
    }
    free_pages(alloc, pages, gone(range, left))?;
    let moved = Moved {
        index: first,
        gone: range.len(),
        come: kept(range, left),
    };
    Ok((removed, Some(moved)))
}

// How many elements the pages of the places hold together, as far as a counter of 64 bits goes: told elements are never
// more.
fn count_among(places: &[Place]) -> u64
    ensures { result ≡ min (count_of places.now) (2 ^ 64 - 1) }
{
    let mut count = 0_u64;
    for place in places {
        count = count.saturating_add(u64::from(place.count));
    }
    count
}

// How many elements are left of both ends.
fn count_left(left: Left) -> u64
    ensures value { result ≡ left.front + left.back }
    ensures few { result ≤ 131070 }
{
    u64::from(left.front) + u64::from(left.back)
}

// The places of which nothing is left.
fn gone(places: &[Place], left: Left) -> &[Place]
    requires some { 1 ≤ length places.now }
    requires alone { length places.now ≡ 1 → left.back ≡ 0 }
    ensures { result.now ≡ gone_of (cuts_of left.front left.back places.now) }
{
    let start = usize::from(left.front > 0);
    let stop = places.len() - usize::from(left.back > 0);
    &places[start..stop]
}

// And those of which something is.
fn kept(places: &[Place], left: Left) -> Come
    requires some { 1 ≤ length places.now }
    requires alone { length places.now ≡ 1 → left.back ≡ 0 }
    ensures { list_of result ≡ kept_of (cuts_of left.front left.back places.now) }
{
    let front = recounted(&places[0], left.front);
    let back = recounted(&places[places.len() - 1], left.back);
    match (left.front > 0, left.back > 0) {
        (false, false) => Come::Nothing,
        (true, false) => Come::One(front),
        (false, true) => Come::One(back),
        (true, true) => Come::Two(front, back),
    }
}

// A place with another number of elements.
fn recounted(place: &Place, count: u16) -> Place
    ensures { result ≡ recounted place.now count }
{
    Place {
        at: place.at,
        page: place.page,
        count,
    }
}
