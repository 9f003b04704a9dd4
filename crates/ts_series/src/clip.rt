// All elements between two stamps are taken away.
ghost use Rattle.std.specs.Prelude.{◌≡◌, ◌+◌, ◌*◌, ◌<◌, ◌≤◌, ◌<ℤ◌, ◌≤ℤ◌, false, IsTrue, IfOk, OnOk, length, take, drop};
ghost use Rattle.std.specs.Prelude.{min, ◌-◌, ◌^◌};
ghost use Rattle.ts_space.specs.Place.{IsRising, count_of};
ghost use Rattle.ts_space.specs.Directory.{places_of};
ghost use Rattle.ts_page.specs.Pages.{Answered};
ghost use Rattle.ts_sheets.specs.Places.{ArePlaces, IsHolder};
ghost use Rattle.ts_series.specs.Clip.{IsCleared};
ghost use Rattle.ts_series.specs.Ends.{IsRange, first_count, last_count};

use crate::ends::ends_of;
use crate::joins::joins_of;
use crate::keep::keep;
use std::alloc::Global;
use ts_base::{Stamp, StoreFault};
use ts_cells::page_room;
use ts_chain::holder;
use ts_page::{Page, Pages};
use ts_row::Shelf;
use ts_space::{Moved, Place, Space};

/// Takes away all elements from one stamp to another, both included, hidden or not; gives how many they were and which
/// places go and come: none, and no page changes, where no element stands there. The pages of the two ends are read,
/// and pages beside them where they are joined: four at most; the head of each is compared with its place, and one that
/// disagrees is taken as a page without elements. The pages between the ends aren't read, but freed. At most two pages
/// are written. After an error pages may have changed in part. `page` is room to read one; the memory is for the
/// numbers of the pages that are freed, 4 bytes each.
pub fn del_clip<P: Pages>(
    alloc: Global,
    pages: &mut P,
    page: &mut Page,
    space: &Space,
    shelf: &Shelf,
    from: Stamp,
    to: Stamp,
) -> Result<(u64, Option<Moved>), StoreFault>
    requires slot { shelf.now.series < 4096 }
    requires places { ArePlaces shelf.now.kind.now.columns (P.contents pages.old)
        (places_of shelf.now.series space.now) }
    ensures ok { IfOk result (λ r. IsCleared P.tells shelf.now.series shelf.now.kind.now.columns from to
        (places_of shelf.now.series space.now)
        (P.contents pages.old) (P.contents pages.new) r.0 r.1) }
    ensures call { Answered result (P.contents pages.old) (P.contents pages.new) }
    ensures change { (P.contents pages.new).change_bytes
        ≤ (P.contents pages.old).change_bytes + 8202 + 5 * length (places_of shelf.now.series space.now) }
    ensures grows { OnOk result ((P.contents pages.new).change_bytes + 5 * length (P.contents pages.old).free
        ≤ (P.contents pages.old).change_bytes + 5 * length (P.contents pages.new).free + 8202) }
    ensures undisturbed { P.undisturbed pages.old pages.new }
{
    if is_earlier(to, from) {
        return Ok((0, None));
    }
    let places = space.places(shelf.series);
    let Some(last) = holder(places, to) else {
        return Ok((0, None));
    };
    let first = first_held(places, last, from, to);
    clear(alloc, pages, page, shelf, places, first, last + 1, from, to)
}

// Whether a stamp is earlier than another.
fn is_earlier(stamp: Stamp, other: Stamp) -> bool
    ensures yes { IsTrue result → stamp <ℤ other }
    ensures no { result ≡ false → other ≤ℤ stamp }
{
    stamp.units() < other.units()
}

// The index of the place that holds a stamp, or of the first.
fn first_held(places: &[Place], last: usize, from: Stamp, to: Stamp) -> usize
    requires rising { IsRising places.now }
    requires order { from ≤ℤ to }
    requires last { IsHolder to places.now last }
    ensures { IsRange from to places.now result (last + 1) }
{
    match holder(places, from) {
        Some(first) => first,
        None => 0,
    }
}

// How many elements the pages of the places hold together, as far as a counter of 64 bits goes: told elements are never
// more.
fn count_among(places: &[Place]) -> u64
    ensures { result ≡ min (count_of places.now) (2 ^ 64 - 1) }
{
    let mut count = 0_u64;
    for place in places {
        count = count.saturating_add(u64::from(place.count));
    }
    count
}

// How many elements the page before that of an index has; 0 where there is none.
fn count_before(places: &[Place], index: usize) -> usize
    requires { index ≤ length places.now }
    ensures count { result ≡ last_count (take index places.now) }
    ensures few { result ≤ 65535 }
{
    if index == 0 {
        return 0;
    }
    places[index - 1].count as usize
}

// And that of an index.
fn count_from(places: &[Place], index: usize) -> usize
    requires { index ≤ length places.now }
    ensures count { result ≡ first_count (drop index places.now) }
    ensures few { result ≤ 65535 }
{
    if index == places.len() {
        return 0;
    }
    places[index].count as usize
}

// Takes them from the pages from one index to another.
fn clear<P: Pages>(
    alloc: Global,
    pages: &mut P,
    page: &mut Page,
    shelf: &Shelf,
    places: &[Place],
    first: usize,
    stop: usize,
    from: Stamp,
    to: Stamp,
) -> Result<(u64, Option<Moved>), StoreFault>
    requires range { IsRange from to places.now first stop }
    requires order { from ≤ℤ to }
    requires rising { IsRising places.now }
    requires places { ArePlaces shelf.now.kind.now.columns (P.contents pages.old) places.now }
    ensures ok { IfOk result (λ r. IsCleared P.tells shelf.now.series shelf.now.kind.now.columns from to places.now
        (P.contents pages.old) (P.contents pages.new) r.0 r.1) }
    ensures call { Answered result (P.contents pages.old) (P.contents pages.new) }
    ensures change { (P.contents pages.new).change_bytes ≤
        (P.contents pages.old).change_bytes + 8202 + 5 * length places.now }
    ensures grows { OnOk result ((P.contents pages.new).change_bytes + 5 * length (P.contents pages.old).free
        ≤ (P.contents pages.old).change_bytes + 5 * length (P.contents pages.new).free + 8202) }
    ensures undisturbed { P.undisturbed pages.old pages.new }
{
    let room = page_room(shelf.kind);
    let mut behind = Page::zero();
    let left = ends_of(
        pages,
        page,
        &mut behind,
        shelf,
        &places[first..stop],
        from,
        to,
    )?;
    let removed = count_among(&places[first..stop]) - (left.front + left.back) as u64;
    if removed == 0 {
        return Ok((0, None));
    }
    let joins = joins_of(
        count_before(places, first),
        left.front,
        left.back,
        count_from(places, stop),
        room,
    );
    let moved = keep(
        alloc,
        pages,
        page,
        &mut behind,
        shelf,
        places,
        first,
        stop,
        left,
        joins,
    )?;
    Ok((removed, Some(moved)))
}
