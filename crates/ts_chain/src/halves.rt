// The halves of a full page that got one more element, and the neighbours that they go together with.
ghost use Rattle.std.specs.Prelude.{◌≡◌, ◌+◌, ◌<◌, ◌≤◌, ◌<ℤ◌, IsTrue, List, ◌∷◌, ◌++◌, length};
ghost use Rattle.std.specs.Int.{int_min};
ghost use Rattle.ts_space.specs.declared.place.Place.{Place as ThePlace};
ghost use Rattle.ts_space.specs.Place.{AreAbove, IsRising};
ghost use Rattle.ts_cells.specs.IrregularPage.{page_room};
ghost use Rattle.ts_chain.specs.Halves.{AreHalved, IsJoinedBefore, IsJoinedBehind};
ghost use Rattle.ts_chain.specs.Window.{half_of};

use crate::join::{fits_before, fits_behind};
use ts_base::Stamp;
use ts_cells::page_room;
use ts_irregular::place_in;
use ts_page::Page;
use ts_row::Shelf;
use ts_space::Place;

/// The places of the two halves, and those of the neighbours that fit one page with them.
#[derive(Clone, Copy)]
pub(crate) struct Halves {
    pub before: Option<Place>,
    pub first: Place,
    pub second: Place,
    pub behind: Option<Place>,
}

/// The halves of the page of an index, of which `others` has the second, and their neighbours.
pub(crate) fn halves_of(
    shelf: &Shelf,
    others: &Page,
    places: &[Place],
    index: usize,
    stamp: Stamp,
) -> Halves
    requires index { index < length places.now }
    requires some { 1 ≤ page_room shelf.now.kind.now.columns }
    ensures { (front : List ThePlace) (place : ThePlace) (back : List ThePlace) → places.now ≡ front ++ place ∷ back
        → length front ≡ index
        → AreHalved shelf.now.series shelf.now.kind.now.columns stamp front place back others.now.bytes result }
{
    let place = &places[index];
    let room = page_room(shelf.kind);
    let first = first_half(shelf, place, stamp);
    let second = place_in(shelf, place.page, room + 1 - first.count as usize, others);
    Halves {
        before: before_within(places, index, first.count as usize, room),
        first,
        second,
        behind: behind_within(places, index, second.count as usize, room),
    }
}

// The place of the first half, on the page that was full: it begins where that did, or at the stamp that was put before
// all.
fn first_half(shelf: &Shelf, place: &Place, stamp: Stamp) -> Place
    ensures page { result.page ≡ place.now.page }
    ensures count { result.count ≡ half_of shelf.now.kind.now.columns }
    ensures at { result.at ≡ int_min place.now.at stamp }
{
    Place {
        at: place.at.min(stamp.units()),
        page: place.page,
        count: ((page_room(shelf.kind) + 1) / 2) as u16,
    }
}

// The place before, where so many elements fit one page with its own.
fn before_within(places: &[Place], index: usize, count: usize, room: usize) -> Option<Place>
    requires index { index < length places.now }
    requires few { count ≤ room }
    requires room { room ≤ 451 }
    ensures { (front back : List ThePlace) → places.now ≡ front ++ back → length front ≡ index
        → IsJoinedBefore room count front result }
{
    if fits_before(places, index, count, room) {
        Some(places[index - 1])
    } else {
        None
    }
}

// And the place behind.
fn behind_within(places: &[Place], index: usize, count: usize, room: usize) -> Option<Place>
    requires index { index < length places.now }
    requires few { count ≤ room }
    requires room { room ≤ 451 }
    ensures { (front : List ThePlace) (place : ThePlace) (back : List ThePlace) → places.now ≡ front ++ place ∷ back
        → length front ≡ index → IsJoinedBehind room count back result }
{
    if fits_behind(places, index, count, room) {
        Some(places[index + 1])
    } else {
        None
    }
}

/// Whether the second half begins behind the first one and before the places behind an index.
pub(crate) fn stands_between(places: &[Place], index: usize, first: &Place, second: &Place) -> bool
    requires index { index < length places.now }
    requires rising { IsRising places.now }
    ensures low { IsTrue result → first.now.at <ℤ second.now.at }
    ensures yes { IsTrue result → (front : List ThePlace) (place : ThePlace) (back : List ThePlace) → places.now ≡ front
        ++ place ∷ back → length front ≡ index → AreAbove second.now.at back }
    ensures no { (front : List ThePlace) (place : ThePlace) (back : List ThePlace) → places.now ≡ front ++ place ∷ back
        → length front ≡ index
        → first.now.at <ℤ second.now.at → AreAbove second.now.at back → IsTrue result }
{
    if !begins_below(first, second) {
        return false;
    }
    if index + 1 >= places.len() {
        return true;
    }
    begins_below(second, &places[index + 1])
}

// Whether a place begins below another one.
fn begins_below(place: &Place, other: &Place) -> bool
    ensures yes { IsTrue result → place.now.at <ℤ other.now.at }
    ensures no { place.now.at <ℤ other.now.at → IsTrue result }
{
    place.at < other.at
}
