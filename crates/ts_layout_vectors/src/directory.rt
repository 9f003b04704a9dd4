// What no clause says: a directory after some steps, and charges that were worked out by hand.
ghost use Rattle.std.specs.Prelude.{◌+◌, ◌^◌, ◌<◌, ◌≤◌, IfOk, OnOk, length};
ghost use Rattle.ts_space.specs.Directory.{used_of};

use std::alloc::{AllocError, Global};
use std::mem;
use ts_space::{Come, Moved, Place, Space, charge_irregular, charge_regular, count_of, search};

/// A change of a directory.
#[derive(Clone, Copy)]
enum Step {
    Set(u16, Place),
    Clear(u16, i64),
}

const A: Place = Place {
    at: -7,
    page: 932,
    count: 5,
};

const B: Place = Place {
    at: 0,
    page: 930,
    count: 1,
};

const C: Place = Place {
    at: 677,
    page: 931,
    count: 2,
};

/// Begins where B does.
const D: Place = Place {
    at: 0,
    page: 933,
    count: 65535,
};

// Changes a directory.
fn take(space: &mut Space, step: Step) -> Result<(), AllocError>
    ensures { OnOk result (used_of space.new ≤ used_of space.old + 1) }
{
    match step {
        Step::Set(series, place) => {
            if series >= 4096 {
                return Err(AllocError);
            }
            space.reserve(series, 1)?;
            space.set(series, place);
        }
        Step::Clear(series, at) => {
            if series >= 4096 {
                return Err(AllocError);
            }
            space.clear(series, at);
        }
    }
    Ok(())
}

// The directory after these steps.
fn after(alloc: Global, steps: &[Step]) -> Result<Space, AllocError>
    ensures { IfOk result (λ space. used_of space ≤ length steps.now) }
{
    let mut space = Space::new(alloc)?;
    for step in steps {
        take(&mut space, *step)?;
    }
    Ok(space)
}

/// One takes the place of that which began there, and where none begins nothing is cleared.
static STEPS: [Step; 7] = [
    Step::Set(7, C),
    Step::Set(7, A),
    Step::Set(7, B),
    Step::Set(7, D),
    Step::Clear(7, -7),
    Step::Clear(7, 1),
    Step::Set(4095, A),
];

/// The places of a series after so many of the steps, and how many there are of all series.
static PLACES: [(usize, u16, &[Place], u32); 9] = [
    (0, 4095, &[], 0),
    (1, 7, &[C], 1),
    (3, 7, &[A, B, C], 3),
    (4, 7, &[A, D, C], 3),
    (5, 7, &[D, C], 2),
    (6, 7, &[D, C], 2),
    (7, 6, &[], 3),
    (7, 8, &[], 3),
    (7, 4095, &[A], 3),
];

fn has_places(alloc: Global, steps: &[Step], series: u16, wanted: &[Place], used: u32) -> bool {
    if steps.len() > 100 || series >= 4096 {
        return false;
    }
    match after(alloc, steps) {
        Ok(space) => {
            let has_places = space.places(series) == wanted && space.used() == used;
            mem::drop(space);
            has_places
        }
        Err(_) => false,
    }
}

#[test]
fn places_are_set_and_cleared_and_counted(rt: HostRuntime) {
    for (count, series, wanted, used) in &PLACES {
        let steps = &STEPS[..(*count).min(7)];
        assert!(rt; has_places(rt.alloc(), steps, *series, wanted, *used));
    }
}

// Whether the place of a series that was cleared is there again, once it is restored.
fn are_restored(alloc: Global) -> Result<bool, AllocError> {
    let mut space = after(alloc, &[Step::Set(1, D)])?;
    let saved = space.saved(1)?;
    space.clear(1, 0);
    space.restore(1, saved);
    Ok(space.places(1) == [D].as_slice())
}

#[test]
fn saved_places_are_restored(rt: HostRuntime) {
    assert!(rt; matches!(are_restored(rt.alloc()), Ok(true)));
}

static ENDS: [Step; 2] = [Step::Set(1, D), Step::Set(4095, A)];

// Whether a copy has the places that there were, once the directory changes.
fn copy_is_apart(space: &mut Space) -> Result<bool, AllocError> {
    let copy = space.copy()?;
    space.clear(1, 0);
    let gap = copy.places(2).is_empty() && copy.places(4094).is_empty();
    let is_apart = gap && copy.places(1) == [D].as_slice() && copy.places(4095) == [A].as_slice();
    mem::drop(copy);
    Ok(is_apart)
}

fn are_copied(alloc: Global) -> Result<bool, AllocError> {
    let mut space = after(alloc, &ENDS)?;
    let is_apart = copy_is_apart(&mut space);
    mem::drop(space);
    is_apart
}

#[test]
fn a_copy_has_the_places(rt: HostRuntime) {
    assert!(rt; matches!(are_copied(rt.alloc()), Ok(true)));
}

// Whether the first series of a directory have a place each, and no other one has any.
fn first_have_places(space: &Space, count: u16) -> bool {
    for series in 0..4096_u16 {
        if space.places(series).is_empty() == (series < count) {
            return false;
        }
    }
    true
}

// Gives the first series of a directory a place each.
fn place_first(space: &mut Space, count: u16) -> Result<(), AllocError> {
    for series in 0..count.min(4096) {
        take(space, Step::Set(series, D))?;
    }
    Ok(())
}

// Whether a directory is one whose first series have a place each, and takes one more place.
fn takes_one(copy: &mut Space, count: u16) -> Result<bool, AllocError> {
    let same = first_have_places(copy, count);
    take(copy, Step::Set(4095, A))?;
    Ok(same && copy.places(4095).len() == 1 + usize::from(count == 4096))
}

// Gives the first series a place each, and whether a copy is one that takes one more.
fn copy_takes_one(space: &mut Space, count: u16) -> Result<bool, AllocError> {
    place_first(space, count)?;
    let mut copy = space.copy()?;
    let takes_one = takes_one(&mut copy, count);
    mem::drop(copy);
    takes_one
}

// Whether a copy of a directory whose first series have a place each is one, and takes one more place.
fn first_are_copied(alloc: Global, count: u16) -> Result<bool, AllocError> {
    let mut space = Space::new(alloc)?;
    let takes_one = copy_takes_one(&mut space, count);
    mem::drop(space);
    takes_one
}

#[test]
fn a_copy_is_of_none_some_or_all(rt: HostRuntime) {
    for count in [0, 1, 9, 4096] {
        assert!(rt; matches!(first_are_copied(rt.alloc(), count), Ok(true)));
    }
}

// How many elements a series without places has after a change past its end, and whether it has the places that came.
fn changed(alloc: Global) -> Result<(u64, bool), AllocError> {
    let mut space = Space::new(alloc)?;
    space.reserve(7, 2)?;
    let moved = Moved {
        index: 3,
        gone: 60000,
        come: Come::Two(A, C),
    };
    space.splice(7, &moved);
    Ok((space.count(7), space.places(7) == [A, C].as_slice()))
}

#[test]
fn changed_places_are_counted(rt: HostRuntime) {
    assert!(rt; matches!(changed(rt.alloc()), Ok((7, true))));
}

/// Where a place begins among A, B and C; where none does, the first above.
static FOUND: [(i64, Result<usize, usize>); 7] = [
    (-8, Err(0)),
    (-7, Ok(0)),
    (-6, Err(1)),
    (0, Ok(1)),
    (676, Err(2)),
    (677, Ok(2)),
    (678, Err(3)),
];

fn found(alloc: Global, at: i64) -> Option<Result<usize, usize>> {
    match after(alloc, &STEPS[..3]) {
        Ok(space) => {
            let found = search(space.places(7), at);
            mem::drop(space);
            Some(found)
        }
        Err(_) => None,
    }
}

#[test]
fn a_place_is_found_where_it_begins(rt: HostRuntime) {
    for (at, wanted) in &FOUND {
        assert!(rt; found(rt.alloc(), *at) == Some(*wanted));
    }
}

#[test]
fn counts_are_summed(rt: HostRuntime) {
    assert!(rt; count_of(&[]) == 0);
    assert!(rt; count_of(&[A, B, D]) == 65541);
}

#[test]
fn a_regular_series_is_charged_for_the_pages_of_its_offsets(rt: HostRuntime) {
    assert!(rt; charge_regular(&[], 677) == 0);
    assert!(rt; charge_regular(&[0], 677) == 1);
    assert!(rt; charge_regular(&[0, 676], 677) == 1);
    assert!(rt; charge_regular(&[0, 676, 677], 677) == 2);
    // Pages between them without elements cost nothing.
    assert!(rt; charge_regular(&[676, 1354, 1355, 2030], 677) == 2);
}

const MOST: u64 = 4_611_686_018_427_387_904;

/// How many elements there are, how many a page has room for, and their charge.
static IRREGULAR: [(u64, u64, u64); 11] = [
    (0, 5, 0),
    (1, 5, 1),
    (5, 5, 1),
    (6, 5, 3),
    (10, 5, 3),
    (11, 5, 5),
    (290, 290, 1),
    (291, 290, 3),
    (580, 290, 3),
    (581, 290, 5),
    (MOST, 1, 9_223_372_036_854_775_807),
];

#[test]
fn an_irregular_series_is_charged_for_its_elements(rt: HostRuntime) {
    for (elements, room, wanted) in &IRREGULAR {
        let (n, q) = (*elements, *room);
        assert!(rt; n <= MOST && q > 0 && charge_irregular(n, q) == *wanted);
    }
}

#[test]
fn the_types_may_go_to_other_threads() {
    goes_to_threads::<Moved>();
    goes_to_threads::<Place>();
    goes_to_threads::<Space>();
}

fn goes_to_threads<T: Send + Sync>() {}
