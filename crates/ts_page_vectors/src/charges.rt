// What containers and series are charged, and of which formats a row type is.
ghost use Rattle.std.specs.Prelude.{◌≡◌, ◌∷◌, [], pos, IfOk};
ghost use Rattle.ts_space.specs.Directory.{places_of};
ghost use Rattle.ts_layout.specs.Charges.{IsCountable};
ghost use Rattle.ts_layout.specs.Meaning.{AreSound};
ghost use Rattle.ts_layout.specs.Placed.{AreKept};

use crate::grids::DAYS;
use crate::made::{START, integers, stamp};
use crate::volume::surveyed;
use std::alloc::{AllocError, Global};
use std::mem;
use ts_base::{Stamp, StoreFault};
use ts_container::{
    Charges, Surveyed, a_charge_changes_with_a_series, charge_of_places,
    charges_are_the_same_in_every_format, is_of_format,
};
use ts_model::{FORMAT, OLD_FORMAT};
use ts_space::{Come, Moved, Place, Space};

// The charges of a container, and of another one, whose first changed.
fn changed_charges(alloc: Global) -> Result<(u64, u64), AllocError> {
    let mut charges = Charges::new(alloc)?;
    charges.change(3, 0, 5);
    Ok((charges.of(3), charges.of(4)))
}

#[test]
fn a_charge_is_changed(rt: HostRuntime) {
    assert!(rt; matches!(changed_charges(rt.alloc()), Ok((5, 0))));
    a_charge_changes_with_a_series();
    charges_are_the_same_in_every_format();
}

// The charges of the containers in slots 3 and 4, counted where the second was charged something before.
fn counted(alloc: Global, found: &Surveyed) -> Result<(u64, u64), AllocError>
    requires sound { AreSound 3 found.now.defs.definitions }
    requires kept { AreKept found.now.defs.definitions found.now.space found.now.free.items 933 }
{
    let mut charges = Charges::new(alloc)?;
    charges.change(4, 0, 5);
    charges.count(&found.defs, &found.space);
    Ok((charges.of(3), charges.of(4)))
}

// The same of a volume where an irregular series with one element and a regular one with one page stand in slot 3, and
// slot 4 is empty.
fn counted_of_two(alloc: Global) -> Option<(u64, u64)> {
    match surveyed(alloc, &DAYS, &[]) {
        Ok(found) => {
            let counted = counted(alloc, &found).ok();
            mem::drop(found);
            counted
        }
        Err(_) => None,
    }
}

#[test]
fn a_container_is_charged_for_all_its_series(rt: HostRuntime) {
    assert!(rt; matches!(counted_of_two(rt.alloc()), Some((2, 0))));
}

// A directory where a series has these places, which have six elements.
fn two_places(alloc: Global) -> Result<Space, AllocError>
    ensures { IfOk result (λ space. places_of 7 space ≡ record { at = pos 0; page = 931; count = 5 }
        ∷ record { at = pos 677; page = 930; count = 1 } ∷ []) }
{
    let mut space = Space::new(alloc)?;
    space.reserve(7, 2)?;
    let moved = Moved {
        index: 0,
        gone: 0,
        come: Come::Two(A, B),
    };
    space.splice(7, &moved);
    Ok(space)
}

const A: Place = Place {
    at: 0,
    page: 931,
    count: 5,
};

const B: Place = Place {
    at: 677,
    page: 930,
    count: 1,
};

// What the series in slot 7 is charged where a page has room for five.
fn charge_of(space: &Space, regular: Option<(u8, Stamp)>) -> u64
    requires { IsCountable (places_of 7 space.now) }
{
    charge_of_places(space, regular, 7, 5)
}

// The charges of the places, as they are those of an irregular series and of a regular one.
fn charges_of_two(alloc: Global) -> Result<(u64, u64), StoreFault> {
    let space = two_places(alloc)?;
    let origin = stamp(START)?;
    Ok((
        charge_of(&space, None),
        charge_of(&space, Some((5, origin))),
    ))
}

#[test]
fn an_irregular_series_is_charged_for_elements_and_a_regular_one_for_places(rt: HostRuntime) {
    assert!(rt; matches!(charges_of_two(rt.alloc()), Ok((3, 2))));
}

// What a series without places is charged.
fn charge_of_none(alloc: Global) -> Result<u64, AllocError> {
    let space = Space::new(alloc)?;
    Ok(charge_of(&space, None))
}

#[test]
fn a_series_without_places_is_charged_nothing(rt: HostRuntime) {
    assert!(rt; matches!(charge_of_none(rt.alloc()), Ok(0)));
}

// Whether a row type of integers is of both formats.
fn integers_are_of_all(alloc: Global) -> bool {
    match integers(alloc) {
        Ok(kind) => is_of_format(OLD_FORMAT, &kind) && is_of_format(FORMAT, &kind),
        Err(_) => false,
    }
}

#[test]
fn integers_are_of_both_formats(rt: HostRuntime) {
    assert!(rt; integers_are_of_all(rt.alloc()));
}
