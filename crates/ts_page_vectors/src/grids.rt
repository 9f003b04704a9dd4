// A regular series: its slot and its pages, what a survey keeps of them, and where its elements can stand.
ghost use Rattle.std.specs.Prelude.{◌≡◌, IfOk};
ghost use Rattle.ts_model.specs.Definitions.{kind_of};
ghost use Rattle.ts_page.specs.Memory.{memory_contents};
ghost use Rattle.ts_layout.specs.Meaning.{AreSound};

use crate::made::{START, key, put_def, stamp};
use crate::volume::{Patch, page_in, surveyed, volume, zeros};
use std::alloc::Global;
use std::mem;
use ts_base::StoreFault;
use ts_container::{Surveyed, shape_of};
use ts_model::{Def, Kind};
use ts_offset::{Grid, Shape};
use ts_page::MemoryPages;
use ts_space::Place;

/// In slot 3 the regular series `g` of the container in slot 3, on the calendar in slot 5, from 2011-01-03 00:00:00 on.
static SERIES: [Patch; 2] = [KEY, REST];

const KEY: Patch = (834, 282, b"\x01\x01g");

const REST: Patch = (834, 348, b"\x03\x05\x00\x00\x75\xb0\x95\x53\xf0\x00");

/// That series, the calendar, of each day from 2011-01-03 on, and a page of 677 cells from offset 677 on, with the
/// integer 7 in its first cell and NULL in its last.
pub(crate) static DAYS: [Patch; 8] = [
    KEY,
    REST,
    (582, 0, b"\x01\x01d"),
    (582, 34, b"\x00\x00\x75\xb0\x95\x53\xf0\x00"),
    (
        582,
        42,
        b"\x00\x00\x75\xb0\x95\x53\xf0\x00\x01\x00\x03\x00\x01\x80\x00\x00\x01",
    ),
    (
        932,
        0,
        b"\x01\x00\x03\x00\x02\x00\x00\x00\x00\x00\x00\x02\xa5",
    ),
    (932, 32, SEVEN),
    (932, 4088, NULL),
];

/// Cells with the integer 7, and with NULL.
const SEVEN: &[u8] = b"\x01\x01\x00\x00\x00\x07";

const NULL: &[u8] = b"\x01\x00\x00\x00\x00\x00";

// The series.
fn series(alloc: Global) -> Result<Def, StoreFault>
    ensures { IfOk result (λ def. kind_of def ≡ Kind.Series) }
{
    Ok(Def::Series {
        key: key(alloc, b"g")?,
        container: 3,
        regular: Some((5, stamp(START)?)),
    })
}

// A volume of zeros with the series in its slot.
fn written(alloc: Global) -> Result<MemoryPages, StoreFault>
    ensures { IfOk result (λ pages. (memory_contents pages).count ≡ 933) }
{
    let mut pages = zeros(alloc)?;
    put_def(alloc, &mut pages, Kind::Series, 3, series(alloc))?;
    Ok(pages)
}

// Whether the page of its slot is that of a volume with these bytes.
fn is_written(alloc: Global) -> Option<bool> {
    let page = page_in(written(alloc), 834)?;
    let wanted = page_in(volume(alloc, &SERIES, &[]), 834)?;
    Some(page == wanted)
}

#[test]
fn the_slot_of_a_regular_series_has_these_bytes(rt: HostRuntime) {
    assert!(rt; is_written(rt.alloc()) == Some(true));
}

// Whether the definition in slot 3 is that series.
fn is_series(def: Option<&Def>) -> bool {
    match def {
        Some(
            Def::Series {
                container: 3,
                regular: Some((5, origin)),
                ..
            },
        ) => origin.units() == START,
        _ => false,
    }
}

/// The place of its page: it begins at offset 677.
const PLACE: Place = Place {
    at: 677,
    page: 932,
    count: 2,
};

fn is_good(found: &Surveyed) -> bool {
    found.defs.find(Kind::Series, b"g") == Some(3)
        && is_series(found.defs.get(Kind::Series, 3))
        && found.space.places(3) == [PLACE].as_slice()
        && found.free.as_slice() == [930].as_slice()
}

fn is_surveyed(alloc: Global) -> bool {
    match surveyed(alloc, &DAYS, &[]) {
        Ok(found) => {
            let is_good = is_good(&found);
            mem::drop(found);
            is_good
        }
        Err(_) => false,
    }
}

#[test]
fn a_regular_page_is_surveyed(rt: HostRuntime) {
    assert!(rt; is_surveyed(rt.alloc()));
}

/// The page alone, with one in front of it by its offsets, and with one behind it.
static ORDERS: [(&[Patch], &[Place]); 3] = [
    (&[], &[PLACE]),
    (&[BASE_0, CELL_0, THREE], &[FIRST, PLACE]),
    (&[BASE_1354, CELL_0, THREE], &[PLACE, BEHIND]),
];

/// Heads of a page of one element, by their bases, its cell, and a quota of three pages.
const BASE_0: Patch = (
    930,
    0,
    b"\x01\x00\x03\x00\x01\x00\x00\x00\x00\x00\x00\x00\x00",
);

const BASE_1354: Patch = (
    930,
    0,
    b"\x01\x00\x03\x00\x01\x00\x00\x00\x00\x00\x00\x05\x4a",
);

const CELL_0: Patch = (930, 32, SEVEN);

const THREE: Patch = (833, 218, &[3]);

const FIRST: Place = Place {
    at: 0,
    page: 930,
    count: 1,
};

const BEHIND: Place = Place {
    at: 1354,
    page: 930,
    count: 1,
};

fn are_placed(alloc: Global, patches: &[Patch], places: &[Place]) -> bool {
    match surveyed(alloc, &DAYS, patches) {
        Ok(found) => {
            let are_placed = found.space.places(3) == places;
            mem::drop(found);
            are_placed
        }
        Err(_) => false,
    }
}

#[test]
fn the_places_of_a_regular_series_stand_in_the_order_of_their_offsets(rt: HostRuntime) {
    for (patches, places) in &ORDERS {
        assert!(rt; are_placed(rt.alloc(), patches, places));
    }
}

fn is_at(grid: &Grid<'_>, offset: u64, units: i64) -> bool {
    match grid.stamp_of(offset) {
        Some(stamp) => stamp.units() == units,
        None => false,
    }
}

// Whether it is a grid of the days from 2011-01-03 on: 2012-11-10 has the offset 677, and 9999-12-31 is the last one.
fn has_days(shape: &Option<Shape<'_>>) -> bool {
    match shape {
        Some(Shape::Regular(grid)) => {
            grid.origin().units() == START
                && is_at(grid, 677, 135_250_560_000_000)
                && is_at(grid, 2_917_919, 25_340_221_440_000_000)
                && grid.stamp_of(2_917_920).is_none()
        }
        _ => false,
    }
}

// Where the elements of the series in a slot can stand.
fn shape_in(found: &Surveyed, slot: u16) -> Option<Shape<'_>>
    requires { AreSound 3 found.now.defs.definitions }
{
    shape_of(&found.defs, slot)
}

// Whether the elements of the series in slot 3 can stand at those days, those in slot 50 at all stamps, and in slot 4
// is none.
fn are_shapes(found: &Surveyed) -> bool
    requires { AreSound 3 found.now.defs.definitions }
{
    let days = shape_in(found, 3);
    let any = shape_in(found, 50);
    let none = shape_in(found, 4);
    has_days(&days) && matches!(any, Some(Shape::Irregular)) && none.is_none()
}

fn shapes_are_found(alloc: Global) -> bool {
    match surveyed(alloc, &DAYS, &[]) {
        Ok(found) => {
            let are_shapes = are_shapes(&found);
            mem::drop(found);
            are_shapes
        }
        Err(_) => false,
    }
}

#[test]
fn a_series_has_the_shape_of_its_definition(rt: HostRuntime) {
    assert!(rt; shapes_are_found(rt.alloc()));
}
