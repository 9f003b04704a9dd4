// The pages of an irregular series: their order.
use crate::volume::{Patch, surveyed};
use std::alloc::Global;
use std::mem;
use ts_container::Surveyed;
use ts_space::Place;

/// What makes the rows of the good volume so wide that a page holds four: its page has the stamps 0, 2, 4 and 6 then,
/// without values, and the quota is three pages.
static WIDE: [Patch; 10] = [
    (257, 67, b"\x04\x05\xff\x00\x01v"),
    (257, 104, b"\x05\xff\x00\x01w"),
    (257, 140, b"\x05\xff\x00\x01x"),
    (257, 176, b"\x05\xe3\x00\x01y"),
    (833, 218, &[3]),
    (931, 4, &[4]),
    (931, 41, &[0, 0, 0, 0, 0]),
    (931, 1041, b"\x01\x00\x00\x75\xb0\x95\x53\xf0\x02"),
    (931, 2050, b"\x01\x00\x00\x75\xb0\x95\x53\xf0\x04"),
    (931, 3059, b"\x01\x00\x00\x75\xb0\x95\x53\xf0\x06"),
];

/// A later page with one element, the unit 7 of that day.
const HEAD: Patch = (930, 0, b"\x02\x00\x32\x00\x01");

const AT_7: Patch = (930, 32, b"\x01\x00\x00\x75\xb0\x95\x53\xf0\x07");

// Whether the directory has the pages in the order of their stamps.
fn is_chain(found: &Surveyed) -> bool {
    let places = found.space.places(50);
    let first = Place {
        at: 129_401_280_000_000,
        page: 931,
        count: 4,
    };
    let last = Place {
        at: 129_401_280_000_007,
        page: 930,
        count: 1,
    };
    places == [first, last].as_slice()
}

fn is_chained(alloc: Global) -> bool {
    match surveyed(alloc, &WIDE, &[HEAD, AT_7]) {
        Ok(found) => {
            let is_chain = is_chain(&found);
            mem::drop(found);
            is_chain
        }
        Err(_) => false,
    }
}

#[test]
fn the_places_of_a_series_stand_in_the_order_of_their_stamps(rt: HostRuntime) {
    assert!(rt; is_chained(rt.alloc()));
}
