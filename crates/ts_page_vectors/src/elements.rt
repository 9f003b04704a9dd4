// Pages of elements: what a survey keeps of them.
use crate::volume::surveyed;
use std::alloc::Global;
use std::mem;
use ts_container::Surveyed;
use ts_model::{Kind, OLD_FORMAT};
use ts_space::Place;

/// 2011-01-03 00:00:00.
const ELEMENT: Place = Place {
    at: 129_401_280_000_000,
    page: 931,
    count: 1,
};

fn is_good(found: &Surveyed) -> bool {
    found.defs.find(Kind::RowType, b"r") == Some(0)
        && found.defs.find(Kind::Container, b"c") == Some(3)
        && found.defs.find(Kind::Series, b"k") == Some(50)
        && found.defs.vacant(Kind::Series) == Some(0)
        && found.space.places(50) == [ELEMENT].as_slice()
        && found.free.as_slice() == [930, 932].as_slice()
        && found.defs.format() == OLD_FORMAT
}

fn is_surveyed(alloc: Global) -> bool {
    match surveyed(alloc, &[], &[]) {
        Ok(found) => {
            let is_good = is_good(&found);
            mem::drop(found);
            is_good
        }
        Err(_) => false,
    }
}

#[test]
fn a_volume_is_surveyed(rt: HostRuntime) {
    assert!(rt; is_surveyed(rt.alloc()));
}
