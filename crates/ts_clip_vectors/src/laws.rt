// The laws of ts_irregular, ts_chain, ts_regular and ts_regular_edits, and what a page of a regular series has room
// for.
use crate::series::integers;
use std::alloc::Global;
use ts_base::StoreFault;
use ts_chain::{
    a_chain_is_in_order, a_chain_is_within_its_charge, an_edit_is_that_of_one_page,
    an_edit_of_pages_side_by_side_makes_a_chain, changed_places_are_places,
};
use ts_irregular::{
    a_mark_keeps_the_rest, edits_are_those_of_a_map, edits_keep_the_order, the_map_has_the_elements,
};
use ts_page::Page;
use ts_regular::{
    base_of, cells_are_elements_at_offsets, pages_of_offsets_rise, regular_extent_of, regular_room,
};
use ts_regular_edits::{
    edits_at_offsets_are_edits_at_stamps, places_are_the_charge,
    ranges_of_offsets_are_ranges_of_stamps,
};

#[test]
fn the_laws_are_called() {
    edits_are_those_of_a_map();
    edits_keep_the_order();
    a_mark_keeps_the_rest();
    the_map_has_the_elements();
    a_chain_is_in_order();
    a_chain_is_within_its_charge();
    an_edit_is_that_of_one_page();
    an_edit_of_pages_side_by_side_makes_a_chain();
    changed_places_are_places();
    cells_are_elements_at_offsets();
    pages_of_offsets_rise();
    edits_at_offsets_are_edits_at_stamps();
    places_are_the_charge();
    ranges_of_offsets_are_ranges_of_stamps();
}

// Whether an integer has so many cells on a page, an offset belongs to the page of this one, and a page of zeros is
// no regular one.
fn is_measured(alloc: Global) -> Result<bool, StoreFault> {
    let kind = integers(alloc)?;
    Ok(
        regular_room(&kind) == 677
            && base_of(&kind, 1000) == 677
            && regular_extent_of(&kind, &Page::zero()).is_none(),
    )
}

#[test]
fn a_page_is_measured(rt: HostRuntime) {
    assert!(rt; matches!(is_measured(rt.alloc()), Ok(true)));
}
