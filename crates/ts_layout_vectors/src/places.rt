// Where the format puts slots, and the laws of layouts.
use ts_layout::{
    a_catalogue_keeps_its_format, a_definition_is_dropped, a_definition_is_made,
    a_definition_is_used_by_its_slot, a_journal_and_freed_bytes_mean_nothing, a_layout_is_kept,
    a_regular_element_is_on_its_grid, a_series_is_dropped_with_its_pages,
    a_series_is_dropped_with_its_places, a_series_is_on_its_pages, a_series_is_rewritten,
    a_volume_takes_the_newest_format, a_written_slot_changes_definitions_alone, byte_of_slot,
    charges_follow_the_directory, elements_are_a_map_by_stamps, names_stand_in_slots, page_of_slot,
    pages_are_free_or_placed, pages_are_sheets, pages_mean_one_catalogue,
    pages_that_hold_are_filled, places_and_free_pages_stay_apart, quotas_follow_the_directory,
    references_are_names, slot_size, slots_are_counted, slots_in_page,
    sound_definitions_are_those_of_a_layout, the_elements_of_a_page_are_of_the_format,
    the_newest_format_has_all, the_places_of_other_series_stay, the_quotas_leave_room,
    the_same_lists_are_kept,
};
use ts_model::Kind;
use ts_sheets::{chains_are_in_order, chains_have_few_pages, grids_have_few_pages, starts_rise};

/// A slot of a kind, its page, and its first byte there.
static SLOTS: [(Kind, u16, u32, usize); 8] = [
    (Kind::RowType, 63, 320, 0),
    (Kind::Pattern, 255, 576, 0),
    (Kind::Calendar, 255, 832, 0),
    (Kind::Container, 63, 833, 3780),
    (Kind::Container, 3, 833, 180),
    (Kind::Series, 3, 834, 282),
    (Kind::Series, 50, 835, 658),
    (Kind::Series, 4095, 929, 940),
];

// Whether a slot stands there.
fn stands(kind: Kind, slot: u16, page: u32, byte: usize) -> bool {
    slot < kind.limit() && page_of_slot(kind, slot) == page && byte_of_slot(kind, slot) == byte
}

#[test]
fn slots_stand_where_the_format_puts_them(rt: HostRuntime) {
    for (kind, slot, page, byte) in &SLOTS {
        assert!(rt; stands(*kind, *slot, *page, *byte));
    }
    assert!(rt; slot_size(Kind::Container) == 60 && slot_size(Kind::Series) == 94);
}

#[test]
fn the_last_page_of_series_has_11_slots(rt: HostRuntime) {
    let last = slots_in_page(929);
    assert!(rt; last.first == 4085 && last.count == 11);
    assert!(rt; slots_in_page(832).count == 1 && slots_in_page(833).count == 64);
}

#[test]
fn the_laws_of_sheets_are_called() {
    chains_are_in_order();
    chains_have_few_pages();
    grids_have_few_pages();
    starts_rise();
}

#[test]
fn the_laws_of_layouts_are_called() {
    pages_mean_one_catalogue();
    a_journal_and_freed_bytes_mean_nothing();
    a_written_slot_changes_definitions_alone();
    a_definition_is_made();
    a_definition_is_dropped();
    a_definition_is_used_by_its_slot();
    names_stand_in_slots();
    references_are_names();
    slots_are_counted();
}

#[test]
fn the_laws_of_formats_are_called() {
    a_catalogue_keeps_its_format();
    a_volume_takes_the_newest_format();
    the_newest_format_has_all();
    the_elements_of_a_page_are_of_the_format();
}

#[test]
fn the_laws_of_elements_are_called() {
    a_series_is_on_its_pages();
    pages_are_sheets();
    a_regular_element_is_on_its_grid();
    elements_are_a_map_by_stamps();
    a_series_is_rewritten();
    pages_that_hold_are_filled();
    a_series_is_dropped_with_its_pages();
    pages_are_free_or_placed();
    the_places_of_other_series_stay();
    the_quotas_leave_room();
    charges_follow_the_directory();
    quotas_follow_the_directory();
}

#[test]
fn the_laws_of_what_is_kept_are_called() {
    a_layout_is_kept();
    the_same_lists_are_kept();
    sound_definitions_are_those_of_a_layout();
    a_series_is_dropped_with_its_places();
    places_and_free_pages_stay_apart();
}
