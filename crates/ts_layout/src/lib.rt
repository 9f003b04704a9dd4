//! What the pages of a volume mean, and what holds of it: definitions in their slots and elements on their pages are a
//! layout, and a layout that keeps the rules means one catalogue (`specs/Meaning`). The laws tell where names stand in
//! slots, what a slot that is filled or emptied, a series that gets other pages or goes with its pages and another
//! format change, and what containers are charged. Reads and writes no page; stands on ts_sheets, ts_cells, ts_space,
//! ts_model and ts_page. Read `specs/Slot.antt` and `specs/Meaning.antt`, then `specs/Laws.antt`, which has what the
//! laws of `laws.rt` state, as `specs/ChainLaws.antt` and others have for the files of their names; for what changes
//! with the pages of a series `specs/Chains.antt` first, for what is kept in memory `specs/Placed.antt`.
#![tactic(auto)]

mod chain_laws;
mod charge_laws;
mod format_laws;
mod free_laws;
mod laws;
mod memory_laws;
mod place;

pub use chain_laws::{
    a_regular_element_is_on_its_grid, a_series_is_dropped_with_its_pages, a_series_is_on_its_pages,
    a_series_is_rewritten, elements_are_a_map_by_stamps, pages_are_sheets,
    pages_that_hold_are_filled,
};
pub use charge_laws::{
    charges_follow_the_directory, quotas_follow_the_directory, the_quotas_leave_room,
};
pub use format_laws::{
    a_catalogue_keeps_its_format, a_volume_takes_the_newest_format,
    the_elements_of_a_page_are_of_the_format, the_newest_format_has_all,
};
pub use free_laws::{pages_are_free_or_placed, the_places_of_other_series_stay};
pub use laws::{
    a_definition_is_dropped, a_definition_is_made, a_definition_is_used_by_its_slot,
    a_journal_and_freed_bytes_mean_nothing, a_written_slot_changes_definitions_alone,
    names_stand_in_slots, pages_mean_one_catalogue, references_are_names, slots_are_counted,
};
pub use memory_laws::{
    a_layout_is_kept, a_series_is_dropped_with_its_places, places_and_free_pages_stay_apart,
    sound_definitions_are_those_of_a_layout, the_same_lists_are_kept,
};
pub use place::{
    CONTAINERS, ROW_TYPES, Slots, byte_of_slot, page_of_slot, slot_size, slots_in_page,
};
