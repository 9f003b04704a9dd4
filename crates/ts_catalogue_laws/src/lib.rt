//! What every catalogue is that a volume means (`specs/Catalogue`), that each command leaves such a one, and what
//! follows: laws alone, on which no crate stands but tests. A volume that means a catalogue means such a one, and so
//! is what stands behind any reply (`specs/Laws`, over requests that statements are read as, `specs/Commands`). Each
//! law is the contract of a function that does nothing, or only calls the laws that it stands on. Stands on ts_volume
//! for what bytes mean, on ts_answer for the answers, on ts_answer_laws for what follows of them, and on
//! ts_statement_laws for what is read. Read `specs/Catalogue.antt`, then `laws.rt` beside `specs/Laws.antt`.
#![tactic(auto)]

mod edit_laws;
mod join_laws;
mod laws;
mod of_catalogues;
mod script_laws;

pub use edit_laws::{a_row_is_put_in_its_place, an_addressed_element_is_marked};
pub use join_laws::a_join_lists_the_values_of_both;
pub use laws::{
    a_run_keeps_catalogues, a_store_of_nothing_is_a_catalogue, a_volume_means_a_catalogue,
    an_answer_keeps_a_catalogue,
};
pub use of_catalogues::{
    a_clip_of_a_catalogue_lists_entries, a_counted_clip_of_a_catalogue_is_part_of_a_clip,
    a_join_of_calendars_of_a_catalogue_is_valid, a_lag_in_a_catalogue_is_by_offsets,
    a_number_in_a_catalogue_is_an_offset, a_series_of_a_catalogue_keeps_its_shape,
    a_stamp_in_a_catalogue_addresses_an_interval, an_aggregate_of_a_catalogue_is_by_intervals,
    an_origin_in_a_catalogue_is_an_on_start, what_a_series_refers_to_is_there,
};
pub use script_laws::{a_script_keeps_catalogues, what_a_script_asks_for_is_formed};
