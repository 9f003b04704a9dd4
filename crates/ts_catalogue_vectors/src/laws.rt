// The laws of catalogues and of statements, which hold for all values: a test calls each.
use std::test::Fail;
use ts_catalogue_laws::{
    a_clip_of_a_catalogue_lists_entries, a_counted_clip_of_a_catalogue_is_part_of_a_clip,
    a_join_lists_the_values_of_both, a_join_of_calendars_of_a_catalogue_is_valid,
    a_lag_in_a_catalogue_is_by_offsets, a_number_in_a_catalogue_is_an_offset,
    a_row_is_put_in_its_place, a_run_keeps_catalogues, a_script_keeps_catalogues,
    a_series_of_a_catalogue_keeps_its_shape, a_stamp_in_a_catalogue_addresses_an_interval,
    a_store_of_nothing_is_a_catalogue, a_volume_means_a_catalogue, an_addressed_element_is_marked,
    an_aggregate_of_a_catalogue_is_by_intervals, an_answer_keeps_a_catalogue,
    an_origin_in_a_catalogue_is_an_on_start, what_a_script_asks_for_is_formed,
    what_a_series_refers_to_is_there,
};
use ts_statement_laws::statements_are_tokens;

#[test]
fn the_laws_are_called(_rt: HostRuntime) -> Result<(), Fail> {
    a_volume_means_a_catalogue();
    a_store_of_nothing_is_a_catalogue();
    an_answer_keeps_a_catalogue();
    a_run_keeps_catalogues();
    what_a_script_asks_for_is_formed();
    a_script_keeps_catalogues();
    what_a_series_refers_to_is_there();
    a_clip_of_a_catalogue_lists_entries();
    a_number_in_a_catalogue_is_an_offset();
    a_lag_in_a_catalogue_is_by_offsets();
    a_counted_clip_of_a_catalogue_is_part_of_a_clip();
    an_aggregate_of_a_catalogue_is_by_intervals();
    a_stamp_in_a_catalogue_addresses_an_interval();
    an_origin_in_a_catalogue_is_an_on_start();
    a_join_of_calendars_of_a_catalogue_is_valid();
    a_series_of_a_catalogue_keeps_its_shape();
    a_row_is_put_in_its_place();
    an_addressed_element_is_marked();
    a_join_lists_the_values_of_both();
    statements_are_tokens();
    Ok(())
}
