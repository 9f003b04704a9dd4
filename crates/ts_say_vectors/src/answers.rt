// The laws of answers, which hold for all values: a test calls each. And the effects of commands.
use std::test::Fail;
use ts_answer::Effect;
use ts_answer_laws::{
    a_calendar_in_use_stays, a_clip_lists_the_entries_between, a_count_is_of_elements,
    a_count_is_of_what_is_listed, a_counted_clip_is_part_of_a_clip, a_deletion_takes_what_it_names,
    a_join_is_by_stamps, a_lag_is_by_offsets, a_made_calendar_is_valid, a_number_is_an_offset,
    a_pattern_in_use_stays, a_put_on_a_grid_stands_at_its_address, a_put_replaces_no_element,
    a_range_is_one_row, a_refused_request_changes_nothing, a_row_is_of_an_interval,
    a_series_keeps_its_shape, a_stamp_addresses_its_interval, a_transaction_is_never_overfull,
    an_end_has_none_beyond, an_intersection_is_part_of_the_union, an_origin_is_an_on_start,
    commands_fit_one_record, each_series_has_its_range, lines_are_printed_so,
    only_commits_move_the_base, others_play_no_part_in_a_range, reading_changes_nothing,
    replies_and_the_memory_line_are_apart, what_is_committed_is_what_the_commands_make,
    what_is_not_written_stays, what_is_rolled_back_leaves_nothing,
};

#[test]
fn the_laws_are_called(_rt: HostRuntime) -> Result<(), Fail> {
    replies_and_the_memory_line_are_apart();
    a_refused_request_changes_nothing();
    reading_changes_nothing();
    what_is_not_written_stays();
    a_put_replaces_no_element();
    a_deletion_takes_what_it_names();
    a_made_calendar_is_valid();
    a_pattern_in_use_stays();
    a_calendar_in_use_stays();
    a_series_keeps_its_shape();
    a_put_on_a_grid_stands_at_its_address();
    a_stamp_addresses_its_interval();
    an_origin_is_an_on_start();
    commands_fit_one_record();
    lines_are_printed_so();
    a_clip_lists_the_entries_between();
    a_count_is_of_what_is_listed();
    a_counted_clip_is_part_of_a_clip();
    an_end_has_none_beyond();
    a_number_is_an_offset();
    an_intersection_is_part_of_the_union();
    a_lag_is_by_offsets();
    a_join_is_by_stamps();
    a_range_is_one_row();
    others_play_no_part_in_a_range();
    each_series_has_its_range();
    a_row_is_of_an_interval();
    a_count_is_of_elements();
    only_commits_move_the_base();
    what_is_rolled_back_leaves_nothing();
    what_is_committed_is_what_the_commands_make();
    a_transaction_is_never_overfull();
    Ok(())
}

#[test]
fn an_effect_is_none_or_some(rt: HostRuntime) -> Result<(), Fail> {
    assert!(rt; Effect::Nothing.is_nothing());
    assert!(rt; !Effect::Series { slot: 7 }.is_nothing());
    Ok(())
}
