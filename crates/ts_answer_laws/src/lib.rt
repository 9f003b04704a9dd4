//! What follows of the answers of a catalogue, in the words of one who asks: laws of its commands (`specs/Laws`, and
//! `specs/Objects` over the objects that each command writes), of series and their edits (`specs/SeriesLaws` over
//! `specs/Edited`), of what is read of them (`specs/ReadingLaws`), of what is folded (`specs/AggregateLaws`) and of
//! transactions (`specs/TransactionLaws`). Each law is the contract of a function without a body. They stand apart, so
//! that the crates which carry commands out don't wait for them. Stands on ts_answer for the answers, on ts_multi for
//! the objects that commands write, on ts_combine, ts_entry, ts_chain and ts_irregular for lists of elements, on
//! ts_offset and ts_calendar for grids. Read `laws.rt`, `reading_laws.rt`, `aggregate_laws.rt`, then
//! `transaction_laws.rt`, each beside its specs.
#![tactic(auto)]

mod aggregate_laws;
mod laws;
mod reading_laws;
mod transaction_laws;

pub use aggregate_laws::{
    a_count_is_of_elements, a_range_is_one_row, a_row_is_of_an_interval, each_series_has_its_range,
    others_play_no_part_in_a_range,
};
pub use laws::{
    a_calendar_in_use_stays, a_deletion_takes_what_it_names, a_made_calendar_is_valid,
    a_pattern_in_use_stays, a_put_on_a_grid_stands_at_its_address, a_put_replaces_no_element,
    a_refused_request_changes_nothing, a_series_keeps_its_shape, a_stamp_addresses_its_interval,
    an_origin_is_an_on_start, commands_fit_one_record, lines_are_printed_so,
    reading_changes_nothing, replies_and_the_memory_line_are_apart, what_is_not_written_stays,
};
pub use reading_laws::{
    a_clip_lists_the_entries_between, a_count_is_of_what_is_listed,
    a_counted_clip_is_part_of_a_clip, a_join_is_by_stamps, a_lag_is_by_offsets,
    a_number_is_an_offset, an_end_has_none_beyond, an_intersection_is_part_of_the_union,
};
pub use transaction_laws::{
    a_transaction_is_never_overfull, only_commits_move_the_base,
    what_is_committed_is_what_the_commands_make, what_is_rolled_back_leaves_nothing,
};
