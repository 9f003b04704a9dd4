// The laws of answers on catalogues: what is read and combined, addresses, origins and shapes.
ghost use Rattle.ts_catalogue_laws.specs.OfCatalogues.{ReferencesAreThere, ClipsOfCatalogues, NumbersOfCatalogues};
ghost use Rattle.ts_catalogue_laws.specs.OfCatalogues.{LagsOfCatalogues, CountedClipsOfCatalogues};
ghost use Rattle.ts_catalogue_laws.specs.OfCatalogues.{IntervalsOfCatalogues, AddressesOfCatalogues};
ghost use Rattle.ts_catalogue_laws.specs.OfCatalogues.{OriginsOfCatalogues, JoinsOfCatalogues, ShapesOfCatalogues};

use ts_answer_laws::{
    a_clip_lists_the_entries_between, a_counted_clip_is_part_of_a_clip, a_lag_is_by_offsets,
    a_made_calendar_is_valid, a_number_is_an_offset, a_row_is_of_an_interval,
    a_series_keeps_its_shape, a_stamp_addresses_its_interval, an_origin_is_an_on_start,
};

/// The container, the row type, the quota and the calendar that a series of a catalogue refers to are there: no answer
/// speaks of a series without columns, without a quota or without a calendar.
pub fn what_a_series_refers_to_is_there()
    ensures { ReferencesAreThere }
{}

/// What Clip lists of a series of a catalogue: its entries from one stamp to another.
pub fn a_clip_of_a_catalogue_lists_entries()
    ensures { ClipsOfCatalogues }
{
    a_clip_lists_the_entries_between();
}

/// The entry of a number in a regular series of a catalogue stands at the on start of this offset.
pub fn a_number_in_a_catalogue_is_an_offset()
    ensures { NumbersOfCatalogues }
{
    a_number_is_an_offset();
}

/// What Lag lists of a series of a catalogue is by offsets; it lists nothing of an irregular one.
pub fn a_lag_in_a_catalogue_is_by_offsets()
    ensures { LagsOfCatalogues }
{
    a_lag_is_by_offsets();
}

/// What ClipCount lists of a series of a catalogue is the first, or the last, of what Clip lists.
pub fn a_counted_clip_of_a_catalogue_is_part_of_a_clip()
    ensures { CountedClipsOfCatalogues }
{
    a_counted_clip_is_part_of_a_clip();
}

/// What AggregateBy lists of a series of a catalogue are the on intervals of the calendar that hold elements.
pub fn an_aggregate_of_a_catalogue_is_by_intervals()
    ensures { IntervalsOfCatalogues }
{
    a_row_is_of_an_interval();
}

/// A stamp addresses itself in an irregular series, and in a regular one of a catalogue the start of the on interval
/// that holds it.
pub fn a_stamp_in_a_catalogue_addresses_an_interval()
    ensures { AddressesOfCatalogues }
{
    a_stamp_addresses_its_interval();
}

/// The origin that TSCreate gives a series of a catalogue is an on start of its calendar.
pub fn an_origin_in_a_catalogue_is_an_on_start()
    ensures { OriginsOfCatalogues }
{
    an_origin_is_an_on_start();
}

/// What AndOp and OrOp make of two calendars of a catalogue breaks no rule.
pub fn a_join_of_calendars_of_a_catalogue_is_valid()
    ensures { JoinsOfCatalogues }
{
    a_made_calendar_is_valid();
}

/// Where the elements of a series of a catalogue can stand is the same behind each command.
pub fn a_series_of_a_catalogue_keeps_its_shape()
    ensures { ShapesOfCatalogues }
{
    a_series_keeps_its_shape();
}
