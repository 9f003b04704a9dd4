ghost use Rattle.ts_replies.specs.Acknowledged.{AreApart};
ghost use Rattle.ts_answer.specs.Answer.{run_answer};
ghost use Rattle.ts_answer_laws.specs.Laws.{RefusalsChangeNothing, ReadingsChangeNothing, OthersStay};
ghost use Rattle.ts_answer_laws.specs.Laws.{MadeCalendarsAreValid, UsedPatternsStay, CommandsFitOneRecord};
ghost use Rattle.ts_answer_laws.specs.Laws.{LinesArePrintedSo};
ghost use Rattle.ts_answer_laws.specs.SeriesLaws.{PutsAdd, PutsStandAtAddresses, DeletionsTakeAway};
ghost use Rattle.ts_answer_laws.specs.SeriesLaws.{StampsAddressIntervals, OriginsAreOnStarts, UsedCalendarsStay};
ghost use Rattle.ts_answer_laws.specs.SeriesLaws.{SeriesKeepTheirShapes};

use ts_rolling::keys_are_read_exactly;

/// At no state does a reply begin with the memory line, nor the memory line with a reply, and no reply is empty: so
/// what was said determines the state.
pub fn replies_and_the_memory_line_are_apart()
    ensures { AreApart run_answer }
{}

/// A request that is refused is answered by the line of its refusal, and changes nothing.
pub fn a_refused_request_changes_nothing()
    ensures { RefusalsChangeNothing }
{}

/// The routines that only read change nothing, whatever they answer.
pub fn reading_changes_nothing()
    ensures { ReadingsChangeNothing }
{}

/// What a command changes in the catalogue is what it wrote: every other object stands there as before.
pub fn what_is_not_written_stays()
    ensures { OthersStay }
{}

/// An element that is put into an irregular series comes to those that are there, hidden ones too, at a stamp at which
/// none stood: none is replaced.
pub fn a_put_replaces_no_element()
    ensures { PutsAdd }
{}

/// An element that is put into a regular series stands at the start of the on interval that holds its stamp, in place
/// of one that stood there.
pub fn a_put_on_a_grid_stands_at_its_address()
    ensures { PutsStandAtAddresses }
{}

/// What is deleted is what was addressed, hidden or not, and that many elements are counted; all others stay.
pub fn a_deletion_takes_what_it_names()
    ensures { DeletionsTakeAway }
{}

/// The text of a calendar that was made stands in the catalogue for a calendar that keeps the rules of calendars.
pub fn a_made_calendar_is_valid()
    ensures { MadeCalendarsAreValid }
{}

/// The pattern by whose name a calendar was made can't be dropped, and every other can.
pub fn a_pattern_in_use_stays()
    ensures { UsedPatternsStay }
{}

/// The calendar of a regular series can't be dropped, and every other can.
pub fn a_calendar_in_use_stays()
    ensures { UsedCalendarsStay }
{}

/// In a regular series a stamp addresses the start of the on interval that holds it, and none exactly where no on
/// interval does or one that starts before the origin.
pub fn a_stamp_addresses_its_interval()
    ensures { StampsAddressIntervals }
{}

/// The origin of a regular series is an on start: that of the on interval that holds the given stamp, else the next
/// one. It is what is said.
pub fn an_origin_is_an_on_start()
    ensures { OriginsAreOnStarts }
{}

/// No command changes where the elements of a series can stand: none is ever at another stamp than where it was put.
pub fn a_series_keeps_its_shape()
    ensures { SeriesKeepTheirShapes }
{
    keys_are_read_exactly();
}

/// Commands after one another grow a record by no more than each of them, and those of a whole transaction fit one: it
/// has at most 65536 element pages and room for 1048556 bytes.
pub fn commands_fit_one_record()
    ensures { CommandsFitOneRecord }
{}

/// Lines as they are printed: numbers of refusals without padding, a sign only before what is negative, merged runs
/// without blanks, a key in quotes and a quote in it twice.
pub fn lines_are_printed_so()
    ensures { LinesArePrintedSo }
{}
