// What carrying out the statements of a catalogue comes to.
ghost use Rattle.ts_dump_laws.specs.Alone.{SeriesStandAlone};
ghost use Rattle.ts_dump_laws.specs.Laws.{StatementsMakeCatalogues, TransactionsMakeCatalogues};
ghost use Rattle.ts_dump_laws.specs.Said.{ScriptsMakeCatalogues, ScriptsMakeSeries, ScriptsMakeVolumes};
ghost use Rattle.ts_dump_laws.specs.Volumes.{StatementsMakeVolumes};

use ts_calendar::printed_calendars_are_read;
use ts_catalogue_laws::a_volume_means_a_catalogue;
use ts_dump_texts::{
    scripts_ask_for_their_lines, texts_are_lines, texts_are_read_as_their_statements,
};
use ts_pattern::printed_patterns_are_read;

/// The statements of a catalogue, carried out on an empty one with as many pages, are answered, each by `ok`, and make
/// the catalogue, in the newest format.
pub fn statements_make_their_catalogue()
    ensures { StatementsMakeCatalogues }
{
    printed_patterns_are_read();
    printed_calendars_are_read();
}

/// So do they in transactions of 32.
pub fn transactions_make_the_catalogue()
    ensures { TransactionsMakeCatalogues }
{
    printed_patterns_are_read();
    printed_calendars_are_read();
}

/// The statements of what the bytes of a volume mean, carried out on an empty catalogue with as many pages, are
/// answered, each by `ok`, and make what the volume means, in the newest format; so do they in transactions of 32.
pub fn statements_make_what_a_volume_means()
    ensures { StatementsMakeVolumes }
{
    a_volume_means_a_catalogue();
    statements_make_their_catalogue();
    transactions_make_the_catalogue();
}

/// The script of a catalogue, one statement a line, asks for commands which, carried out on an empty catalogue with as
/// many pages, are answered, each by `ok`, and make the catalogue, in the newest format; also in transactions of 32.
/// The script of its definitions makes it without elements.
pub fn scripts_make_their_catalogue()
    ensures { ScriptsMakeCatalogues }
{
    texts_are_read_as_their_statements();
    texts_are_lines();
    scripts_ask_for_their_lines();
    statements_make_their_catalogue();
    transactions_make_the_catalogue();
}

/// So it is of what the bytes of a volume mean.
pub fn scripts_make_what_a_volume_means()
    ensures { ScriptsMakeVolumes }
{
    a_volume_means_a_catalogue();
    scripts_make_their_catalogue();
}

/// A series of a catalogue with its container, the row type of this, its calendar and the pattern of this is a
/// catalogue too, with the series as it was: so its script makes it on another volume.
pub fn a_series_stands_alone()
    ensures { SeriesStandAlone }
{}

/// So it is of each series of what the bytes of a volume mean, with what it stands on alone.
pub fn scripts_make_series_of_volumes()
    ensures { ScriptsMakeSeries }
{
    a_volume_means_a_catalogue();
    scripts_make_their_catalogue();
    a_series_stands_alone();
}
