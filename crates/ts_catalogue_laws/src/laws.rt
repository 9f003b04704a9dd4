// What a volume means is a catalogue, and so is what stands behind any reply.
ghost use Rattle.ts_catalogue_laws.specs.Laws.{VolumesMeanCatalogues, EmptyStoresAreCatalogues};
ghost use Rattle.ts_catalogue_laws.specs.Laws.{AnswersKeepCatalogues, RunsKeepCatalogues};

use ts_answer_laws::an_origin_is_an_on_start;
use ts_layout::{
    a_catalogue_keeps_its_format, a_regular_element_is_on_its_grid, charges_follow_the_directory,
    names_stand_in_slots, pages_that_hold_are_filled, references_are_names, slots_are_counted,
};

/// What the bytes of a volume mean is a catalogue: rows fit their type, stamps are stamps and rise, elements of regular
/// series stand at on starts, calendars are valid, what is referred to is there, and charges are within quotas.
pub fn a_volume_means_a_catalogue()
    ensures { VolumesMeanCatalogues }
{
    names_stand_in_slots();
    references_are_names();
    slots_are_counted();
    charges_follow_the_directory();
    a_regular_element_is_on_its_grid();
    pages_that_hold_are_filled();
    a_catalogue_keeps_its_format();
}

/// A store that holds nothing is one.
pub fn a_store_of_nothing_is_a_catalogue()
    ensures { EmptyStoresAreCatalogues }
{}

/// Whatever is asked of a catalogue, what stands behind the reply is one.
pub fn an_answer_keeps_a_catalogue()
    ensures { AnswersKeepCatalogues }
{
    an_origin_is_an_on_start();
}

/// So it is in each run: what its volume means is a catalogue, and so is what a transaction has made of it.
pub fn a_run_keeps_catalogues()
    ensures { RunsKeepCatalogues }
{
    an_answer_keeps_a_catalogue();
}
