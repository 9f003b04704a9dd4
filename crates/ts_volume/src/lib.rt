//! What the bytes of a volume mean, and what holds of it: bytes mean a catalogue where they are as many as a volume
//! has, no record of their journal is malformed, and the pages that they have by it are laid out as that catalogue
//! (`specs/Volume`). Where they mean none, the first bad page is the least that the first of nine steps finds
//! (`specs/FirstBad`). Definitions alone, which the engine and all that stands on it cite; the laws are in `laws.rt`
//! and `first_bad_laws.rt`. Reads and writes nothing; stands on ts_journal for the pages that a volume has, and on
//! ts_layout for what pages mean. Read `specs/Volume.antt`, then `specs/FirstBad.antt` and `specs/Laws.antt`.
#![tactic(auto)]

mod first_bad_laws;
mod laws;

pub use first_bad_laws::{
    bad_pages_mean_nothing, first_bad_pages_are_within, there_is_one_first_bad_page,
};
pub use laws::{
    bytes_mean_one_catalogue, layouts_are_meant, no_volume_means_nothing, same_pages_mean_the_same,
};
