//! The catalogue of a view, and what leaves it as it is: laws alone, in which the pages of ts_views meet what pages
//! mean (ts_layout) and what commands see (ts_answer). A view means a catalogue where its pages do
//! (`specs/Catalogues`). One that is opened means the newest; to keep old images leaves it, and so does a commit of
//! whose pages it has them (`specs/Laws`). Stands on ts_views and ts_volume; knows nothing of the disk. Read
//! `specs/Catalogues.antt`, then `laws.rt`.
#![tactic(auto)]

mod laws;

pub use laws::{
    a_commit_leaves_the_catalogue_of_a_view, a_kept_image_leaves_the_catalogue_of_a_view,
    an_opened_view_is_the_newest,
};
