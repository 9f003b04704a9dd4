//! Edits of one regular series at stamps. A stamp addresses the element of the on interval that holds it, which stands
//! at the start of that interval (`specs/Address`). `edit_at` puts an element, in place of another or not, inserts one
//! or changes its row (`specs/Edit`); `find_at`, `mark_at` and `delete_at` read, hide or reveal, and take away the
//! element that a stamp addresses (`specs/Element`); `clear_at` takes all from one stamp to another away
//! (`specs/Range`). As many pages as the places tell of are charged, and these are those that the offsets belong to
//! (`specs/Charge`); to edit at an offset is to edit at its stamp (`specs/Stamped`). Stands on ts_regular and
//! ts_offset; knows nothing of definitions, names or journals. Read `specs/Edit.antt`, then `edits.rt`.
#![tactic(auto)]

mod address;
mod edits;
mod element;
mod laws;
mod range;

pub use edits::edit_at;
pub use element::{delete_at, find_at, mark_at};
pub use laws::{
    edits_at_offsets_are_edits_at_stamps, places_are_the_charge,
    ranges_of_offsets_are_ranges_of_stamps,
};
pub use range::clear_at;
