//! The directory of a volume: for each series the list of the pages that hold its elements, rising in where they begin,
//! and what a series is charged for its pages. A call changes the list of one series alone, and one place of it
//! (`specs/Place`, `specs/Directory`); the charges count pages by offsets or elements (`specs/Charge`). Stands on std
//! alone; reads and writes no page. Read `specs/Place.antt`, then `space.rt`.
#![tactic(auto)]

mod charge;
mod laws;
mod moved;
mod place;
mod space;

pub use charge::{charge_irregular, charge_regular};
pub use laws::{
    a_chain_is_within_its_charge, a_drop_takes_out_one_place, a_put_changes_one_place,
    more_elements_cost_no_less, places_are_edited_where_they_stand,
};
pub use moved::{Come, Moved};
pub use place::{Place, count_of, search};
pub use space::Space;
