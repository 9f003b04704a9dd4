//! Routines on single elements of a series: edits, marks, removals, and the readings of one element; and a series
//! dropped with its pages. Each is carried out on pages (`specs/CarriedOut` of ts_answer). All begin with a series, its
//! columns and its shape (ts_shelf), and call what edits or reads pages of that shape (`calls.rt`, `found.rt`). Stands
//! on ts_series and ts_regular_edits for edits, on ts_clip for the first and the last element, and on ts_layout for
//! what series are in a layout. Read `specs/Stamps.antt`, `specs/Calls.antt`, then `calls.rt`, `room.rt`, `edits.rt`,
//! `removal.rt`, `marks.rt`, `found.rt`, `element.rt`.
#![tactic(auto)]

mod calls;
mod edits;
mod element;
mod found;
mod marks;
mod removal;
mod room;
mod series;

pub use edits::edit_element;
pub use element::{get_element, get_first_element, get_last_element};
pub use marks::mark_element;
pub use removal::{delete_element, delete_range};
pub use series::drop_series;
