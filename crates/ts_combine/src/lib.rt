//! Series combined: Union and Intersect of two, and Lag of one, over lists of elements.
#![tactic(auto)]

mod behind;
mod combine;
mod joined;
mod line;
mod merge;
mod needed;
mod reach;
mod rows;
mod side;
mod sweep;

pub use behind::{lag, start_behind};
pub use combine::{intersect, union};
pub use joined::{Joined, Lagged};
pub use needed::{elements_outside_play_no_part, first_needed};
pub use side::Side;
