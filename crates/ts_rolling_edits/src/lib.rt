//! The edits of rolling sets: a put into one drops the windows that are too old, makes the window of its stamp and puts
//! the element there, and a drop takes a set with all of its windows, each as one effect on all that is in memory
//! (`rolling_put`, `rolling_drop`). The parts are edits of one series, carried out one behind the other on copies
//! (`copies.rt`, `parts.rt`); what becomes of the catalogue by each is chained (`specs/Parts`). A put into a window
//! that is there, where none goes, is an edit of that series, without copies. Stands on ts_rolling_sets for what a set
//! consists of and what a put asks for, on ts_elements and ts_define for the parts, and on ts_effects for the effect
//! of each on the copies. Read `specs/Parts.antt`, then `rolling.rt`.
#![tactic(auto)]

mod copies;
mod parts;
mod rolling;

pub use rolling::{rolling_drop, rolling_put};
