//! Rolling windows: a set keeps the elements of the last windows of a calendar, each window in a series of its own. The
//! key of that series is the set's, `#` and the number of the window in twelve digits; the key of the set's control is
//! the set's, `#w` and the number of windows that are kept in four digits (`specs/Sets`). Keys are told by the numbers
//! that they have, and window keys rise with their numbers (`laws.rt`). What a put asks for is planned here: the window
//! of its stamp, whether it is to be made, and which windows go. Which series of a catalogue are of a set, and what of
//! all puts is kept, are definitions (`specs/Sets`, `specs/Kept`). Stands on ts_offset for grids, on ts_model for
//! catalogues; carries nothing out. Read `specs/Sets.antt`, then `plan.rt`.
#![tactic(auto)]

mod keys;
mod laws;
mod plan;

pub use keys::{control_key, is_set, read_control, read_window, window_key};
pub use laws::{
    control_keys_rise, keys_are_read_exactly, series_are_found_by_keys, sets_share_no_keys,
    window_keys_rise,
};
pub use plan::{Plan, plan_put};
