//! Routines that make and drop definitions. Each decides on a slot of a kind and what goes there, or a refusal: what
//! the catalogue of each layout with these definitions answers (`specs/Decided` of ts_answer); `redefine` writes it.
//! Tests on names and on the format serve the other routines too. Stands on ts_container for slots on pages and on
//! ts_layout for the rules of a layout. Read `slots.rt`, `drops.rt`, then `write.rt`.
#![tactic(auto)]

mod calendars;
mod containers;
mod drops;
mod format;
mod made_calendars;
mod patterns;
mod row_types;
mod series;
mod slots;
mod write;

pub use calendars::{calendar_named, joined_calendar, new_calendar};
pub use containers::new_container;
pub use drops::drop_definition;
pub use format::in_format;
pub use patterns::{joined_pattern, new_pattern, pattern_named, turned_pattern};
pub use row_types::new_row_type;
pub use series::{new_irregular, new_regular};
pub use slots::{series_named, slot_named};
pub use write::redefine;
