//! The catalogue of a store as plain values, and the definitions of its row types, patterns, calendars, containers
//! and series in slots.
//! A catalogue is what a volume means and what each answer is computed from (`specs/Catalogue`): names stand for
//! objects, and the elements of a series are a map from stamps to rows. `Defs` keeps the same definitions without
//! the elements in numbered slots, found by name (`specs/Definitions`), with the format of their volume; `set` changes
//! one slot and no other. Stands on ts_offset, ts_calendar, ts_pattern, ts_space, ts_row and ts_base; knows nothing of
//! pages or disks. Read `specs/Catalogue.antt`, then `specs/Definitions.antt` and `defs.rt`.
#![tactic(auto)]

mod def;
mod defs;
mod format;
mod kind;
mod table;

pub use def::Def;
pub use defs::Defs;
pub use format::{FORMAT, OLD_FORMAT};
pub use kind::Kind;
