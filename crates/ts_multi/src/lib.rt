//! Sessions of one source. A source is cut into their scripts (`specs/Sections`), picks decide whose turn it is
//! (`specs/Schedule`, `specs/Picks`), each command is told the objects that it writes and names (`specs/Touched`), and
//! `Sessions` keeps what each commit wrote and what each open transaction touched, so that a transaction is told the
//! first commit that stands in its way (`specs/Log`). That an order is a shuffle, that the sections are the source and
//! that a conflict is the first are laws (`laws.rt`). Stands on ts_command, ts_model, ts_calendar and ts_base; knows
//! nothing of elements, pages or disks. Read `specs/Log.antt`, then `sessions.rt`.
#![tactic(auto)]

mod commit;
mod laws;
mod object;
mod picks;
mod sections;
mod sessions;
mod slot;
mod touched;

pub use laws::{
    a_conflict_is_the_first, an_order_is_a_shuffle, more_picks_change_nothing,
    sections_are_the_source,
};
pub use object::{Object, ObjectList, Touched};
pub use picks::picks_of;
pub use sections::split_sessions;
pub use sessions::Sessions;
pub use touched::objects;
