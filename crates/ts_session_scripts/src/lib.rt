//! The scripts of sessions, and whose turn it is. A script is cut into its items before any of them is carried out
//! (`piece.rt`), which then wait for their turn (`script.rt`); a pick falls on one of the sessions that have items left
//! (`schedule.rt`). The items are those of ts_items, the order is the schedule of ts_multi. Knows nothing of engines,
//! pages or disks. Read `specs/Script.antt`, then `script.rt` and `schedule.rt`.
#![tactic(auto)]

mod piece;
mod schedule;
mod script;
mod statement;
#[cfg(test)]
mod tests;

pub use piece::Piece;
pub use schedule::next_session;
pub use script::{Script, scripts_of};
pub use statement::Statement;
