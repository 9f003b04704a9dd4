//! How a job begins: its volume is opened, and its source is pulled in pieces up to a limit. What keeps a volume from
//! being opened has a status (`opening.rt`), and every job that opens one shows the same of it; that, what was taken of
//! a source, and a run of what its bytes ask for, is `specs/Opening`. Stands on ts_engine, whose `Engine::start` is the
//! opening, and on ts_carriers for what a run is; knows no statement and no reply. Read `specs/Opening.antt`.
#![tactic(auto)]

mod opening;
mod pull;

pub use opening::unopened;
pub use pull::{PIECE, pull_front, room_after};
pub use ts_engine::{Engine, StepFault};
