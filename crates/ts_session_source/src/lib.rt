//! The sessions of a source: `carry_out_sessions` opens a volume, takes the whole text of a source (`text.rt`), cuts it
//! into the scripts of sessions, and carries these out in the order that a seed decides. What was said, what a stop
//! leaves, and each status by its cause is `SessionsRan` (`specs/Sessions`). Stands on ts_session_runs for the run, on
//! ts_multi for sections and picks, and on ts_opening for what every job does first. Read `specs/Sessions.antt`, then
//! `sessions.rt`.
#![tactic(auto)]

mod cut;
mod fault;
mod sessions;
mod text;

pub use sessions::carry_out_sessions;
