//! Sessions over an engine: `run_sessions` carries the scripts of sections out, by turns that picks decide
//! (`specs/Ran`). The items of all sections are cut before anything is said, and whose turn it is is the schedule of
//! ts_multi (both by ts_session_scripts); each turn is answered by ts_session_turns, and its reply is said behind the
//! line of its session once it is carried out (`hall.rt`). What was said and what a stop leaves is a run of
//! ts_carriers, over the protocol of ts_sessions. Read `specs/Ran.antt`, then `run.rt` and `hall.rt`.
#![tactic(auto)]

mod hall;
mod line;
mod run;

pub use run::run_sessions;
