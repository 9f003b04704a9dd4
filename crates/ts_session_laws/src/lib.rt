//! Sessions and runs that are alone: what a session hears from its Begin on is what a run would say, whatever others
//! do, and one session is a run. Laws alone, on which no crate stands; they stand apart since they rest on what follows
//! of the answers (ts_answer_laws: a reading changes nothing). Read `laws.rt` beside `specs/Laws.antt`.
#![tactic(auto)]

mod laws;

pub use laws::{a_snapshot_is_a_run, one_session_is_a_run};
