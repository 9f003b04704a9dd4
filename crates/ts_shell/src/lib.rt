//! The top call. `run_ts` does what the program's words ask for: `init` makes an empty store, `run` carries out a
//! script, `check` says a report on a store or which page of a volume is the first bad one, `migrate` brings a store to
//! the newest format, `gen` carries out commands that a seed gives, and `sessions` carries out the scripts of several
//! sessions that a seed interleaves. Each word has a clause of its own, which says what a stop at any moment leaves,
//! what is said, and each status by its cause; which words ask for what is `specs/Words`. Stands on ts_script_runs for
//! `run`, ts_generator for `gen`, ts_session_source for `sessions`, ts_check for reports, and ts_engine and ts_opening
//! for `migrate`; `init` is its own. Read `specs/Top.antt`, then `top.rt`.
#![tactic(auto)]

mod check;
mod make;
mod migrate;
mod top;
mod words;

pub use top::run_ts;
pub use words::{Job, read_job};
