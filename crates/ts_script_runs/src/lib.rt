//! The script of a source: `carry_out_script` opens a volume, pulls the source in pieces, and carries the items of each
//! out before the next is pulled (`run.rt`); each reply is said once its command is durable, and before the next item
//! is begun (`session.rt`). What was said, what a stop at any moment leaves (the catalogue after exactly the commits
//! whose replies were said, or after these and the next one; a transaction is one commit), and each status by its cause
//! is `ScriptRan` (`specs/Script`). A transaction that is open at the end of the script is given up. Stands on
//! ts_engine for commands, on ts_command for statements, on ts_opening for what every job does first, on ts_carriers
//! for what a run is and on ts_replies for what a list of replies promises. Read `specs/Script.antt`, then `script.rt`.
#![tactic(auto)]

mod run;
mod script;
mod session;

pub use script::carry_out_script;
