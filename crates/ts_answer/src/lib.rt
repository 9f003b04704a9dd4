//! What a catalogue answers to a command, and what it is to carry a command out. The answer is small definitions, one a
//! routine (`specs/Answer`, and `specs/Elements` over the elements of a series), whose refusals stand in the order in
//! which they are tried (`specs/Reply`). A command is carried out on what is in memory and on pages, whatever keeps
//! them (`specs/View`), and gives its effect in memory, applied once the pages are kept (`specs/CarriedOut`). A test in
//! code says what is tried (`specs/Tried`). What a run goes through is its state: a catalogue, and the transaction that
//! is open (`specs/Answer`). Whether a command was refused is told by the last line of its reply (`specs/Outcomes`, a
//! law of `laws.rt`); what else follows of the answers is proved in a crate of its own, ts_answer_laws. Nothing here
//! speaks of a device, a journal or a record. Stands on ts_command for commands, on ts_pattern, ts_calendar and
//! ts_offset for what patterns, calendars and grids are, on ts_model and ts_layout for the catalogue of a layout. Read
//! `specs/Answer.antt`, `specs/View.antt`, then `specs/CarriedOut.antt`.
#![tactic(auto)]

mod effect;
mod laws;
mod reply;
mod stop;

pub use effect::Effect;
pub use laws::{counts_are_of_outcomes, ok_lines_are_answers};
pub use reply::ends_with_ok;
pub use stop::Stop;
