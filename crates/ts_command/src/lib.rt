//! The script language: `read_command` gives the command that a statement is, or the first place in it that can't stand
//! there (`specs/Grammar`, over the arguments of ts_arguments). With the items of a script, which ts_items cuts, that
//! is what a script asks for (`specs/Grammar`). Routines stand in groups by what they are called with, each with one
//! reader. A further routine is a variant of its group and of `Command`, a line of the list of routines, its name, its
//! command by its arguments, its copy, its case of form, and its line of the table that tells whether it writes and
//! what it does to a transaction (`specs/Boundary`). Stands on ts_arguments, ts_items, ts_tokens, ts_row, ts_text and
//! ts_base, and on ts_rolling for the form of a set's key; knows nothing of the store. Read `specs/Grammar.antt`, then
//! `routine.rt`, `group.rt`, `range.rt` and `read.rt`.
#![tactic(auto)]

mod boundary;
mod command;
mod copy;
mod group;
mod laws;
mod range;
mod read;
mod rolling;
mod routine;
mod spelling;
mod writing;

pub use boundary::Boundary;
pub use command::Command;
pub use laws::{
    a_statement_is_its_tokens, requests_of_a_front_come_first, statements_are_refused_in_place,
};
pub use read::read_command;
pub use ts_arguments::{Columns, Literals, printed_values_are_read_again};
pub use ts_items::{Cut, Fed, Reader};
