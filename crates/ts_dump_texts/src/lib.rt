//! The texts of the statements that a catalogue is made of (`specs/Texts`), and what they are read as (`specs/Laws`):
//! laws alone. A text is read as the statement that it is of, where its parts are those of a catalogue; a row as
//! literals that give it back. Each is one line, and a script of lines asks for what they are read as
//! (`specs/Script`). Stands on ts_command, ts_arguments and ts_items for what a script is read as, on ts_pattern,
//! ts_calendar and ts_row for what is printed. Read `specs/Texts.antt`, then `laws.rt`.
#![tactic(auto)]

mod laws;

pub use laws::{scripts_ask_for_their_lines, texts_are_lines, texts_are_read_as_their_statements};
