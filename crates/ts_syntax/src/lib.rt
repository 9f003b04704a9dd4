//! The refused statements of a script, told before it is run: `check_syntax` reads a script and says a line of each
//! statement that the grammar refuses, that is too long or that the end cuts off, and of no other (`specs/Mistakes`),
//! with the line and the column at which its bytes can't go on (`specs/Places`, `specs/Lines`). What follows the place
//! on a line are words for a reader (`words.rt`), of which nothing is promised but that no control byte is among them.
//! It keeps one statement at a time. Stands on ts_items for the statements, on ts_command for the grammar and on
//! ts_disk for the script; knows nothing of a volume. Read `specs/Mistakes.antt`, `specs/Checked.antt`, then `check.rt`
//! and `checker.rt`.
#![tactic(auto)]

mod check;
mod checker;
mod laws;
mod line;
mod output;
mod position;
mod words;

pub use check::check_syntax;
pub use laws::{mistakes_are_the_refusals, mistakes_stand_in_their_statements};
pub use output::{MemoryOutput, Output};
