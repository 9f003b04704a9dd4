//! The items of a script: `Reader` cuts its bytes into statements, however they come in pieces, and keeps one statement
//! at a time. Which items a script has is said byte by byte (`specs/Items`), and once more by the parts that it is made
//! of (`specs/Parts`); that both say the same, and that the items of a front come first, are laws (`laws.rt`). Stands
//! on ts_base; knows nothing of what a statement says. Read `specs/Parts.antt`, then `reader.rt`.
#![tactic(auto)]

mod laws;
mod reader;

pub use laws::{items_are_those_of_the_parts, items_of_a_front_come_first};
pub use reader::{Cut, Fed, Reader};
