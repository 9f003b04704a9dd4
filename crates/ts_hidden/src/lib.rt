//! Which series have no hidden element. `Marks` keeps the keys of those that may have some: where it covers a
//! catalogue, an entry of a series that isn't marked is found by its number without a look at those before it
//! (`specs/Marks`). No command but HideElem hides an element (`only_hide_elem_hides`, `specs/Hidden`): so marks that
//! cover a catalogue cover the one after a command whose series was marked first. Stands on ts_answer for what commands
//! come to, and on ts_model for the keys of slots. Read `specs/Hidden.antt`, `specs/Marks.antt`, then `marks.rt`.
#![tactic(auto)]

mod laws;
mod marks;

pub use laws::only_hide_elem_hides;
pub use marks::Marks;
