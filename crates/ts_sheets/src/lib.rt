//! How the elements of one series lie on its pages, and what a list of elements is beside them: the pages of an
//! irregular series as a chain, with the places that tell of them (`specs/Places`); the elements of a regular one at
//! the on starts of their offsets; what a grid is charged (`specs/Charge`); and, of any list of elements, those between
//! two stamps and where one is put whose stamp may be taken (`specs/Stamped`). Definitions alone, and their laws
//! (`laws.rt`); stands on ts_irregular and ts_regular for one page, on ts_offset for on starts. Reads and writes
//! nothing. Read `specs/Stamped.antt`.
#![tactic(auto)]

mod laws;

pub use laws::{chains_are_in_order, chains_have_few_pages, grids_have_few_pages, starts_rise};
