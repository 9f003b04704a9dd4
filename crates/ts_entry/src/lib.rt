//! Entries of series: what is read of them, and those who take it. A reading is one entry after another, a stamp with
//! the row of an element or without one (`specs/Entry`). Whoever takes entries is an `EntryVisitor`: elements reach it
//! in the bytes in which they stand on their page, so that a row is made only where one is kept, as by `KeptElements`.
//! Stands on ts_row; of ts_irregular and ts_offset it cites what a list of elements is and which on starts a grid has.
//! Read `specs/Entry.antt`, then `visitor.rt`.
#![tactic(auto)]

mod elements;
mod kept;
mod rows;
mod stamps;
mod visitor;

pub use elements::ElementVisitor;
pub use kept::KeptElements;
pub use rows::RowVisitor;
pub use stamps::Stamps;
pub use visitor::EntryVisitor;
