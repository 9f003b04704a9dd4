//! A series on pages that are seen: found by its key or in its slot, with its columns and its shape, and its places
//! such that they can be read and written (`shelf_of`, `shelf_at`). Every routine on elements begins so. Here stands
//! too what the crates of these routines know in common: which elements a series that is seen has
//! (`proofs/SeenLemmas`), what is kept in memory of it whatever the pages hold (`proofs/MemoryLemmas`), what an
//! aggregate list makes of it (`proofs/FoldLemmas`), and how a routine ends that reads pages (`proofs/ReadingLemmas`).
//! Stands on ts_define and ts_container for what is defined, on ts_clip and ts_aggregate for what pages of a series
//! say, on ts_layout for what series are in a layout, and on ts_answer for what is seen and answered. Read
//! `specs/Shelf.antt`, then `shelf.rt`.
#![tactic(auto)]

mod shelf;

pub use shelf::{shelf_at, shelf_of};
