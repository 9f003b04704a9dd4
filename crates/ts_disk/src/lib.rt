//! The outside: a volume of bytes that a stop may tear, an output and an input, as the contracts of three traits,
//! and each of them in memory. What a call does is said of one record, what a volume means at a moment
//! (`specs/Device`), and so is what a stop may leave, at every moment since a time. `MemorySite` meets every clause
//! with no assumption, and tells after a run what a stop within any of its calls leaves. Stands on nothing; knows
//! nothing of pages. Read `specs/Device.antt`, then `volume.rt`.
#![tactic(auto)]

mod calls;
mod count;
mod end;
mod memory_site;
mod memory_source;
mod volume;

pub use calls::Pick;
pub use count::raise;
pub use end::either;
pub use memory_site::MemorySite;
pub use memory_source::{BlankSource, MemorySource};
pub use volume::{Failed, PullFailed, SayFailed, Site, Source, Volume};
