//! Whole runs, and what a stop within any of their calls leaves. There are only tests: they stand apart, since a crate
//! that has tests of its own is proved twice. Stands on ts_programs, and on ts_disk's volume in memory. Read
//! `stops.rt`, then `routines.rt`.
#![tactic(auto)]

#[cfg(test)]
mod routines;
#[cfg(test)]
mod stops;
