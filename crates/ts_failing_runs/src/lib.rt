//! Whole runs in which calls fail, each in turn; and a journal that scripts fill. There are only tests: they stand
//! apart, since a crate that has tests of its own is proved twice. Stands on ts_programs, and on ts_disk's volume in
//! memory. Read `failing.rt`, then `journal.rt`.
#![tactic(auto)]

#[cfg(test)]
mod failing;
#[cfg(test)]
mod journal;
