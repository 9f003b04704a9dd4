//! Whole runs with rolling sets: what a stop within a put leaves. There are only tests: they stand apart, since a crate
//! that has tests of its own is proved twice. Stands on ts_programs, and on ts_disk's volume in memory. Read
//! `rolling.rt`. What is said of rolling sets stands in `.ci/examples.d/rolled.sh`.
#![tactic(auto)]

#[cfg(test)]
mod rolling;
