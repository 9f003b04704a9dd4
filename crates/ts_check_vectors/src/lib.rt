//! Volumes that are checked: what the report says of sound ones, whatever stands in their journals, and which page of
//! damaged ones is told. Each is written by hand, byte for byte. There are only tests: they stand apart, since a crate
//! that has tests of its own is proved twice. Stands on ts_check, which it tests, and on ts_disk's volume in memory.
//! Read `volumes.rt`, then the others in any order. What `check` does as a word of the program stands in ts_runs.
#![tactic(auto)]

#[cfg(test)]
mod damaged;
#[cfg(test)]
mod devices;
#[cfg(test)]
mod reports;
#[cfg(test)]
mod volumes;
