//! Volumes, outputs and sources, in memory and real: what they hold, what fails, and what a stop leaves. There are only
//! tests: they stand apart, since a crate that has tests of its own is proved twice. Stands on ts_disk and ts_file,
//! which it tests. Read `steps.rt`, then `sites.rt`.
#![tactic(auto)]

#[cfg(test)]
mod files;
#[cfg(test)]
mod sites;
#[cfg(test)]
mod steps;
