//! Scripts cut into items, and whole runs by their words, volumes and scripts: their status, what they say, and what is
//! read. There are only tests: they stand apart, since a crate that has tests of its own is proved twice; those with a
//! stop within a run are ts_stops, those in which a call fails ts_failing_runs. Stands on ts_items and ts_programs, and
//! on ts_disk's volume in memory. Read the files in any order. Scripts whose replies alone are compared stand in the
//! folder examples/.
#![tactic(auto)]

#[cfg(test)]
mod cached;
#[cfg(test)]
mod checks;
#[cfg(test)]
mod formats;
#[cfg(test)]
mod items;
#[cfg(test)]
mod statuses;
