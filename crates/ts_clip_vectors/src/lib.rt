//! The rows of a range in the bytes of their cells, what is kept of a reading, and what stacks of pages are folded to,
//! worked out by hand; and the laws of the crates below are called. There are only tests: they stand apart, since a
//! crate that has tests of its own is proved twice. Stands on ts_entry, ts_clip, ts_aggregate and ts_parallel, which it
//! tests. Read `series.rt`, then the others in any order. What is read of a series by entries, and what lists make of
//! its rows, stand in the folder examples/.
#![tactic(auto)]

#[cfg(test)]
mod kept;
#[cfg(test)]
mod laws;
#[cfg(test)]
mod rows;
#[cfg(test)]
mod series;
#[cfg(test)]
mod stacks;
