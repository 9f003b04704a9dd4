//! Keys of rolling sets, and plans of puts, worked out by hand. There are only tests: they stand apart, since a crate
//! that has tests of its own is proved twice. Stands on ts_rolling, which it tests, and on what makes grids. Read
//! `keys.rt`, then `plans.rt`.
#![tactic(auto)]

#[cfg(test)]
mod keys;
#[cfg(test)]
mod plans;
