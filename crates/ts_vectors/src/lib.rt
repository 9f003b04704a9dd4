//! Worked texts and values, with what they are read as, printed as or refused with. There are only tests: they stand
//! apart, since a crate that has tests of its own is proved twice. Stands on the crates that it tests, ts_base and
//! ts_pattern. Read `values.rt`, then the others in any order.
#![tactic(auto)]

#[cfg(test)]
mod joins;
#[cfg(test)]
mod patterns;
#[cfg(test)]
mod values;
