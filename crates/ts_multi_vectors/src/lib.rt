//! Worked sources, picks and logs of commits: how sources are cut into sections, which picks a seed gives, and which
//! commits a transaction is in conflict with. There are only tests: they stand apart, since a crate that has tests of
//! its own is proved twice. Stands on ts_multi, ts_model and ts_base. Read `sources.rt`, then `conflicts.rt`.
#![tactic(auto)]

#[cfg(test)]
mod conflicts;
#[cfg(test)]
mod sources;
