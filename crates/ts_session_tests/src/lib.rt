//! Whole runs of sessions: what a stop or a failure within one leaves, and which begin none. There are only tests: they
//! stand apart, since a crate that has tests of its own is proved twice. Stands on ts_programs, and on ts_disk's volume
//! in memory. Read `sessions.rt`, then `stopped_sessions.rt`. What sessions are answered stands in
//! `.ci/examples.d/sessions.sh`.
#![tactic(auto)]

#[cfg(test)]
mod sessions;
#[cfg(test)]
mod stopped_sessions;
#[cfg(test)]
mod two_sessions;
