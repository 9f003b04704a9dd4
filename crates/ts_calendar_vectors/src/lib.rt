//! Calendars, their texts, and the offsets on them, worked out by hand, and a plain walk with which the calls that
//! count are compared. There are only tests: they stand apart, since a crate that has tests of its own is proved twice.
//! Stands on ts_calendar and ts_offset, which it tests. Read `laid.rt`, then the others in any order.
#![tactic(auto)]

#[cfg(test)]
mod calendars;
#[cfg(test)]
mod joins;
#[cfg(test)]
mod laid;
#[cfg(test)]
mod offsets;
#[cfg(test)]
mod ranges;
#[cfg(test)]
mod texts;
#[cfg(test)]
mod walk;
