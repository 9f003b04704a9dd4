//! Worked definitions in their slots; definitions and elements in the pages of a volume, with their bytes, and what a
//! survey reads of them. There are only tests: they stand apart, since a crate that has tests of its own is proved
//! twice. Stands on ts_container and ts_model, which it tests, and on ts_layout and ts_page. Read `definitions.rt`,
//! `volume.rt`, then `slots.rt` and `elements.rt`, then the others in any order. Which page of a damaged volume is told
//! stands in `.ci/examples.d/surveyed.sh`.
#![tactic(auto)]

#[cfg(test)]
mod calendars;
#[cfg(test)]
mod chains;
#[cfg(test)]
mod charges;
#[cfg(test)]
mod definitions;
#[cfg(test)]
mod elements;
#[cfg(test)]
mod grids;
#[cfg(test)]
mod header;
#[cfg(test)]
mod made;
#[cfg(test)]
mod slots;
#[cfg(test)]
mod volume;
