//! The directory of pages worked out, and where slots stand in the pages of a volume; the laws of layouts are called
//! here. There are only tests: they stand apart, since a crate that has tests of its own is proved twice. Stands on the
//! crates that it tests, ts_space, ts_layout and ts_sheets, and on ts_model for the kinds of slots. Read
//! `directory.rt`, then `places.rt`. Worked definitions stand in ts_page_vectors.
#![tactic(auto)]

#[cfg(test)]
mod directory;
#[cfg(test)]
mod places;
