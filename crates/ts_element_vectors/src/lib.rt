//! Worked rows, cells and pages, with what they are read as, changed to or refused for. There are only tests: they
//! stand apart, since a crate that has tests of its own is proved twice. Stands on ts_row and ts_cells, which it tests.
//! Read `rows.rt`, then `cells.rt`. What edits make of a series stands in the folder examples/.
#![tactic(auto)]

#[cfg(test)]
mod cells;
#[cfg(test)]
mod made;
#[cfg(test)]
mod rows;
