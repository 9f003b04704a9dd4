//! Routines that say rows of one series: its entries, what an aggregate list makes of its elements, or a row for each
//! of them. Each is a reading (`ReadOut` in `specs/CarriedOut` of ts_answer): all pages stay, and the reply is the
//! catalogue's answer. All begin with a series, its columns and its shape (ts_shelf). Rows are said straight from their
//! pages, one at a time (`EntryLines`, `FoldedLines` of ts_say), so that the memory doesn't grow with the range. Stands
//! on ts_clip for readings, on ts_aggregate for folds and on ts_running_rows for running values and expressions. Read
//! `specs/Readings.antt`, then `reading.rt`, `aggregates.rt`, `elements.rt`.
#![tactic(auto)]

mod aggregates;
mod elements;
mod reading;

pub use aggregates::{aggregate_by, aggregate_range};
pub use elements::{apply_list, running_avg, running_sum};
pub use reading::{Choice, count_clip, read_entries};
