//! Routines that say rows of many series, or of one against itself: two as one, one that lags, each series of a
//! container folded by an aggregate list. Each is a reading (`ReadOut` in `specs/CarriedOut` of ts_answer): all pages
//! stay, and the reply is the catalogue's answer. All begin with a series, its columns and its shape (ts_shelf). Two
//! series are joined a part of the range after the other, for which the elements of a few pages of each are kept
//! (`pairs.rt`, `sides.rt`, `rows.rt`); of one that lags none is, since each is said as soon as it is read (`moved.rt`,
//! `placed.rt`). Series that are folded together are read into memory in lists of a bounded size (`page_list.rt`,
//! `gathered.rt`), and each list is folded by several workers. Stands on ts_clip for readings, on ts_combine for lists
//! of elements, and on ts_aggregate for folds. Read `specs/Combining.antt`, `specs/Pairs.antt`, `specs/Moves.antt`,
//! `specs/Placed.antt`, `specs/Aggregates.antt`, `specs/Gathered.antt`, then `sides.rt`, `rows.rt`, `pairs.rt`,
//! `moved.rt`, `placed.rt`, `combining.rt`, `page_list.rt`, `gathered.rt`, `each_series.rt`.
#![tactic(auto)]

mod combining;
mod each_series;
mod gathered;
mod moved;
mod page_list;
mod pairs;
mod placed;
mod rows;
mod sides;

pub use combining::{join, lag};
pub use each_series::aggregate_all;
