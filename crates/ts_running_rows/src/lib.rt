//! Rows that are made of the elements of a series on its pages, one for each: running sums and means of a column, and
//! the values of expressions. One pass over the pages of a range reads the numbers of each element from its bytes, and
//! hands its row to a `NumbersVisitor` as it comes; nothing is kept but the window of a running value and the room for
//! one row. Which rows they are is `specs/Rows` of ts_running; how they come one after the other is `specs/Run` and
//! `specs/Application`. Too many rows, and a number that has no place, are known at the end, and some rows were handed
//! on by then. Stands on ts_running for windows and expressions, on ts_clip for pages, on ts_aggregate for a column's
//! number; knows nothing of definitions and replies. Read `specs/Run.antt`, `specs/Application.antt`, then
//! `running.rt`, `applied.rt`.
#![tactic(auto)]

mod application;
mod applied;
mod number;
mod run;
mod running;

pub use applied::applied_rows;
pub use running::running_rows;
