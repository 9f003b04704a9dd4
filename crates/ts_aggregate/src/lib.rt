//! Aggregate lists folded over the elements of a series on its pages: those of a range as one row, or those that each
//! on interval of a calendar holds as a row of its own. Rows are folded from their bytes, those of a page at a time
//! (`Folding`), so that none is made and the memory doesn't grow with the range; intervals are sought where the next
//! element is, and not walked, and the cells of a page that belong to one of them are folded as one piece.
//! `aggregate_all` folds many series whose pages were read (`Stack`), by as many workers as serve. What is made is
//! `folded_row` of ts_expr; how elements are grouped is `specs/Entry` of ts_entry. Stands on ts_expr for lists, on
//! ts_clip for pages, on ts_parallel for workers and on ts_offset for calendars; knows nothing of definitions and
//! replies. Read `specs/Fold.antt`, `specs/Groups.antt`, `folding.rt`, `range.rt`, `groups.rt`, then
//! `specs/Stacks.antt` and `all_series.rt`.
#![tactic(auto)]

mod all_series;
mod by_interval;
mod cells;
mod column;
mod folding;
mod groups;
mod numbers;
mod range;
mod run;
mod series_pages;
mod span;
mod texts;
mod totals;
mod wanted;

pub use all_series::aggregate_all;
pub use folding::Folding;
pub use groups::aggregate_by;
pub use numbers::number;
pub use range::aggregate_range;
pub use series_pages::Stack;
