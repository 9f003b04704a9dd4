//! The elements of a regular series, by their offsets: a page has a cell for each of so many offsets in a row, and the
//! page of an offset is found in the directory by a search. A page is written as `specs/RegularPage` says, and judged
//! without making its rows, in one pass (`extent.rt`). `regular_find` reads the row at an offset, `regular_put` puts
//! one, `regular_mark` hides or reveals it, `regular_remove` takes it away, `regular_clear` all in a range of offsets
//! (`specs/Range`, `cut.rt`), `regular_last` reads the last element that isn't hidden. Each reads one page and writes
//! one at most, a range two, but for `regular_last`; it compares the head of a page with its place, and takes one that
//! disagrees as a page without elements. Each edit of the pages is the edit of the list of their elements
//! (`specs/RegularPage`, `specs/Places`, `specs/Call`). Stands on ts_space, ts_page and ts_row; knows nothing of
//! calendars, definitions, quotas or journals. Read `specs/RegularPage.antt`, `specs/Call.antt`, then `find.rt`,
//! `put.rt`, `remove.rt`.
#![tactic(auto)]

mod cell;
mod clear;
mod cut;
mod extent;
mod find;
mod free;
mod last;
mod laws;
mod mark;
mod page;
mod put;
mod remove;

pub use cell::{base_of, regular_room};
pub use clear::regular_clear;
pub use extent::{RegularExtent, regular_extent_of};
pub use find::regular_find;
pub use last::regular_last;
pub use laws::{cells_are_elements_at_offsets, pages_of_offsets_rise};
pub use mark::regular_mark;
pub use put::regular_put;
pub use remove::regular_remove;
