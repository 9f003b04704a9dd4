//! The elements of one page of an irregular series: the row at a stamp is read, put, marked or taken away, and the last
//! element that isn't hidden is told. A page is taken as the one that was judged when the volume was opened: its head
//! is compared with its place, and its stamps are searched once. A page that disagrees with its place is taken as one
//! without elements. `replace_on`, `mark_on` and `put_alone` say what they leave on the pages; the others read or
//! change the bytes of a page that the caller has read (`specs/Edit`, `specs/OnePage`, `specs/Call`). A `let _width =
//! ..;` that nothing uses brings in what the word above it names, for the proof alone. Stands on ts_cells, ts_space and
//! ts_page; knows nothing of the other pages of a series, nor of definitions, quotas or journals. Read
//! `specs/Edit.antt`, `specs/Call.antt`, then `find.rt`, `page.rt`, `insert.rt`, `replace.rt`, `mark.rt`, `last.rt`.
#![tactic(auto)]

mod cell;
mod cells;
mod find;
mod get;
mod index;
mod insert;
mod last;
mod laws;
mod mark;
mod page;
mod replace;
mod stamps;

pub use find::{count_taken, count_told};
pub use get::row_at;
pub use insert::put_alone;
pub use last::last_among;
pub use laws::{
    a_mark_keeps_the_rest, edits_are_those_of_a_map, edits_keep_the_order, the_map_has_the_elements,
};
pub use mark::mark_on;
pub use page::{insert_into, place_in, take_out};
pub use replace::replace_on;
pub use stamps::{search, units_at};
