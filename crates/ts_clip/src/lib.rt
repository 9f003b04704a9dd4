//! What is read of the elements of a series on its pages: the entries from one stamp to another, so many from a stamp
//! on or up to it, the one of a number, the first and the last element. One pass over the pages of the range hands each
//! entry to a visitor of ts_entry, an element in the bytes of its page; hidden elements are passed over. `rows` hands
//! on the rows of a range, hidden ones too, those of a page in one call; `places_of_range` tells which pages those are,
//! and `rows_of_pages` hands on the rows of such pages that were read before. The head of each page is compared with
//! its place; one that disagrees is taken as one without elements. The entries are those of `specs/Reading` of
//! ts_entry. Stands on ts_chain and ts_regular for pages, on ts_offset for the on starts of a grid; knows nothing of
//! definitions, replies or journals. Read `specs/Series.antt`, `specs/Call.antt`, then `reading.rt`, `by_page.rt`,
//! `in_memory.rt`.
#![tactic(auto)]

mod bounds;
mod by_page;
mod chain;
mod chain_cells;
mod chain_first;
mod chain_pages;
mod chain_range;
mod chain_rows;
mod chain_shown;
mod chain_visit;
mod ends;
mod grid;
mod grid_cells;
mod grid_count;
mod grid_ends;
mod grid_first;
mod grid_offsets;
mod grid_page;
mod grid_page_rows;
mod grid_page_visit;
mod grid_range;
mod grid_rows;
mod grid_visit;
mod in_memory;
mod reading;

pub use by_page::rows;
pub use ends::{first_elem, last_elem};
pub use in_memory::{places_of_range, rows_of_pages};
pub use reading::{clip, clip_count, clip_len, clip_len_shown, elements, nth, nth_shown};
