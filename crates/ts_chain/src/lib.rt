//! The elements of an irregular series on many pages, a chain: pages that are filled, in the order of their stamps, of
//! which no two neighbours fit one. A search of all elements, and an edit of them, is that of the one page that the
//! stamp belongs to; it is found in the directory. `chain_find` reads the row at a stamp, `chain_insert` puts one where
//! none is, and parts a full page in two, `chain_replace` puts another in its place, `chain_mark` hides or reveals it,
//! `chain_remove` takes the element away; what an edit touched goes together with a neighbour where they fit one page.
//! `chain_last` reads the last element that isn't hidden, `chain_place` finds where one is put at a stamp that may be
//! taken, `free_pages` frees the pages of places (`specs/Chain`, `specs/Places`, `specs/Placing`, `specs/Range`,
//! `specs/Call`). `holder`, `join_before`, `append_page` and what stands beside them are for edits of many elements
//! above. Stands on ts_irregular, which edits one page; knows nothing of definitions, quotas or journals. Read
//! `specs/Chain.antt`, `specs/Call.antt`, then `find.rt`, `change.rt`, `insert.rt`, `split.rt`, `halves.rt`,
//! `spread.rt`, `last.rt`, `place.rt`, `remove.rt`.
#![tactic(auto)]

mod cells;
mod change;
mod find;
mod free;
mod halves;
mod insert;
mod join;
mod last;
mod laws;
mod merge;
mod page;
mod place;
mod remove;
mod split;
mod spread;

pub use change::{chain_mark, chain_replace};
pub use find::{chain_find, holder};
pub use free::free_pages;
pub use insert::chain_insert;
pub use join::{join_before, join_behind};
pub use last::chain_last;
pub use laws::{
    a_chain_is_in_order, a_chain_is_within_its_charge, an_edit_is_that_of_one_page,
    an_edit_of_pages_side_by_side_makes_a_chain, changed_places_are_places,
};
pub use page::{append_page, first_of, others_of};
pub use place::chain_place;
pub use remove::chain_remove;
