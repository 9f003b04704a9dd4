//! The cells of element pages: each is an element of a series, its stamp and its row, in bytes. A cell, and the page of
//! some elements, is written as `specs/IrregularPage` says. A page is judged without making its rows, in one pass that
//! tells their number, the first and the last stamp, and whether some are hidden. Stands on ts_page, ts_row and
//! ts_base; knows nothing of slots, directories or disks. Read `specs/IrregularPage.antt`, then `extent.rt`.
#![tactic(auto)]

mod cell;
mod extent;

pub use cell::{cell_size, is_hidden_cell, mark_cell, page_room, stamp_of_cell, write_cell};
pub use extent::{Extent, extent_of};
