//! The redo journal: batches of page changes, each on the disk whole or not at all. A record counts once the gate
//! before it is open, and that gate is written last, alone, after a sync. So whatever a stop leaves, the pages are
//! those before a batch or those after it (`specs/Journal`, `specs/Moment`). Stands on ts_disk and ts_page; knows
//! nothing of series, rows or calendars. Read `specs/Journal.antt`, then `journal.rt`.
#![tactic(auto)]

mod batch;
mod home;
mod images;
mod journal;
mod laws;
mod numbers;
mod pen;
mod record;

pub use batch::{Batch, Change};
pub use journal::{CommitFault, FRAME, Journal};
pub use laws::{
    a_record_is_read_where_it_stands, an_overlay_has_the_last_change_of_each_page,
    records_are_read_where_they_stand,
};
pub use record::{OPEN_GATE, entry_length};
