//! Definitions written into their slots and read from them, and the header of a volume. A slot is written alone, and so
//! is the header: all other bytes stay (`specs/Writing`). What is read of a slot are the bytes of what is written
//! there, of an empty slot, or of neither, and bytes are a definition's exactly where it is written so
//! (`specs/Reading`); a calendar is read as its slot has it, without the runs of a pattern by whose name it was made
//! (`specs/Written`). What the bytes are is ts_layout's; stands on it, and on ts_model and ts_page; knows nothing of
//! other slots, of elements or of charges. Read `specs/Written.antt`, `specs/Reading.antt` and `specs/Writing.antt`,
//! then `slot.rt` and `write.rt`.
#![tactic(auto)]

mod calendar_slot;
mod container_slot;
mod format;
mod header;
mod pad;
mod pattern_slot;
mod plan;
mod row_type_slot;
mod series_slot;
mod slot;
mod write;

pub use calendar_slot::{CalendarForm, Part};
pub use format::is_of_format;
pub use header::{format_of, write_header};
pub use slot::{Reading, Written, read_slot};
pub use write::{put_header, write_slot};
