//! The way out of a volume: the script that makes it again. `dump_volume` reads a volume as a check does, by its
//! journal, and nothing is written or synced, whatever is pending; then it says the texts of the statements that the
//! catalogue is made of, one a line (`specs/Dumped`). By the law of ts_dump_laws that script makes the catalogue on an
//! empty volume with as many pages. Definitions are said in one piece, elements page by page, so that the memory
//! doesn't grow with them. Stands on ts_dump_texts and ts_dump_laws for the texts and the law, on ts_recover, ts_store
//! and ts_container for what a volume holds, on ts_clip for the elements of a page. Read `specs/Dumped.antt`, then
//! `dump.rt`, `series.rt`, `element_texts.rt`, `definitions.rt`, `texts.rt`.
#![tactic(auto)]

mod choice;
mod definitions;
mod dump;
mod element_texts;
mod ended;
mod grouping;
mod opened;
mod series;
mod texts;
mod wish;

pub use dump::dump_volume;
pub use ended::Ended;
pub use wish::{Part, Wish};
