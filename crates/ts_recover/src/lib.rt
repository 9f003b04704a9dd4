//! The reading of a volume's journal when it is opened, and its settling. `recover` only reads, and gives what the
//! journal's records put over the pages (`specs/Overlay`); `settle` brings those pages to their places. Stands on
//! ts_journal's definitions alone; knows nothing of what the pages mean. Read `specs/Overlay.antt`, then `replay.rt`.
#![tactic(auto)]

mod read;
mod replay;

pub use replay::{RecoverFault, Replayed, recover, settle};
