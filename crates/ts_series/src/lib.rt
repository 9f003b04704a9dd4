//! Edits of one irregular series, whatever the number of its pages. `edit` puts an element, puts it in place of another
//! or inserts it, or changes its row (`specs/Edit`). `del_clip` takes away all elements from one stamp to another
//! (`specs/Clip`): the pages at the two ends are cut, those between go whole, and what is left of the ends is joined
//! with each other and with the pages beside them where it fits (`specs/Ends`). Stands on ts_chain; knows nothing of
//! definitions, names or journals. Read `specs/Edit.antt`, then `edits.rt`; `specs/Clip.antt`, then `clip.rt`,
//! `ends.rt`, `joins.rt`, `keep.rt`, `lay.rt`.
#![tactic(auto)]

mod clip;
mod edits;
mod ends;
mod joins;
mod keep;
mod lay;

pub use clip::del_clip;
pub use edits::{EditKind, Edited, charge_with_one, edit};
