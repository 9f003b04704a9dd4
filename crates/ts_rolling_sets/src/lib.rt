//! What a rolling set has: its control with its grid, and its windows, found among the definitions by their keys
//! (`specs/InMemory`, `control.rt`, `live.rt`), which stand side by side in the order of keys (`order.rt`). What a put
//! asks for is planned on them (`near.rt`), with all refusals that come before a change (`plan.rt`), a set is made
//! (`create.rt`), and what stands in its windows is said (`clip.rt`). Stands on ts_rolling for keys and plans, on
//! ts_define and ts_shelf for what is defined and on ts_clip for what is read; changes no page. Read
//! `specs/InMemory.antt`, then `control.rt` and `plan.rt`.
#![tactic(auto)]

mod clip;
mod control;
mod create;
mod live;
mod near;
mod order;
mod plan;

pub use clip::clip_set;
pub use create::new_set;
pub use plan::{PlannedDrop, PlannedPut, plan_drop_of, plan_put_into};
