//! Views beside an engine. `open_view` makes a view of the newest catalogue, `step_view` carries out a command on a
//! view, `step_beside` carries one out on the newest catalogue and leaves every view (`specs/Stepped`), and
//! `commit_view` carries the commands of a view out on the newest catalogue as one commit (`specs/Committed`). Before a
//! commit the old image of each page that it changes is kept in every open view (`keep.rt`), and so the catalogues of
//! views stay (`specs/Beside`). Stands on ts_engine for commands and commits, on ts_views for what views keep, and on
//! ts_view_catalogues for what leaves them. Read `specs/Beside.antt`, `specs/Stepped.antt`, then `beside.rt`.
#![tactic(auto)]

mod beside;
mod commit;
mod keep;
mod open;
mod read;
mod replay;
mod view;

pub use beside::step_beside;
pub use commit::commit_view;
pub use open::open_view;
pub use ts_engine::{Engine, StepFault};
pub use view::step_view;
