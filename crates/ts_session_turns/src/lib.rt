//! What a request of a session is answered. `answer` carries a command of a session out: it opens, commits or rolls
//! back its transaction, or carries the command out on its view or on the newest catalogue, and keeps the log of
//! commits with it (`specs/Turned`). What is in hand stands at the machine of ts_sessions (`specs/Hand`). Stands on
//! ts_session_engine for views and commits, and on ts_multi for the log. Read `specs/Hand.antt`, `specs/Turned.antt`,
//! then `turn.rt`.
#![tactic(auto)]

mod begin;
mod commit;
mod inside;
mod outside;
mod turn;

pub use ts_session_engine::{Engine, StepFault};
pub use turn::answer;
