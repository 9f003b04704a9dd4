//! What sessions of one source are answered: definitions and laws alone. A machine is one list of commits and the open
//! transaction of each session (`specs/Machine`); a turn is answered as in a run that is alone, but for the Commit of
//! an open transaction, which is refused where a later commit wrote what the transaction writes or names, and else
//! replayed on what was committed last (`specs/Steps`). Picks decide the order of turns, and the replies are a protocol
//! (`specs/Turns`). What is kept of a machine to find conflicts is a log of ts_multi's (`specs/LogOf`). Each law of
//! `specs/Laws` is the contract of a function without a body. It stands above ts_multi, whose code needs no catalogue,
//! and ts_answer, whose runs know no other sessions; nothing here speaks of pages or disks. Read `specs/Machine.antt`,
//! `specs/Steps.antt`, then `laws.rt` beside `specs/Laws.antt`.
#![tactic(auto)]

mod laws;

pub use laws::{
    a_conflict_names_the_first, a_log_follows_its_machine, a_machine_stays_sound,
    commits_are_one_list, only_commits_append, others_leave_a_snapshot,
    replies_of_sessions_are_apart, what_is_said_is_heard,
};
