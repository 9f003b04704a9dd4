//! Whole runs of the program over volumes in memory, for tests: a volume that `init` made, a run of a script and its
//! status, the bytes that it leaves (`program.rt`); and statements one after the other, with what a reading says after
//! each number of them (`courses.rt`). No crate stands on it but tests. Stands on ts_shell, which it calls, and on
//! ts_disk's volume in memory. Read `program.rt`, then `courses.rt`.
#![tactic(auto)]

mod courses;
mod program;

pub use courses::{
    Course, carried_out, is_after, reading_of, said_of, script_of, states_of, whole_replies,
};
pub use program::{
    PICKS, answers, bytes_after, bytes_of, damage, migrate, only, reads, run, status, volume,
};
