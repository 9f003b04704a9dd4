//! The program `ts`. Its first word is the volume's path; with the other words, the open file, standard output and
//! standard input it calls `run_ts`, and ends with that status. Here are only the way to the file, what keeps the
//! standard streams apart from it, and the lines on standard error; what is promised of the volume is on `run_ts`.
//! Stands on ts_shell for the work and on ts_file for the outside.
#![tactic(auto)]

mod advice;
mod limit;
mod start;
mod streams;
mod volume_file;

use start::{Start, finish, prepare, read_words, refuse_words};
use std::process::ExitCode;
use ts_file::StdSource;
use ts_shell::run_ts;

fn main(rt: HostRuntime) -> ExitCode {
    let words = match read_words(&rt) {
        Ok(words) => words,
        Err(error) => return ExitCode::from(refuse_words(&rt, &error)),
    };
    ExitCode::from(match prepare(&rt, &words) {
        Start::Ended(status) => status,
        Start::Opened(mut opened) => {
            let mut source = StdSource::new(&rt);
            let status = run_ts(&rt, rt.alloc(), opened.words, &mut opened.site, &mut source);
            finish(&rt, opened.job, opened.path, status)
        }
    })
}
