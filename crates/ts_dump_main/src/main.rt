//! The program `ts_dump`: it calls `dump_volume` with the open file and standard output, and ends with the status of
//! how that ended. Here are only the way to the file, which is opened for reading alone, what keeps standard output
//! apart from it, and the lines on standard error; what is promised of the script is on `dump_volume`. Stands on
//! ts_dump for the work and on ts_file for the outside.
#![tactic(auto)]

mod advice;
mod start;
mod streams;
mod volume_file;

use advice::advise;
use start::{Start, prepare, read_words, refuse_words};
use std::process::ExitCode;
use ts_dump::dump_volume;

fn main(rt: HostRuntime) -> ExitCode {
    let words = match read_words(&rt) {
        Ok(words) => words,
        Err(error) => return ExitCode::from(refuse_words(&rt, &error)),
    };
    ExitCode::from(match prepare(&rt, &words) {
        Start::Ended(status) => status,
        Start::Opened(mut opened) => {
            let ended = dump_volume(rt.alloc(), opened.wish, &mut opened.site);
            advise(&rt, opened.path, opened.wish.part, ended)
        }
    })
}
