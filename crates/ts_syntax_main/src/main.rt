//! The program `ts_syntax`: it calls `check_syntax` with standard input and standard output, and ends with that status.
//! Here are only the words and the lines on standard error; what is promised of the lines is on `check_syntax`. Stands
//! on ts_syntax for the work and on ts_file for the outside.
#![tactic(auto)]

mod advice;
mod std_output;

use advice::{HELP, VERSION, advice, complain, show};
use std::process::ExitCode;
use std::{env, io};
use std_output::StdOutput;
use ts_file::StdSource;
use ts_syntax::check_syntax;

// The words behind the program's name.
fn read_words(rt: &HostRuntime) -> io::Result<Vec<String>> {
    let mut words = Vec::new(rt.alloc());
    for word in env::args(rt)?.skip(1) {
        words.push(word)?;
    }
    Ok(words)
}

// Checks the script of standard input.
fn check(rt: &HostRuntime) -> u8 {
    let mut output = StdOutput::new(rt);
    let mut source = StdSource::new(rt);
    check_syntax(rt.alloc(), &mut output, &mut source)
}

// Does what the words ask for. The status.
fn run(rt: &HostRuntime) -> u8 {
    let Ok(words) = read_words(rt) else {
        return 2;
    };
    match words.as_slice() {
        [] => check(rt),
        [word] => match word.as_str() {
            "--help" => show(rt, HELP),
            "--version" => show(rt, VERSION),
            _ => 2,
        },
        _ => 2,
    }
}

fn main(rt: HostRuntime) -> ExitCode {
    let status = run(&rt);
    if let Some(text) = advice(status) {
        complain(&rt, text);
    }
    ExitCode::from(status)
}
