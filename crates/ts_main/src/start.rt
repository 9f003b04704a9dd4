// What comes before the top call, and after it.
use crate::advice::{
    USAGE, advise, advise_check, advise_gen, advise_migrate, advise_sessions, complain,
    refuse_option, show,
};
use crate::limit::file_limit;
use crate::streams::may_complain;
use crate::volume_file::{OpenError, open_volume, sync_folder};
use std::io::IsTerminal;
use std::rt::Env;
use std::{env, io, str};
use ts_file::FileSite;
use ts_shell::{Job, read_job};

const HELP: &str = "\
usage: ts VOLUME init PAGES      makes an empty store with 1 to 65536 element pages
       ts VOLUME run < SCRIPT    carries out the statements of a script, one reply each
       ts VOLUME check           says what a store's containers take, or which page of a volume is bad; changes nothing
       ts VOLUME migrate         brings an older store to the newest format; all that it holds stays
       ts VOLUME gen COUNT SEED  makes two series, puts 1 to 1000000 elements into them that a seed from
                                 0 to 4294967295 gives, and says what they come to
       ts VOLUME sessions SEED < SCRIPTS
                                 carries out the scripts of up to 16 sessions, which lines `--session` part, one
                                 reply each behind its session's number; the seed, 0 to 4294967295, decides whose
                                 turn it is, and a transaction sees the store of its Begin
       ts --help                 says this
       ts --version              says the version

examples:
       ts meters.volume init 8
       echo 'ListSeries(meters);' | ts meters.volume run
       ts meters.volume run      reads statements from the terminal, to the end of input
       ts meters.volume check    says whether every page is sound
       ts meters.volume migrate  makes a store of an earlier version take every statement
       ts trial.volume gen 5000 7
       ts meters.volume sessions 1 < two_sessions

The status is 0 where all was done; else a line on standard error says what happened and what to do.";

const VERSION: &str = "ts 0.1.0";

/// The system opens no longer path.
const LONGEST_PATH: usize = 4096;

/// First words that stand where the path is left out.
const JOBS: [&str; 8] = [
    "init", "run", "check", "migrate", "gen", "sessions", "help", "version",
];

/// Whether there is work to do.
#[derive(Drop)]
pub(crate) enum Start<'a> {
    /// It ended with this status.
    Ended(u8),
    Opened(Opened<'a>),
}

/// A job, the volume's path, the words behind it, and the open volume.
#[derive(Drop)]
pub(crate) struct Opened<'a> {
    pub job: Job,
    pub path: &'a str,
    pub words: &'a [String],
    pub site: FileSite,
}

/// The words behind the program's name.
pub(crate) fn read_words(rt: &HostRuntime) -> io::Result<Vec<String>> {
    let mut words = Vec::new(rt.alloc());
    for word in env::args(rt)?.skip(1) {
        words.push(word)?;
    }
    Ok(words)
}

/// Says that the words can't be read, and answers with the status of that: there is no memory for them, or the command
/// line is faulty. Standard error may be the file that the first word names, whatever the others are: then the line
/// goes nowhere.
pub(crate) fn refuse_words(rt: &HostRuntime, error: &io::Error) -> u8 {
    let mut room = [0; LONGEST_PATH];
    let first = rt.arg(1, &mut room).ok();
    let path = first.and_then(|len| str::from_utf8(&room[..len]).ok());
    let wants = error.kind() == io::ErrorKind::OutOfMemory;
    if may_complain(rt, path) {
        if wants {
            complain(
                rt,
                "the command line",
                "there is no memory to read it; nothing was done: free some, then say it again",
            );
        } else {
            complain(
                rt,
                "the command line",
                format_args!("can't be read: {error}"),
            );
        }
    }
    if wants { 7 } else { 2 }
}

/// Opens the volume that the words name. Only `init` with a right number may make its file.
pub(crate) fn prepare<'a>(rt: &HostRuntime, words: &'a [String]) -> Start<'a> {
    let [path, words @ ..] = words else {
        return Start::Ended(advise(rt, "VOLUME", 2));
    };
    let path = path.as_str();
    if path == "--help" {
        return Start::Ended(show(rt, HELP));
    }
    if path == "--version" {
        return Start::Ended(show(rt, VERSION));
    }
    if path.starts_with('-') {
        return Start::Ended(refuse_option(rt, path));
    }
    let job = read_job(words);
    match open_volume(rt, path, matches!(job, Some(Job::Init(_)))) {
        Err(error) => Start::Ended(refuse_volume(rt, path, error)),
        Ok((file, len)) => match job {
            None => Start::Ended(advise(rt, path, 2)),
            Some(job) => {
                greet(rt, path, job);
                Start::Opened(Opened {
                    job,
                    path,
                    words,
                    site: FileSite::new(rt, file, len, file_limit(rt)),
                })
            }
        },
    }
}

/// Says why a volume's file can't be used, and answers with the status of that.
fn refuse_volume(rt: &HostRuntime, path: &str, error: OpenError) -> u8 {
    if matches!(error, OpenError::Missing) && JOBS.contains(&path) {
        complain(
            rt,
            path,
            format_args!("isn't there, and the volume's path comes first; {USAGE}"),
        );
    } else if error.may_be_said(rt) {
        complain(rt, path, error);
    }
    11
}

/// Says to somebody at a terminal what a run waits for, or the sessions.
fn greet(rt: &HostRuntime, path: &str, job: Job) {
    let waits = match job {
        Job::Run => {
            "reading statements from the terminal, each ended by `;`, until the end of input (Ctrl-D)"
        }
        Job::Sessions { .. } => {
            "reading the scripts of all sessions from the terminal, parted by lines `--session`, until the end of \
             input (Ctrl-D); they begin then"
        }
        _ => return,
    };
    if rt.stdin().is_terminal() {
        complain(rt, path, waits);
    }
}

/// Makes a new volume's name last, and says what a status means.
pub(crate) fn finish(rt: &HostRuntime, job: Job, path: &str, status: u8) -> u8 {
    match job {
        Job::Init(_) => finish_init(rt, path, status),
        Job::Run => advise(rt, path, status),
        Job::Check => advise_check(rt, path, status),
        Job::Migrate => advise_migrate(rt, path, status),
        Job::Gen { .. } => advise_gen(rt, path, status),
        Job::Sessions { .. } => advise_sessions(rt, path, status),
    }
}

fn finish_init(rt: &HostRuntime, path: &str, status: u8) -> u8 {
    let is_lost = status == 0 && sync_folder(rt, path).is_err();
    if status == 5 || is_lost {
        complain(
            rt,
            path,
            "the file failed, so it may be no store; check the disk and the limit on file sizes, remove it, and run \
             init again",
        );
        return 5;
    }
    advise(rt, path, status)
}
