// One plain line on standard error for each status but 0: what happened, and what to do.
use std::fmt::Display;
use std::str;
use ts_dump::{Ended, Part};

pub(crate) const HELP: &str = "\
usage: ts_dump VOLUME > SCRIPT   says the script that makes what a store holds, one statement a line
       ts_dump --help            says this
       ts_dump --version         says the version

options, behind the volume:
       --definitions             says what makes its row types, patterns, calendars, containers and series alone
       --series KEY              says what makes the series of this key, with what it stands on: its container, the row
                                 type of that, its calendar and the pattern by whose name that was made
       --transactions            puts the statements into transactions of 32: the script runs faster

The volume is read alone: nothing of it changes. The script makes the same on a new store with as many pages:

       ts_dump meters.volume --transactions > meters.script
       ts copy.volume init 8
       ts copy.volume run < meters.script

The status is 0 where the whole script was said; else a line on standard error says what happened and what to do.";

pub(crate) const VERSION: &str = "ts_dump 0.1.0";

/// What the words may be.
pub(crate) const USAGE: &str =
    "say `ts_dump VOLUME [--definitions | --series KEY] [--transactions] > SCRIPT`, `ts_dump --help` or \
     `ts_dump --version`";

/// Prints a text, and answers with the status.
pub(crate) fn show(rt: &HostRuntime, text: &str) -> u8 {
    match println!(rt; "{text}") {
        Ok(()) => 0,
        Err(_) => {
            complain(rt, "standard output", "failed");
            4
        }
    }
}

/// Says how a dump of a volume ended, unless all was said, and answers with the status.
pub(crate) fn advise(rt: &HostRuntime, path: &str, part: Part<'_>, ended: Ended) -> u8 {
    match ended {
        Ended::Whole => {}
        Ended::NoSeries => complain(
            rt,
            path,
            format_args!(
                "UnknownName: no series has the key '{}'; nothing was said: `ts_dump VOLUME --definitions` says all \
                 that there are",
                key_of(part)
            ),
        ),
        Ended::Bad { page } => complain(
            rt,
            path,
            format_args!(
                "bad page {page}: this is no store, or that page is damaged; nothing was said: take the last copy that \
                 a check finds sound"
            ),
        ),
        Ended::OutputFailed => complain(
            rt,
            path,
            "standard output failed, so the script isn't whole; say it again, to where there is room",
        ),
        Ended::VolumeFailed => complain(
            rt,
            path,
            "the file failed, so the script isn't whole; check the disk, then say it again",
        ),
        Ended::NoMemory => complain(
            rt,
            path,
            "there is no memory, so the script isn't whole; free some, then say it again",
        ),
    }
    ended.status()
}

// The key of the series that is wished, if one is.
fn key_of<'a>(part: Part<'a>) -> &'a str {
    match part {
        Part::Series(key) => str::from_utf8(key).unwrap_or(""),
        Part::All | Part::DefinitionsAlone => "",
    }
}

/// Says a line about a volume. Where standard error is closed, the status alone tells.
pub(crate) fn complain(rt: &HostRuntime, path: &str, what: impl Display + Drop) {
    let _said = eprintln!(rt; "ts_dump: {path}: {what}");
}
