// One plain line on standard error for each status but 0: what happened, and what to do.
use crate::streams::may_complain;
use std::fmt::Display;

/// What the words may be.
pub(crate) const USAGE: &str =
    "say `ts VOLUME init PAGES` with 1 to 65536 pages, `ts VOLUME run < SCRIPT`, `ts VOLUME check`, `ts VOLUME \
     migrate`, `ts VOLUME gen COUNT SEED` with 1 to 1000000 edits and a seed, or `ts VOLUME sessions SEED < SCRIPTS`";

/// Prints a text, and answers with the status.
pub(crate) fn show(rt: &HostRuntime, text: &str) -> u8 {
    match println!(rt; "{text}") {
        Ok(()) => 0,
        Err(_) => {
            complain(rt, "standard output", "failed");
            4
        }
    }
}

/// Says what a status means for a volume, and answers with it.
pub(crate) fn advise(rt: &HostRuntime, path: &str, status: u8) -> u8 {
    match status {
        0 => {}
        2 => complain(rt, path, format_args!("these words name no job; {USAGE}")),
        _ => complain(rt, path, advice(status)),
    }
    status
}

/// Says that a first word that begins with `-` is no volume's path, and answers with the status of a faulty command
/// line. Standard error may be a volume of this name all the same: then the line goes nowhere.
pub(crate) fn refuse_option(rt: &HostRuntime, word: &str) -> u8 {
    if may_complain(rt, Some(word)) {
        complain(
            rt,
            word,
            format_args!(
                "is no path, as it begins with `-`; {USAGE}; a file of such a name is given as `./-NAME`"
            ),
        );
    }
    2
}

/// Says what a status of `check` means for a volume, and answers with it.
pub(crate) fn advise_check(rt: &HostRuntime, path: &str, status: u8) -> u8 {
    match status {
        4 => complain(
            rt,
            path,
            "standard output failed; nothing was changed: check again",
        ),
        5 => complain(
            rt,
            path,
            "the file failed; nothing was changed: check the disk, then check again",
        ),
        6 => complain(
            rt,
            path,
            "this is no store, or the page that was said is damaged; nothing was changed: keep the file, take the last \
             copy that a check finds sound, and say anew what it lacks",
        ),
        7 => complain(
            rt,
            path,
            "there is no memory for a check; nothing was changed: free some, then check again",
        ),
        _ => return advise(rt, path, status),
    }
    status
}

/// Says what a status of `migrate` means for a volume, and answers with it.
pub(crate) fn advise_migrate(rt: &HostRuntime, path: &str, status: u8) -> u8 {
    match status {
        5 => complain(
            rt,
            path,
            "the file failed; all that it holds stays, in its own format or the newest: check the disk and the \
             limit on file sizes, then migrate again",
        ),
        7 => complain(
            rt,
            path,
            "there is no memory for it; all stays in its own format: free some, then migrate again",
        ),
        _ => return advise(rt, path, status),
    }
    status
}

/// Says what a status of `gen` means for a volume, and answers with it.
pub(crate) fn advise_gen(rt: &HostRuntime, path: &str, status: u8) -> u8 {
    match status {
        4 => complain(
            rt,
            path,
            "standard output failed; every command was carried out: ask for the sums by a script",
        ),
        5 => complain(
            rt,
            path,
            "the file failed; some first commands were carried out: check the disk and the limit on file sizes, \
             then begin again on a new store",
        ),
        7 => complain(
            rt,
            path,
            "there is no memory for it; some first commands were carried out: free some, then begin again on a new \
             store",
        ),
        _ => return advise(rt, path, status),
    }
    status
}

/// Says what a status of `sessions` means for a volume, and answers with it.
pub(crate) fn advise_sessions(rt: &HostRuntime, path: &str, status: u8) -> u8 {
    match status {
        3 => complain(
            rt,
            path,
            "standard input failed; no session was begun and nothing was changed: give the scripts again",
        ),
        4 => complain(
            rt,
            path,
            "standard output failed; each statement whose reply was said is stored, a transaction's with its Commit, \
             and the next one may be: look how far each session is, then give what is left, each from the Begin of an \
             open transaction on",
        ),
        5 => complain(
            rt,
            path,
            "the file failed; each statement whose reply was said is stored, a transaction's with its Commit, and the \
             next one may be: check the disk and the limit on file sizes, look how far each session is, then give what \
             is left, each from the Begin of an open transaction on",
        ),
        7 => complain(
            rt,
            path,
            "there is no memory for the sessions; nothing was changed: free some, then give the scripts again",
        ),
        8 => complain(
            rt,
            path,
            "the scripts have more than 1048576 bytes; no session was begun and nothing was changed: give the first \
             part of them, then the rest",
        ),
        9 => complain(
            rt,
            path,
            "there are more than 16 sections; no session was begun and nothing was changed: give the first sixteen, \
             then the rest",
        ),
        _ => return advise(rt, path, status),
    }
    status
}

/// Says a line about a volume. Where standard error is closed, the status alone tells.
pub(crate) fn complain(rt: &HostRuntime, path: &str, what: impl Display + Drop) {
    let _said = eprintln!(rt; "ts: {path}: {what}");
}

fn advice(status: u8) -> &'static str {
    match status {
        3 =>
            "standard input failed; each statement whose reply was said is stored, a transaction's with its Commit, \
             and no other: run the rest, from the Begin of an open transaction on",
        4 =>
            "standard output failed; each statement whose reply was said is stored, a transaction's with its Commit, \
             and the next one may be: look with GetElem how far the volume is before a PutElem is said again, then \
             run the rest, from the Begin of an open transaction on",
        5 =>
            "the file failed; each statement whose reply was said is stored, a transaction's with its Commit, and the \
             next one may be: check the disk and the limit on file sizes, look with GetElem how far the volume is \
             before a PutElem is said again, then run the rest, from the Begin of an open transaction on",
        6 =>
            "this is no store, or its pages are damaged; nothing was changed: take another file, or a copy of this one",
        7 =>
            "there is no memory for a run; nothing was changed: free some, then run the script again",
        8 =>
            "the script has more than 268435456 bytes; what ends within these was carried out, but for a transaction \
             that is open there: run the rest, from its Begin on",
        10 => "the file isn't empty; nothing was changed: choose another path for a new store",
        _ => "the run ended",
    }
}
