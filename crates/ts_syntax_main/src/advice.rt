// What is said besides the lines: the help, the version, and one line on standard error for each status above 1.

pub(crate) const HELP: &str = "\
usage: ts_syntax < SCRIPT        says LINE:COLUMN of each statement that the grammar refuses
       ts_syntax --help          says this
       ts_syntax --version       says the version

A line is `LINE:COLUMN: NAME: what stands there; what could`. Lines and columns count from 1, columns in bytes. NAME is
Syntax, TooLong or Unended, as in the reply of `ts VOLUME run`. No volume is needed, and nothing is changed.

The status is 0 where no statement is refused and 1 where one is; else a line on standard error says what happened.";

pub(crate) const VERSION: &str = "ts_syntax 0.1.0";

/// Prints a text, and answers with the status.
pub(crate) fn show(rt: &HostRuntime, text: &str) -> u8 {
    match println!(rt; "{text}") {
        Ok(()) => 0,
        Err(_) => 4,
    }
}

/// Says a line on standard error. Where that is closed, the status alone tells.
pub(crate) fn complain(rt: &HostRuntime, what: &str) {
    let _said = eprintln!(rt; "ts_syntax: {what}");
}

/// What a status means that isn't 0 or 1.
pub(crate) fn advice(status: u8) -> Option<&'static str> {
    match status {
        0 | 1 => None,
        2 => Some("it takes no words but --help and --version; say `ts_syntax < SCRIPT`"),
        3 => Some("standard input failed; more may be refused than was told: check it again"),
        4 => Some("standard output failed, so not all was said: say it again"),
        7 => Some(
            "there is no memory; more may be refused than was told: free some, and check it again",
        ),
        8 => Some(
            "the script has more than 268435456 bytes, which no run takes; more may be refused than was told: cut it",
        ),
        _ => Some("the check ended"),
    }
}
