// What comes before the call.
use crate::advice::{HELP, USAGE, VERSION, complain, show};
use crate::streams::may_complain;
use crate::volume_file::open_volume;
use std::rt::Env;
use std::{env, io, str};
use ts_dump::{Part, Wish};
use ts_file::FileSite;

/// The system opens no longer path.
const LONGEST_PATH: usize = 4096;

/// What is wished where no option says anything.
const ALL: Wish<'static> = Wish {
    part: Part::All,
    in_transactions: false,
};

/// Whether there is work to do.
#[derive(Drop)]
pub(crate) enum Start<'a> {
    /// It ended with this status.
    Ended(u8),
    Opened(Opened<'a>),
}

/// What is wished of a volume, its path, and the open volume.
#[derive(Drop)]
pub(crate) struct Opened<'a> {
    pub wish: Wish<'a>,
    pub path: &'a str,
    pub site: FileSite,
}

/// The words behind the program's name.
pub(crate) fn read_words(rt: &HostRuntime) -> io::Result<Vec<String>> {
    let mut words = Vec::new(rt.alloc());
    for word in env::args(rt)?.skip(1) {
        words.push(word)?;
    }
    Ok(words)
}

/// Says that the words can't be read, and answers with the status of that: there is no memory for them, or the command
/// line is faulty. Standard error may be the file that the first word names: then the line goes nowhere.
pub(crate) fn refuse_words(rt: &HostRuntime, error: &io::Error) -> u8 {
    let mut room = [0; LONGEST_PATH];
    let first = rt.arg(1, &mut room).ok();
    let path = first.and_then(|len| str::from_utf8(&room[..len]).ok());
    let wants = error.kind() == io::ErrorKind::OutOfMemory;
    if may_complain(rt, path) {
        if wants {
            complain(
                rt,
                "the command line",
                "there is no memory to read it; nothing was done: free some, then say it again",
            );
        } else {
            complain(
                rt,
                "the command line",
                format_args!("can't be read: {error}"),
            );
        }
    }
    if wants { 7 } else { 2 }
}

/// Opens the volume that the first word names.
pub(crate) fn prepare<'a>(rt: &HostRuntime, words: &'a [String]) -> Start<'a> {
    let [path, options @ ..] = words else {
        return Start::Ended(refuse_usage(rt, words));
    };
    let path = path.as_str();
    match path {
        "--help" if options.is_empty() => return Start::Ended(show(rt, HELP)),
        "--version" if options.is_empty() => return Start::Ended(show(rt, VERSION)),
        _ => {}
    }
    if path.starts_with('-') {
        return Start::Ended(refuse_usage(rt, words));
    }
    let Some(wish) = read_options(options, ALL) else {
        return Start::Ended(refuse_usage(rt, words));
    };
    match open_volume(rt, path) {
        Ok((file, len)) => Start::Opened(Opened {
            wish,
            path,
            site: FileSite::new(rt, file, len, u64::MAX),
        }),
        Err(error) => {
            if error.may_be_said(rt) {
                complain(rt, path, error);
            }
            Start::Ended(11)
        }
    }
}

// A wish with what options say of it, each of them once at most.
fn read_options<'a>(options: &'a [String], wish: Wish<'a>) -> Option<Wish<'a>> {
    let Some((option, options)) = options.split_first() else {
        return Some(wish);
    };
    let is_all = matches!(wish.part, Part::All);
    match option.as_str() {
        "--transactions" if !wish.in_transactions => read_options(
            options,
            Wish {
                part: wish.part,
                in_transactions: true,
            },
        ),
        "--definitions" if is_all => read_options(
            options,
            Wish {
                part: Part::DefinitionsAlone,
                in_transactions: wish.in_transactions,
            },
        ),
        "--series" if is_all => {
            let (key, options) = options.split_first()?;
            read_options(
                options,
                Wish {
                    part: Part::Series(key.as_bytes()),
                    in_transactions: wish.in_transactions,
                },
            )
        }
        _ => None,
    }
}

/// Says that the words name no job, and answers with the status of a faulty command line. Standard error may be the
/// file that the first word names: then the line goes nowhere.
fn refuse_usage(rt: &HostRuntime, words: &[String]) -> u8 {
    let first = words.first().map(|word| word.as_str());
    if first.is_none() || may_complain(rt, first) {
        complain(
            rt,
            first.unwrap_or("VOLUME"),
            format_args!(
                "these words name no job; {USAGE}; a file whose name begins with `-` is given as `./-NAME`"
            ),
        );
    }
    2
}
