// The standard streams beside the volume's file. What a job says must never land in the volume, so a stream that is
// that file is refused before anything is said, and so is one that can't be asked which file it is.
use std::fmt::{self, Display, Formatter};
use std::fs::{self, Metadata};
use std::io::IsTerminal;
use std::os::unix::fs::MetadataExt;
use thiserror::Error;

#[derive(Clone, Copy, Debug, PartialEq, Eq)]
pub(crate) enum Stream {
    Input,
    Output,
    Error,
}

/// Why a file can't be used beside a standard stream.
#[derive(Clone, Copy, Debug, Drop, Error)]
pub(crate) enum Clash {
    #[error("{0} is this very file, so nothing was done; give another file or a pipe for {0}")]
    Same(Stream),
    #[error("{0} is closed, or it can't be told from this file as /proc is missing; open it, or mount /proc")]
    Unknown(Stream),
}

impl Stream {
    /// Where the system shows the file that the stream is.
    fn place(self) -> &'static str {
        match self {
            Stream::Input => "/proc/self/fd/0",
            Stream::Output => "/proc/self/fd/1",
            Stream::Error => "/proc/self/fd/2",
        }
    }

    /// Whether it can be seen to be another file than this one, where there is one.
    fn check(self, rt: &HostRuntime, file: Option<&Metadata>) -> Result<(), Clash> {
        match (fs::metadata(rt, self.place()), file) {
            (Err(_), _) => Err(Clash::Unknown(self)),
            (Ok(stream), Some(file)) if is_same(&stream, file) => Err(Clash::Same(self)),
            _ => Ok(()),
        }
    }
}

impl Display for Stream {
    fn fmt<W: fmt::Write>(&self, f: &mut Formatter<W>) -> fmt::Result {
        f.pad(match self {
            Stream::Input => "standard input",
            Stream::Output => "standard output",
            Stream::Error => "standard error",
        })
    }
}

impl Clash {
    /// Whether a line on standard error lands in no volume. Where that isn't known, only a terminal gets one.
    pub(crate) fn may_be_said(&self, rt: &HostRuntime) -> bool {
        match self {
            Clash::Same(Stream::Error) => false,
            Clash::Unknown(Stream::Error) => rt.stderr().is_terminal(),
            _ => true,
        }
    }
}

/// Finds a standard stream that is this file, or, with no file, one that can't be asked. Standard error comes first, so
/// that a clash of another stream can be said on it.
pub(crate) fn check_streams(rt: &HostRuntime, file: Option<&Metadata>) -> Result<(), Clash> {
    Stream::Error.check(rt, file)?;
    Stream::Input.check(rt, file)?;
    Stream::Output.check(rt, file)
}

/// Whether a line on standard error lands in no volume, where the first word alone may be a path.
pub(crate) fn may_complain(rt: &HostRuntime, path: Option<&str>) -> bool {
    match path {
        Some(path) => match fs::metadata(rt, path) {
            Ok(file) => Stream::Error.check(rt, Some(&file)).is_ok(),
            Err(_) => true,
        },
        None => matches!(fs::metadata(rt, Stream::Error.place()), Ok(stream) if !stream.is_file()),
    }
}

fn is_same(one: &Metadata, other: &Metadata) -> bool {
    one.dev() == other.dev() && one.ino() == other.ino()
}
