// The file of a volume: opened for reading, and for this program alone.
use crate::streams::{Clash, check_streams};
use std::fs::{self, File, OpenOptions, TryLockError};
use std::io;
use thiserror::Error;

/// Why a volume's file can't be used.
#[derive(Debug, Drop, Error)]
pub(crate) enum OpenError {
    #[error("can't be opened: {0}; check the path and the rights on it")]
    Io(#[from] io::Error),
    #[error("is no plain file; choose another path")]
    NotAFile,
    #[error(transparent)]
    Clash(#[from] Clash),
    #[error("another program works on it; wait until that one has ended")]
    Busy,
}

impl OpenError {
    /// Whether a line on standard error lands in no volume.
    pub(crate) fn may_be_said(&self, rt: &HostRuntime) -> bool {
        match self {
            OpenError::Clash(clash) => clash.may_be_said(rt),
            _ => true,
        }
    }
}

/// Opens a plain file for reading, and locks it until it is closed. The file and its length in bytes. What isn't a plain
/// file, or is a standard stream, is refused before it is opened; what comes to the path in between, after that.
pub(crate) fn open_volume(rt: &HostRuntime, path: &str) -> Result<(File, u64), OpenError> {
    let before = fs::metadata(rt, path)?;
    if !before.is_file() {
        return Err(OpenError::NotAFile);
    }
    check_streams(rt, Some(&before))?;
    let file = OpenOptions::new().read(true).open(rt, path)?;
    let lock = file.try_lock();
    // Another file may have come to the path since.
    let found = file.metadata()?;
    if !found.is_file() {
        return Err(OpenError::NotAFile);
    }
    check_streams(rt, Some(&found))?;
    match lock {
        Ok(()) => Ok((file, found.len())),
        Err(TryLockError::WouldBlock) => Err(OpenError::Busy),
        Err(TryLockError::Error(error)) => Err(OpenError::Io(error)),
    }
}
