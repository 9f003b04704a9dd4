// The file of a volume: opened for this program alone.
use crate::streams::{Clash, check_streams};
use std::fs::{self, File, OpenOptions, TryLockError};
use std::io;
use std::path::Path;
use thiserror::Error;

/// Why a volume's file can't be used.
#[derive(Debug, Drop, Error)]
pub(crate) enum OpenError {
    #[error("can't be opened: {0}; check the path and the rights on it")]
    Io(#[from] io::Error),
    #[error("isn't there; `ts PATH init PAGES` makes one")]
    Missing,
    #[error("is no plain file; choose another path")]
    NotAFile,
    #[error("is a symbolic link, through which no store is made; say init with the path of the file itself")]
    Link,
    #[error(transparent)]
    Clash(#[from] Clash),
    #[error("another `ts` works on it; wait until that one has ended")]
    Busy,
}

impl OpenError {
    /// Whether a line on standard error lands in no volume.
    pub(crate) fn may_be_said(&self, rt: &HostRuntime) -> bool {
        match self {
            OpenError::Clash(clash) => clash.may_be_said(rt),
            _ => true,
        }
    }
}

/// Opens a plain file for reading and writing, or makes an empty one where that is wished, and locks it until it is
/// closed. The file and its length in bytes. What isn't a plain file, or is a standard stream, is refused before it is
/// opened; what comes to the path in between, after that.
pub(crate) fn open_volume(
    rt: &HostRuntime,
    path: &str,
    may_make: bool,
) -> Result<(File, u64), OpenError> {
    let is_new = look(rt, path, may_make)?;
    let file = OpenOptions::new()
        .read(true)
        .write(true)
        .create_new(is_new)
        .open(rt, path)?;
    let lock = file.try_lock();
    // Another file may have come to the path since.
    let found = file.metadata()?;
    if !found.is_file() {
        return Err(OpenError::NotAFile);
    }
    check_streams(rt, Some(&found))?;
    match lock {
        Ok(()) => Ok((file, found.len())),
        Err(TryLockError::WouldBlock) => Err(OpenError::Busy),
        Err(TryLockError::Error(error)) => Err(OpenError::Io(error)),
    }
}

/// Looks at what the path leads to before it is opened. Whether a new file is to be made there.
fn look(rt: &HostRuntime, path: &str, may_make: bool) -> Result<bool, OpenError> {
    let is_new = match fs::metadata(rt, path) {
        Ok(found) if !found.is_file() => return Err(OpenError::NotAFile),
        Ok(found) => {
            check_streams(rt, Some(&found))?;
            false
        }
        Err(error) if error.kind() != io::ErrorKind::NotFound => return Err(OpenError::Io(error)),
        Err(_) if !may_make => return Err(OpenError::Missing),
        Err(_) => {
            check_streams(rt, None)?;
            true
        }
    };
    // The name of a file that is made stands in the folder of the path, which is synced after it.
    if may_make && matches!(fs::symlink_metadata(rt, path), Ok(found) if found.is_symlink()) {
        return Err(OpenError::Link);
    }
    Ok(is_new)
}

/// Brings the name of a file to the disk.
pub(crate) fn sync_folder(rt: &HostRuntime, path: &str) -> io::Result<()> {
    let folder = match Path::new(path).parent() {
        Some(folder) if folder.as_str() != "" => folder,
        _ => Path::new("."),
    };
    File::open(rt, folder)?.sync_all()
}
