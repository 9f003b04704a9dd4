// A real file and standard output.
ghost use Rattle.std.specs.Prelude.{◌≡◌, ◌+◌, ◌≤◌, ◌<◌, false, length, ◌^◌, IsTrue, IsErr};
ghost use Rattle.ts_disk.specs.Device.{Resized, ReadAt, WrittenAt, Synced, Says};

use crate::wait::write_out;
use std::fs::File;
use std::io;
use std::os::unix::fs::FileExt;
use ts_disk::{Failed, SayFailed, Site, Volume, raise};

/// An open file and standard output.
#[derive(Drop)]
pub struct FileSite {
    file: File,
    rt: HostRuntime,
    /// The file's length in bytes.
    size: u64,
    /// The most bytes that the system lets a file have.
    limit: u64,
    /// The length changed since the last sync.
    is_resized: bool,
    /// A sync failed: what the file holds is not known any more.
    is_lost: bool,
    faults: u64,
    say_faults: u64,
}

impl FileSite {
    ghost use Rattle.ts_file.specs.FileSite.{size_of, limit_of, faults_of, say_faults_of, is_lost_of, SameCounts};

    /// The site of a file that was opened for reading and writing and has this length now, and of standard output.
    /// The system ends a program that writes past its limit on file sizes, in bytes, so no such call is made.
    pub fn new(rt: &HostRuntime, file: File, len: u64, limit: u64) -> FileSite
        ensures size { size_of result ≡ len }
        ensures limit { limit_of result ≡ limit }
        ensures faults { faults_of result ≡ 0 }
        ensures say_faults { say_faults_of result ≡ 0 }
    {
        FileSite {
            file,
            rt: *rt,
            size: len,
            limit,
            is_resized: false,
            is_lost: false,
            faults: 0,
            say_faults: 0,
        }
    }

    // No call can be made any more: a sync failed, or no fault more can be counted.
    fn is_closed(&self) -> bool
        ensures lost { IsTrue (is_lost_of self.now) → IsTrue result }
        ensures full { faults_of self.now ≡ u64.MAX → IsTrue result }
    {
        self.is_lost || self.faults == u64::MAX
    }

    // Asks the system to bring what was written to the disk, and the length where it changed.
    fn flush(&mut self) -> io::Result<()>
        ensures stays { SameCounts self.old self.new }
    {
        if self.is_resized {
            self.file.sync_all()?;
            self.is_resized = false;
            return Ok(());
        }
        self.file.sync_data()
    }
}

// Reads until the buffer is full. The end of the file within it is a failure.
fn read_all_at(file: &File, at: u64, into: &mut [u8]) -> io::Result<()>
    requires { at + length into.old < 2 ^ 64 }
{
    let mut done = 0;
    while done < into.len() {
        let got = file.read_at(&mut into[done..], at + done as u64)?;
        if got == 0 {
            return Err(io::ErrorKind::UnexpectedEof.into());
        }
        done += got;
    }
    Ok(())
}

// Writes until all bytes are taken.
fn write_all_at(file: &File, at: u64, from: &[u8]) -> io::Result<()>
    requires { at + length from.now < 2 ^ 64 }
{
    let mut done = 0;
    while done < from.len() {
        let put = file.write_at(&from[done..], at + done as u64)?;
        if put == 0 {
            return Err(io::ErrorKind::WriteZero.into());
        }
        done += put;
    }
    Ok(())
}

impl Volume for FileSite {
    ghost use Rattle.ts_file.specs.FileSite.{file_device, limit_of, faults_of, is_lost_of};

    ghost tells = { false };

    ghost device = { file_device };

    ghost use Rattle.ts_disk.proofs.Moments.{untold};

    ghost lawful = { λ f. untold (file_device f) (λ image now. now) (λ t image said left. left) };

    fn len(&self) -> u64 {
        self.size
    }

    fn faults(&self) -> u64 {
        self.faults
    }

    fn resize(&mut self, bytes: u64) -> Result<(), Failed>
        requires no_shorter { (file_device self.old).size ≤ bytes }
        requires limit { bytes ≤ 272244736 }
        ensures resized { Resized false bytes result (file_device self.old) (file_device self.new) }
        ensures beyond { limit_of self.old < bytes → IsErr result }
        ensures closed { IsTrue (is_lost_of self.old) → IsErr result }
        ensures full { faults_of self.old ≡ u64.MAX → IsErr result }
    {
        // A resize that failed may have changed the length too.
        self.is_resized = true;
        if self.is_closed() || bytes > self.limit || self.file.set_len(bytes).is_err() {
            raise(&mut self.faults);
            return Err(Failed);
        }
        self.size = bytes;
        Ok(())
    }

    fn read_at(&mut self, at: u64, into: &mut [u8]) -> Result<(), Failed>
        requires { at + length into.old ≤ (file_device self.old).size }
        ensures read { ReadAt false at into.new result (file_device self.old) (file_device self.new) }
        ensures closed { IsTrue (is_lost_of self.old) → IsErr result }
        ensures full { faults_of self.old ≡ u64.MAX → IsErr result }
    {
        // The range lies within the length, which is a u64.
        let _size = self.size;
        if self.is_closed() || read_all_at(&self.file, at, into).is_err() {
            raise(&mut self.faults);
            return Err(Failed);
        }
        Ok(())
    }

    fn write_at(&mut self, at: u64, from: &[u8]) -> Result<(), Failed>
        requires { at + length from.now ≤ (file_device self.old).size }
        ensures written { WrittenAt false at from.now result (file_device self.old) (file_device self.new) }
        ensures beyond { limit_of self.old < at + length from.now → IsErr result }
        ensures closed { IsTrue (is_lost_of self.old) → IsErr result }
        ensures full { faults_of self.old ≡ u64.MAX → IsErr result }
    {
        // The range lies within the length, which is a u64.
        let _size = self.size;
        let is_beyond = at + from.len() as u64 > self.limit;
        if self.is_closed() || is_beyond || write_all_at(&self.file, at, from).is_err() {
            raise(&mut self.faults);
            return Err(Failed);
        }
        Ok(())
    }

    fn sync(&mut self) -> Result<(), Failed>
        ensures synced { Synced false result (file_device self.old) (file_device self.new) }
        ensures closed { IsTrue (is_lost_of self.old) → IsErr result }
        ensures full { faults_of self.old ≡ u64.MAX → IsErr result }
        ensures lost { IsErr result → IsTrue (is_lost_of self.new) }
    {
        if self.is_closed() || self.flush().is_err() {
            self.is_lost = true;
            raise(&mut self.faults);
            return Err(Failed);
        }
        Ok(())
    }
}

impl Site for FileSite {
    ghost use Rattle.ts_file.specs.FileSite.{file_device, say_faults_of};

    fn say(&mut self, piece: &[u8]) -> Result<(), SayFailed>
        ensures says { Says false piece.now result (file_device self.old) (file_device self.new) }
        ensures full { say_faults_of self.old ≡ u64.MAX → IsErr result }
    {
        if self.say_faults == u64::MAX || write_out(&self.rt, piece).is_err() {
            raise(&mut self.say_faults);
            return Err(SayFailed);
        }
        Ok(())
    }
}
