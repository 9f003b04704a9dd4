// Standard streams that don't block: where a call would have to wait, it is made again after a nap.
ghost use Rattle.std.specs.Io.{ReadsAtMost, WritesAtMost};

use std::io::{self, ErrorKind, Read, Write};
use std::thread;
use std::time::Duration;

// Writes some of the bytes to standard output, once it has room: as one that blocks does, it waits for its reader.
fn write_some(rt: &HostRuntime, piece: &[u8]) -> io::Result<usize>
    ensures bound { WritesAtMost result piece.now }
{
    for _ in 0..u64::MAX {
        match rt.stdout().write(piece) {
            Err(error) if error.kind() == ErrorKind::WouldBlock => nap(rt),
            done => return done,
        }
    }
    Err(ErrorKind::WouldBlock.into())
}

/// Writes all of the bytes to standard output, in as many calls as it takes.
pub fn write_out(rt: &HostRuntime, piece: &[u8]) -> io::Result<()> {
    let mut done = 0;
    while done < piece.len() {
        let put = write_some(rt, &piece[done..])?;
        if put == 0 {
            return Err(ErrorKind::WriteZero.into());
        }
        done += put;
    }
    Ok(())
}

/// Reads some bytes from standard input, once it has some or ends: as one that blocks does, it waits for its writer.
pub(crate) fn read_some(rt: &HostRuntime, into: &mut [u8]) -> io::Result<usize>
    ensures bound { ReadsAtMost result into.new }
{
    for _ in 0..u64::MAX {
        match rt.stdin().read(into) {
            Err(error) if error.kind() == ErrorKind::WouldBlock => nap(rt),
            done => return done,
        }
    }
    Err(ErrorKind::WouldBlock.into())
}

fn nap(rt: &HostRuntime) {
    thread::sleep(rt, Duration::from_millis(1));
}
