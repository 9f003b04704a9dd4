// Pieces of a source, up to a limit.
ghost use Rattle.std.specs.Prelude.{◌≡◌, ◌≤◌, ◌<◌, ◌+◌, IfOk, length};
ghost use Rattle.ts_disk.specs.Device.{Pulled};

use ts_disk::{PullFailed, Source};

/// The most bytes of a piece.
pub const PIECE: usize = 65536;

/// How many bytes are pulled next, where so many were: no piece goes past the limit, but for the one byte that shows
/// that the source does.
pub fn room_after(limit: usize, count: usize) -> usize
    requires { count ≤ limit }
    ensures some { 0 < result }
    ensures piece { result ≤ 65536 }
    ensures limit { count < limit → count + result ≤ limit }
{
    if count == limit {
        return 1;
    }
    let left = limit - count;
    if left < PIECE { left } else { PIECE }
}

/// Pulls into the front of a buffer.
pub fn pull_front<R: Source>(
    source: &mut R,
    buffer: &mut [u8],
    room: usize,
) -> Result<usize, PullFailed>
    requires some { 0 < room }
    requires within { room ≤ length buffer.old }
    ensures pulled { Pulled R.tells buffer.new result (R.input source.old) (R.input source.new) }
    ensures room { IfOk result (λ n. n ≤ room) }
{
    source.pull(&mut buffer[..room])
}
