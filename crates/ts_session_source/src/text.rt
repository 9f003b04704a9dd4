// The whole text of a source, pulled in pieces.
ghost use Rattle.std.specs.Prelude.{◌≡◌, IfOk, length};
ghost use Rattle.ts_session_source.specs.Text.{TakesText};

use crate::fault::TextFault;
use std::alloc::{AllocError, Global};
use ts_base::Bytes;
use ts_disk::Source;
use ts_opening::{PIECE, pull_front, room_after};

/// The most bytes of a text.
const LIMIT: usize = 1_048_576;

/// Takes all of a source up to its end, where these are at most so many bytes.
pub(crate) fn take_text<R: Source>(alloc: Global, source: &mut R) -> Result<Bytes, TextFault>
    ensures { TakesText R.tells result (R.input source.old) (R.input source.new) }
{
    let mut buffer = zeros(alloc, PIECE)?;
    take_pieces(alloc, source, &mut buffer)
}

// Takes it piece by piece.
fn take_pieces<R: Source>(
    alloc: Global,
    source: &mut R,
    buffer: &mut [u8],
) -> Result<Bytes, TextFault>
    requires { length buffer.old ≡ 65536 }
    ensures { TakesText R.tells result (R.input source.old) (R.input source.new) }
{
    let mut text = Bytes::new(alloc);
    loop {
        let count = text.as_slice().len();
        match pull_front(source, buffer, room_after(LIMIT, count)) {
            Err(_) => return Err(TextFault::Pull),
            Ok(0) => return Ok(text),
            Ok(more) => {
                if count == LIMIT {
                    return Err(TextFault::TooLong);
                }
                text.extend_from_slice(&buffer[..more])?;
            }
        }
    }
}

fn zeros(alloc: Global, count: usize) -> Result<Vec<u8>, AllocError>
    ensures { IfOk result (λ v. length v.items ≡ count) }
{
    vec![in alloc; 0u8; count]
}
