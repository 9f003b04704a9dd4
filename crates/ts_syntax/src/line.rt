// The line of a mistake.
ghost use Rattle.std.specs.Prelude.{◌≡◌, ◌++◌, ℕ, List, IfOk, IsTrue, OnOk, decimal};
ghost use Rattle.ts_base.specs.Name.{is_text, is_text_byte};
ghost use Rattle.ts_base.specs.Refusal.{refusal_name};
ghost use Rattle.ts_syntax.specs.Places.{IsBehind};
ghost use Rattle.ts_syntax.specs.Mistakes.{Mistake};
ghost use Rattle.ts_syntax.specs.Lines.{IsLine};

use crate::position::Position;
use itoa::Buffer;
use std::alloc::{AllocError, Global};
use ts_base::{Bytes, is_text_byte};

// A byte of a text, or a mark that stands for one that none may have.
fn mark(byte: u8) -> u8
    ensures { IsTrue (is_text_byte result) }
{
    if is_text_byte(byte) { byte } else { b'?' }
}

// Puts words to the end, with marks for control bytes.
fn push_words(line: &mut Bytes, words: &[u8]) -> Result<(), AllocError>
    ensures { OnOk result ((shown : List ℕ) × (line.new ≡ line.old ++ shown) × IsTrue (is_text shown)) }
{
    for byte in words {
        line.push(mark(*byte))?;
    }
    Ok(())
}

// Puts the digits of a number to the end.
fn push_number(line: &mut Bytes, number: u64) -> Result<(), AllocError>
    ensures { OnOk result (line.new ≡ line.old ++ decimal number) }
{
    let mut buffer = Buffer::new();
    line.extend_from_slice(buffer.format(number).as_bytes())
}

/// A place, the name of a refusal, and words.
pub(crate) fn make_line(
    alloc: Global,
    position: Position,
    name: &[u8],
    words: &[u8],
) -> Result<Bytes, AllocError>
    ensures { IfOk result (λ line. (mistake : Mistake) → IsBehind mistake.before position → refusal_name mistake.refusal
        ≡ name.now → IsLine mistake line) }
{
    let mut line = Bytes::new(alloc);
    push_number(&mut line, position.line)?;
    line.push(b':')?;
    push_number(&mut line, position.column)?;
    line.extend_from_slice(b": ")?;
    line.extend_from_slice(name)?;
    line.extend_from_slice(b": ")?;
    push_words(&mut line, words)?;
    line.push(b'\n')?;
    Ok(line)
}
