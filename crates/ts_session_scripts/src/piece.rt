// The items of a script, as they are kept until their turn.
ghost use Rattle.std.specs.Prelude.{◌≡◌, ◌≤◌, ◌<◌, ◌++◌, IfOk, OnOk, length, map, take};
ghost use Rattle.ts_items.specs.Items.{items_to_end, items_from, place_from};
ghost use Rattle.ts_items.specs.Reader.{item_of};
ghost use Rattle.ts_session_scripts.specs.Piece.{item_of_piece};

use crate::statement::Statement;
use std::alloc::{AllocError, Global};
use ts_base::Bytes;
use ts_command::{Cut, Reader};

/// An item of a script.
#[derive(Drop)]
pub enum Piece {
    Statement(Statement),
    TooLong,
    Unended,
}

/// The items of a script, the first one first.
pub(crate) fn pieces_of(alloc: Global, script: &[u8]) -> Result<Vec<Piece>, AllocError>
    ensures { IfOk result (λ pieces. map item_of_piece pieces.items ≡ items_to_end script.now) }
{
    let mut reader = Reader::new(alloc)?;
    let mut pieces = Vec::new(alloc);
    let mut rest = script;
    while !rest.is_empty() {
        let taken = read_next(alloc, &mut reader, rest, &mut pieces)?;
        rest = &rest[taken..];
    }
    if reader.finish().is_some() {
        pieces.push(Piece::Unended)?;
    }
    Ok(pieces)
}

// Reads up to the end of an item, and keeps the item. How many bytes were read.
fn read_next(
    alloc: Global,
    reader: &mut Reader,
    bytes: &[u8],
    pieces: &mut Vec<Piece>,
) -> Result<usize, AllocError>
    ensures within { IfOk result (λ n. n ≤ length bytes.now) }
    ensures some { IfOk result (λ n. 0 < length bytes.now → 0 < n) }
    ensures items { IfOk result (λ n. map item_of_piece pieces.new.items
        ≡ map item_of_piece pieces.old.items ++ items_from reader.old.place (take n bytes.now)) }
    ensures place { IfOk result (λ n. reader.new.place ≡ place_from reader.old.place (take n bytes.now)) }
{
    let fed = reader.feed(bytes);
    if let Some(cut) = fed.cut {
        let piece = piece_of(alloc, cut, reader.text())?;
        pieces.push(piece)?;
    }
    Ok(fed.taken)
}

// The item that a cut ends.
fn piece_of(alloc: Global, cut: Cut, text: &[u8]) -> Result<Piece, AllocError>
    requires { length text.now ≤ 65536 }
    ensures { IfOk result (λ piece. item_of_piece piece ≡ item_of cut text.now) }
{
    match cut {
        Cut::Statement => Ok(Piece::Statement(Statement {
            text: Bytes::from_slice(alloc, text)?,
        })),
        Cut::TooLong => Ok(Piece::TooLong),
        Cut::Unended => Ok(Piece::Unended),
    }
}
