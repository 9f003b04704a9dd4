// What is left of a script.
ghost use Rattle.std.specs.Prelude.{◌≡◌, ◌∷◌, [], IfOk, MatchOption, length, map};
ghost use Rattle.ts_items.specs.Items.{items_to_end};
ghost use Rattle.ts_session_scripts.specs.Piece.{item_of_piece};

use crate::piece::{Piece, pieces_of};
use std::alloc::{AllocError, Global};
use std::marker::Model;
use ts_base::Bytes;

/// The items of a script that wait for their turn; the next one stands last.
#[derive(Drop)]
pub struct Script {
    pieces: Vec<Piece>,
}

impl Model for Script {
    ghost use Rattle.std.specs.Prelude.{List};
    ghost use Rattle.ts_items.specs.Items.{Item};
    ghost use Rattle.ts_session_scripts.specs.Piece.{items_left};

    ghost Value = { List Item };

    ghost view = { λ s. items_left s.pieces.items };
}

impl Script {
    /// All items of a script.
    pub fn new(alloc: Global, script: &[u8]) -> Result<Script, AllocError>
        ensures { IfOk result (λ s. s ≡ items_to_end script.now) }
    {
        let mut pieces = pieces_of(alloc, script)?;
        pieces.reverse();
        Ok(Script { pieces })
    }

    /// How many are left.
    pub fn left(&self) -> usize
        ensures { result ≡ length self.now }
    {
        self.pieces.len()
    }

    /// Takes the next one.
    pub fn take(&mut self) -> Option<Piece>
        ensures { MatchOption result (self.old ≡ []) (λ piece. self.old ≡ item_of_piece piece ∷ self.new) }
    {
        self.pieces.pop()
    }
}

/// The scripts of sections.
pub fn scripts_of(alloc: Global, sections: &[Bytes]) -> Result<Vec<Script>, AllocError>
    ensures { IfOk result (λ scripts. scripts.items ≡ map items_to_end sections.now) }
{
    let mut scripts = Vec::new(alloc);
    for section in sections {
        scripts.push(Script::new(alloc, section.as_slice())?)?;
    }
    Ok(scripts)
}
