// Where the lines go: an output, and one in memory.
ghost use Rattle.std.specs.Prelude.{◌≡◌, ◌++◌, [], true, Bool, OnOk, is_err, ℕ};
ghost use Rattle.ts_syntax.specs.Output.{Heard, Spoken};

use std::alloc::Global;
use ts_base::Bytes;
use ts_disk::{SayFailed, raise};

/// An output for lines.
pub trait Output {
    /// Whether it tells what was said.
    ghost tells: { Bool };

    ghost heard: { Self → Heard };

    fn say(&mut self, piece: &[u8]) -> Result<(), SayFailed>
        ensures { Spoken tells piece.now result (heard self.old) (heard self.new) };
}

/// What is said, kept in memory, until a say fails.
#[derive(Drop)]
pub struct MemoryOutput {
    said: Bytes,
    /// How many pieces are said before one fails.
    pieces: u64,
    faults: u64,
}

impl MemoryOutput {
    ghost use Rattle.ts_syntax.specs.MemoryOutput.{heard_by};

    /// Nothing said. So many pieces can be.
    pub fn new(alloc: Global, pieces: u64) -> MemoryOutput
        ensures said { (heard_by result).said ≡ [] }
        ensures faults { (heard_by result).say_faults ≡ 0 }
    {
        MemoryOutput {
            said: Bytes::new(alloc),
            pieces,
            faults: 0,
        }
    }

    /// The bytes that were said.
    pub fn said(&self) -> &[u8]
        ensures { result.now ≡ (heard_by self.now).said }
    {
        self.said.as_slice()
    }
}

impl Output for MemoryOutput {
    ghost use Rattle.ts_syntax.specs.MemoryOutput.{heard_by};

    ghost tells = { true };

    ghost heard = { heard_by };

    /// Fails once its pieces are used up, or where there is no memory.
    fn say(&mut self, piece: &[u8]) -> Result<(), SayFailed> {
        if self.pieces == 0 || self.said.extend_from_slice(piece).is_err() {
            raise(&mut self.faults);
            return Err(SayFailed);
        }
        self.pieces -= 1;
        Ok(())
    }
}
