// Sources in memory: bytes in pieces, and spaces without end.
ghost use Rattle.std.specs.Prelude.{◌≡◌, ◌+◌, ◌≤◌, ◌<◌, ℕ, List, length, OnOk, OnErr, IfOk, IsErr, IsTrue, [], ◌∷◌};
ghost use Rattle.std.specs.Prelude.{◌++◌, take, drop, true, false, min, is_err, replicate};
ghost use Rattle.ts_disk.specs.Device.{Pulled};

use crate::{PullFailed, Source, either, raise};
use std::alloc::AllocError;

/// Bytes in memory, given in pieces of at most one size.
#[derive(Drop)]
pub struct MemorySource {
    bytes: Vec<u8>,
    /// How many of the bytes were moved out.
    at: usize,
    /// The most bytes of a pull.
    piece: usize,
    pulls: u64,
    /// The numbers of the pulls that are to fail, counted from 0.
    failing: Vec<u64>,
    faults: u64,
    /// A pull answered 0.
    ended: bool,
    /// A pull was made behind that.
    past_end: bool,
    ghost within: { at ≤ length bytes.items },
    ghost moves: { 0 < piece },
}

impl MemorySource {
    ghost use Rattle.ts_disk.specs.MemoryInput.{source_input, piece_of, failing_pulls};

    pub fn new(bytes: Vec<u8>, piece: usize) -> MemorySource
        requires { 0 < piece }
        ensures left { (source_input result).left ≡ bytes.items }
        ensures pulls { (source_input result).pulls ≡ 0 }
        ensures faults { (source_input result).pull_faults ≡ 0 }
        ensures ended { (source_input result).ended ≡ false }
        ensures past_end { (source_input result).past_end ≡ false }
        ensures piece { piece_of result ≡ piece }
        ensures failing { failing_pulls result ≡ [] }
    {
        let alloc = *bytes.allocator();
        MemorySource {
            bytes,
            at: 0,
            piece,
            pulls: 0,
            failing: Vec::new(alloc),
            faults: 0,
            ended: false,
            past_end: false,
        }
    }

    /// Lets that pull fail.
    pub fn fail(&mut self, pull: u64) -> Result<(), AllocError>
        ensures input { source_input self.new ≡ source_input self.old }
        ensures piece { piece_of self.new ≡ piece_of self.old }
        ensures ok { OnOk result (failing_pulls self.new ≡ failing_pulls self.old ++ pull ∷ []) }
        ensures err { OnErr result (failing_pulls self.new ≡ failing_pulls self.old) }
    {
        self.failing.push(pull)?;
        Ok(())
    }
}

fn move_out(bytes: &[u8], at: usize, count: usize, into: &mut [u8])
    requires left { at + count ≤ length bytes.now }
    requires room { count ≤ length into.old }
    ensures { into.new ≡ take count (drop at bytes.now) ++ drop count into.old }
{
    into[..count].copy_from_slice(&bytes[at..at + count]);
}

impl Source for MemorySource {
    ghost use Rattle.ts_disk.specs.MemoryInput.{source_input, piece_of, pull_fails};

    ghost tells = { true };

    ghost input = { source_input };

    /// Fails exactly where its number is to fail. Else it moves as many bytes as the piece, the buffer
    /// and what is left allow.
    fn pull(&mut self, into: &mut [u8]) -> Result<usize, PullFailed>
        requires { 0 < length into.old }
        ensures pulled { Pulled true into.new result (source_input self.old) (source_input self.new) }
        ensures failing { is_err result ≡ pull_fails self.old }
        ensures count { IfOk result (λ n. n ≡ min (min (piece_of self.old) (length into.old))
            (length (source_input self.old).left)) }
        ensures piece { piece_of self.new ≡ piece_of self.old }
    {
        let number = self.pulls;
        self.pulls = self.pulls.saturating_add(1);
        self.past_end = either(self.past_end, self.ended);
        if self.failing.contains(&number) {
            raise(&mut self.faults);
            return Err(PullFailed);
        }
        let left = self.bytes.len() - self.at;
        let count = self.piece.min(into.len()).min(left);
        move_out(&self.bytes, self.at, count, into);
        self.at += count;
        self.ended = either(self.ended, count == 0);
        Ok(count)
    }
}

/// Spaces without end. It tells no bytes.
#[derive(Drop)]
pub struct BlankSource {
    pulls: u64,
}

impl BlankSource {
    ghost use Rattle.ts_disk.specs.MemoryInput.{blank_input};

    pub fn new() -> BlankSource
        ensures pulls { (blank_input result).pulls ≡ 0 }
    {
        BlankSource { pulls: 0 }
    }
}

impl Source for BlankSource {
    ghost use Rattle.ts_disk.specs.MemoryInput.{blank_input};

    ghost tells = { false };

    ghost input = { blank_input };

    /// Fills the buffer whole, and never fails.
    fn pull(&mut self, into: &mut [u8]) -> Result<usize, PullFailed>
        requires { 0 < length into.old }
        ensures pulled { Pulled false into.new result (blank_input self.old) (blank_input self.new) }
        ensures whole { result ≡ Ok (length into.old) }
        ensures spaces { into.new ≡ replicate (length into.old) 32 }
    {
        self.pulls = self.pulls.saturating_add(1);
        into.fill(b' ');
        Ok(into.len())
    }
}
