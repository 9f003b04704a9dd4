ghost use Rattle.std.specs.Prelude.{◌≡◌, [], ◌∷◌, ◌++◌, take, OnOk, OnErr};

use crate::Bytes;
use std::alloc::{AllocError, Global};
use std::marker::Model;

/// What a command says: the bytes of its lines.
#[derive(Debug, Drop)]
pub struct Reply {
    bytes: Bytes,
}

impl Model for Reply {
    ghost use Rattle.std.specs.Prelude.{ℕ, List};

    ghost Value = { List ℕ };

    ghost view = { λ r. r.bytes };
}

impl Reply {
    /// No bytes; it takes no memory.
    pub fn new(alloc: Global) -> Self
        ensures { result ≡ [] }
    {
        Reply {
            bytes: Bytes::new(alloc),
        }
    }

    pub fn as_slice(&self) -> &[u8]
        ensures { result.now ≡ self.now }
    {
        self.bytes.as_slice()
    }

    /// Puts one byte to the end.
    pub fn push(&mut self, byte: u8) -> Result<(), AllocError>
        ensures ok { OnOk result (self.new ≡ self.old ++ byte ∷ []) }
        ensures err { OnErr result (self.new ≡ self.old) }
    {
        self.bytes.push(byte)
    }

    /// Puts all bytes of a slice to the end.
    pub fn extend_from_slice(&mut self, bytes: &[u8]) -> Result<(), AllocError>
        ensures ok { OnOk result (self.new ≡ self.old ++ bytes.now) }
        ensures err { OnErr result (self.new ≡ self.old) }
    {
        self.bytes.extend_from_slice(bytes)
    }

    /// Keeps the first bytes alone, at most so many. The memory stays for the next ones.
    pub fn truncate(&mut self, len: usize)
        ensures { self.new ≡ take len self.old }
    {
        self.bytes.truncate(len);
    }

    /// Takes all bytes out. The memory stays for the next reply.
    pub fn clear(&mut self)
        ensures { self.new ≡ [] }
    {
        self.bytes.clear();
    }
}
