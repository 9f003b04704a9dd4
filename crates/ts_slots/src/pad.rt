// Names, keys and zeros behind them.
ghost use Rattle.std.specs.Prelude.{◌≡◌, ◌≤◌, ℕ, List, Some, IsTrue, IfOk, length};
ghost use Rattle.ts_base.specs.Name.{is_name};
ghost use Rattle.ts_layout.specs.Slot.{padded, name_bytes};

use std::alloc::{AllocError, Global};
use ts_base::Name;

/// Writes bytes, and zeros behind them.
#[tactic(auto, using(crate::proofs::PartLemmas::put_over_zeros), unfolding(ts_layout::specs::Slot::padded))]
pub(crate) fn pad(bytes: &[u8], into: &mut [u8])
    requires { length bytes.now ≤ length into.old }
    ensures { into.new ≡ padded (length into.old) bytes.now }
{
    into.fill(0);
    into[..bytes.len()].copy_from_slice(bytes);
}

/// Writes the length of a name, its bytes and zeros.
pub(crate) fn write_name(name: &Name, into: &mut [u8])
    requires { length into.old ≡ 33 }
    ensures bytes { into.new ≡ name_bytes name.now }
    ensures short { length name.now ≤ 32 }
{
    let bytes = name.as_slice();
    into[0] = bytes.len() as u8;
    pad(bytes, &mut into[1..]);
}

/// The one name whose 33 bytes these may be.
pub(crate) fn read_name(alloc: Global, bytes: &[u8]) -> Result<Option<Name>, AllocError>
    requires { length bytes.now ≡ 33 }
    ensures { IfOk result (λ found. (name : List ℕ) → IsTrue (is_name name) → bytes.now ≡ name_bytes name
        → found ≡ Some name) }
{
    let length = bytes[0] as usize;
    if length > 32 {
        return Ok(None);
    }
    Name::read(alloc, &bytes[1..1 + length])
}
