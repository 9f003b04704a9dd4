// Why an expression isn't applied.
ghost use Rattle.std.specs.Prelude.{◌≡◌};

use std::alloc::{AllocError, AllocFailed};
use thiserror::Error;

/// Why expressions have no row for an element.
#[derive(Debug, Drop, Error)]
pub enum ApplyError {
    /// A number lies outside `-(2^127 - 1)` to `2^127 - 1`: what an operation makes, or an operand brought to the scale
    /// of the other.
    #[error("a number has no place in 128 bits")]
    Overflow,
    #[error("out of memory")]
    Memory(AllocError),
}

impl<T: Drop> From<AllocFailed<T>> for ApplyError {
    ghost use Rattle.std.specs.Prelude.{alloc_error};
    ghost use Rattle.ts_running.specs.declared.fault.ApplyError.TheVariants.{Memory};

    ghost from_gives = { λ _ error. error ≡ Memory alloc_error };

    fn from(failed: AllocFailed<T>) -> ApplyError {
        ApplyError::Memory(AllocError::from(failed))
    }
}

impl From<AllocError> for ApplyError {
    ghost use Rattle.ts_running.specs.declared.fault.ApplyError.TheVariants.{Memory};

    ghost from_gives = { λ memory error. error ≡ Memory memory };

    fn from(memory: AllocError) -> ApplyError {
        ApplyError::Memory(memory)
    }
}
