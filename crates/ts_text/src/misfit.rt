ghost use Rattle.std.specs.Prelude.{◌≡◌, length, alloc_error};

use std::alloc::{AllocError, AllocFailed};

/// Why a phrase isn't read.
#[derive(Clone, Copy, Debug, PartialEq, Eq)]
pub enum Misfit {
    /// What stands here can't. From its first byte on so many are left.
    At { left: usize },
    Memory(AllocError),
}

impl Misfit {
    /// What stands here can't.
    pub fn here(bytes: &[u8]) -> Misfit
        ensures { result ≡ Misfit.At (length bytes.now) }
    {
        Misfit::At { left: bytes.len() }
    }
}

impl From<AllocError> for Misfit {
    ghost use Rattle.ts_text.specs.declared.misfit.Misfit.TheVariants.{Memory};

    ghost from_gives = { λ error misfit. misfit ≡ Memory error };

    fn from(error: AllocError) -> Misfit {
        Misfit::Memory(error)
    }
}

impl<T: Drop> From<AllocFailed<T>> for Misfit {
    ghost use Rattle.ts_text.specs.declared.misfit.Misfit.TheVariants.{Memory};

    ghost from_gives = { λ _ misfit. misfit ≡ Memory alloc_error };

    fn from(failed: AllocFailed<T>) -> Misfit {
        Misfit::Memory(AllocError::from(failed))
    }
}
