// What a call answers besides a refusal: no memory, or a disk that failed.
ghost use Rattle.std.specs.Prelude.{◌≡◌};
ghost use Rattle.ts_base.specs.Fault.{series_fault};

use crate::Refusal;
use std::alloc::{AllocError, AllocFailed};
use thiserror::Error;

/// The command is refused, or there is no memory for its answer.
#[derive(Debug, Drop, Error)]
pub enum Trouble {
    #[error("the command is refused")]
    Refused(Refusal),
    #[error("out of memory")]
    Memory(AllocError),
}

/// A page could not be read or kept.
#[derive(Debug, Drop, Error)]
pub enum StoreFault {
    #[error("the volume failed")]
    Failed,
    #[error("out of memory")]
    Memory(AllocError),
}

/// The command is refused, or a page could not be read or kept.
#[derive(Debug, Drop, Error)]
pub enum SeriesFault {
    #[error("the command is refused")]
    Refused(Refusal),
    #[error("the volume failed")]
    Failed,
    #[error("out of memory")]
    Memory(AllocError),
}

impl<T: Drop> From<AllocFailed<T>> for Trouble {
    ghost use Rattle.std.specs.Prelude.{alloc_error};
    ghost use Rattle.ts_base.specs.declared.fault.Trouble.TheVariants.{Memory};

    ghost from_gives = { λ _ trouble. trouble ≡ Memory alloc_error };

    fn from(failed: AllocFailed<T>) -> Trouble {
        Trouble::Memory(AllocError::from(failed))
    }
}

impl From<AllocError> for Trouble {
    ghost use Rattle.ts_base.specs.declared.fault.Trouble.TheVariants.{Memory};

    ghost from_gives = { λ error trouble. trouble ≡ Memory error };

    fn from(error: AllocError) -> Trouble {
        Trouble::Memory(error)
    }
}

impl<T: Drop> From<AllocFailed<T>> for StoreFault {
    ghost use Rattle.std.specs.Prelude.{alloc_error};
    ghost use Rattle.ts_base.specs.declared.fault.StoreFault.TheVariants.{Memory};

    ghost from_gives = { λ _ fault. fault ≡ Memory alloc_error };

    fn from(failed: AllocFailed<T>) -> StoreFault {
        StoreFault::Memory(AllocError::from(failed))
    }
}

impl From<AllocError> for StoreFault {
    ghost use Rattle.ts_base.specs.declared.fault.StoreFault.TheVariants.{Memory};

    ghost from_gives = { λ error fault. fault ≡ Memory error };

    fn from(error: AllocError) -> StoreFault {
        StoreFault::Memory(error)
    }
}

impl<T: Drop> From<AllocFailed<T>> for SeriesFault {
    ghost use Rattle.std.specs.Prelude.{alloc_error};
    ghost use Rattle.ts_base.specs.declared.fault.SeriesFault.TheVariants.{Memory};

    ghost from_gives = { λ _ fault. fault ≡ Memory alloc_error };

    fn from(failed: AllocFailed<T>) -> SeriesFault {
        SeriesFault::Memory(AllocError::from(failed))
    }
}

impl From<AllocError> for SeriesFault {
    ghost use Rattle.ts_base.specs.declared.fault.SeriesFault.TheVariants.{Memory};

    ghost from_gives = { λ error fault. fault ≡ Memory error };

    fn from(error: AllocError) -> SeriesFault {
        SeriesFault::Memory(error)
    }
}

impl From<StoreFault> for SeriesFault {
    ghost from_gives = { λ store fault. fault ≡ series_fault store };

    fn from(store: StoreFault) -> SeriesFault {
        match store {
            StoreFault::Failed => SeriesFault::Failed,
            StoreFault::Memory(error) => SeriesFault::Memory(error),
        }
    }
}
