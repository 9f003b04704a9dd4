// Why a survey gives nothing.
ghost use Rattle.std.specs.Prelude.{◌≡◌};

use std::alloc::{AllocError, AllocFailed};
use ts_base::StoreFault;

/// The pages mean no catalogue, or they could not be read.
#[derive(Debug, Drop)]
pub enum SurveyFault {
    /// This is the first bad page.
    NotAStore { page: u32 },
    Failed,
    Memory(AllocError),
}

impl From<StoreFault> for SurveyFault {
    ghost use Rattle.ts_container.specs.Fault.{survey_fault};

    ghost from_gives = { λ store fault. fault ≡ survey_fault store };

    fn from(fault: StoreFault) -> SurveyFault {
        match fault {
            StoreFault::Failed => SurveyFault::Failed,
            StoreFault::Memory(error) => SurveyFault::Memory(error),
        }
    }
}

impl From<AllocError> for SurveyFault {
    ghost use Rattle.ts_container.specs.declared.fault.SurveyFault.TheVariants.{Memory};

    ghost from_gives = { λ error fault. fault ≡ Memory error };

    fn from(error: AllocError) -> SurveyFault {
        SurveyFault::Memory(error)
    }
}

impl<T: Drop> From<AllocFailed<T>> for SurveyFault {
    ghost use Rattle.std.specs.Prelude.{alloc_error};
    ghost use Rattle.ts_container.specs.declared.fault.SurveyFault.TheVariants.{Memory};

    ghost from_gives = { λ _ fault. fault ≡ Memory alloc_error };

    fn from(failed: AllocFailed<T>) -> SurveyFault {
        SurveyFault::Memory(AllocError::from(failed))
    }
}
