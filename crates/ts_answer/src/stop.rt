// Why a command isn't carried out on pages.

ghost use Rattle.std.specs.Prelude.{◌≡◌};

use std::alloc::AllocError;
use ts_base::{Refusal, StoreFault, Trouble};

/// A command isn't carried out.
#[derive(Debug, Drop)]
pub enum Stop {
    /// It is refused.
    Refused(Refusal),
    /// The disk failed.
    Failed,
    Memory(AllocError),
}

impl From<AllocError> for Stop {
    ghost use Rattle.ts_answer.specs.declared.stop.Stop.TheVariants.{Memory};

    ghost from_gives = { λ error stop. stop ≡ Memory error };

    fn from(error: AllocError) -> Stop {
        Stop::Memory(error)
    }
}

impl From<Trouble> for Stop {
    ghost use Rattle.ts_answer.specs.Stop.{trouble_stop};

    ghost from_gives = { λ trouble stop. stop ≡ trouble_stop trouble };

    fn from(trouble: Trouble) -> Stop {
        match trouble {
            Trouble::Refused(refusal) => Stop::Refused(refusal),
            Trouble::Memory(error) => Stop::Memory(error),
        }
    }
}

impl From<StoreFault> for Stop {
    ghost use Rattle.ts_answer.specs.Stop.{store_stop};

    ghost from_gives = { λ fault stop. stop ≡ store_stop fault };

    fn from(fault: StoreFault) -> Stop {
        match fault {
            StoreFault::Failed => Stop::Failed,
            StoreFault::Memory(error) => Stop::Memory(error),
        }
    }
}
