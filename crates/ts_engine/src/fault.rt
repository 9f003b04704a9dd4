// Why a step gives no reply.

ghost use Rattle.std.specs.Prelude.{◌≡◌};

use std::alloc::AllocError;

/// There is no reply.
#[derive(Debug, Drop)]
pub enum StepFault {
    /// The disk failed in this step. The engine is closed from now on: open the volume again.
    Disk,
    /// There is no memory for the command, which changed nothing.
    Memory(AllocError),
    /// The disk failed in an earlier step, and had failed so often after it. No call was made.
    Closed { faults: u64 },
}

impl From<AllocError> for StepFault {
    ghost use Rattle.ts_engine.specs.declared.fault.StepFault.TheVariants.{Memory};

    ghost from_gives = { λ error fault. fault ≡ Memory error };

    fn from(error: AllocError) -> StepFault {
        StepFault::Memory(error)
    }
}
