// How a dump ended.
ghost use Rattle.std.specs.Prelude.{◌≡◌};
ghost use Rattle.ts_dump.specs.Ended.{status_of, ended_of, read_as};
ghost use Rattle.ts_dump.specs.declared.ended.Fault.TheVariants.{Output, Volume as VolumeFault, Memory};

use std::alloc::AllocError;
use ts_container::SurveyFault;
use ts_disk::{Failed, SayFailed};

/// How a dump of a volume ended.
#[derive(Clone, Copy, Debug, PartialEq, Eq)]
pub enum Ended {
    /// The whole script was said.
    Whole,
    /// The volume is no store, and this is its first bad page. Nothing was said.
    Bad { page: u32 },
    /// No series has the key that was wished. Nothing was said.
    NoSeries,
    /// A piece of the script wasn't said whole: a front of it was.
    OutputFailed,
    /// A call of the volume failed; a front of the script was said.
    VolumeFailed,
    /// There was no memory; a front of the script was said.
    NoMemory,
}

impl Ended {
    /// The program's status.
    pub fn status(self) -> u8
        ensures { result ≡ status_of self }
    {
        match self {
            Ended::Whole => 0,
            Ended::NoSeries => 1,
            Ended::OutputFailed => 4,
            Ended::VolumeFailed => 5,
            Ended::Bad { .. } => 6,
            Ended::NoMemory => 7,
        }
    }
}

/// Why a script isn't said on.
#[derive(Clone, Copy, Debug, PartialEq, Eq)]
pub(crate) enum Fault {
    Output,
    Volume,
    Memory,
}

impl From<SayFailed> for Fault {
    ghost from_gives = { λ _ e. e ≡ Output };

    fn from(_: SayFailed) -> Self {
        Fault::Output
    }
}

impl From<Failed> for Fault {
    ghost from_gives = { λ _ e. e ≡ VolumeFault };

    fn from(_: Failed) -> Self {
        Fault::Volume
    }
}

impl From<AllocError> for Fault {
    ghost from_gives = { λ _ e. e ≡ Memory };

    fn from(_: AllocError) -> Self {
        Fault::Memory
    }
}

/// How a dump ends whose script was said, or not.
pub(crate) fn ended_of(said: Result<(), Fault>) -> Ended
    ensures { result ≡ ended_of said }
{
    match said {
        Ok(()) => Ended::Whole,
        Err(Fault::Output) => Ended::OutputFailed,
        Err(Fault::Volume) => Ended::VolumeFailed,
        Err(Fault::Memory) => Ended::NoMemory,
    }
}

/// How one ends whose volume wasn't found to be a store.
pub(crate) fn unread(fault: SurveyFault) -> Ended
    ensures { result ≡ read_as fault }
{
    match fault {
        SurveyFault::Failed => Ended::VolumeFailed,
        SurveyFault::NotAStore { page } => Ended::Bad { page },
        SurveyFault::Memory(_) => Ended::NoMemory,
    }
}
