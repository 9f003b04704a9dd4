// What keeps the text of a source from being taken.
ghost use Rattle.std.specs.Prelude.{◌≡◌};
ghost use Rattle.ts_session_source.specs.Fault.{status_of_text};

use std::alloc::AllocError;

/// A pull failed, the source has more bytes than a text may have, or there was no memory for them.
#[derive(Debug, Drop)]
pub(crate) enum TextFault {
    Pull,
    TooLong,
    Memory(AllocError),
}

impl From<AllocError> for TextFault {
    ghost use Rattle.ts_session_source.specs.declared.fault.TextFault.TheVariants.{Memory};

    ghost from_gives = { λ error fault. fault ≡ Memory error };

    fn from(error: AllocError) -> TextFault {
        TextFault::Memory(error)
    }
}

/// Its status.
pub(crate) fn status(fault: &TextFault) -> u8
    ensures { result ≡ status_of_text fault.now }
{
    match fault {
        TextFault::Pull => 3,
        TextFault::TooLong => 8,
        TextFault::Memory(_) => 7,
    }
}
