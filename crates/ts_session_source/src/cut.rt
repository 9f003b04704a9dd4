// A text, cut into the scripts of sessions, with the picks that decide their order.
ghost use Rattle.std.specs.Prelude.{◌≡◌, ◌≤◌, ◌<◌, IfOk, IfSome, MatchOption, length};
ghost use Rattle.ts_multi.specs.Sections.{sections};
ghost use Rattle.ts_multi.specs.Picks.{picks_of};

use std::alloc::{AllocError, Global};
use ts_base::Bytes;
use ts_multi::{picks_of, split_sessions};

/// The sections of a text, and as many picks as it has bytes.
#[derive(Drop)]
pub(crate) struct Cut {
    pub(crate) sections: Vec<Bytes>,
    pub(crate) picks: Vec<u32>,
}

/// Cuts a text; None where it has more than 16 sections.
pub(crate) fn cut_text(alloc: Global, text: &[u8], seed: u32) -> Result<Option<Cut>, AllocError>
    ensures few { IfOk result (λ found. MatchOption found (16 < length (sections text.now))
        (λ cut. length (sections text.now) ≤ 16)) }
    ensures cut { IfOk result (λ found. IfSome found (λ cut. (cut.sections.items ≡ sections text.now)
        × (cut.picks.items ≡ picks_of seed (length text.now)))) }
{
    match split_sessions(alloc, text)? {
        None => Ok(None),
        Some(sections) => Ok(Some(Cut {
            sections,
            picks: picks_of(alloc, seed, text.len())?,
        })),
    }
}
