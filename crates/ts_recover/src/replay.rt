// What an opening reads of the journal, and the settling.
ghost use Rattle.std.specs.Prelude.{◌≡◌, ◌*◌, [], IsTrue, IsErr, IsErrOf, IfOk, OnOk, OnErr};
ghost use Rattle.ts_page.specs.Pages.{page_size};
ghost use Rattle.ts_journal.specs.Journal.{AreAllowed, IsVolumeSize, page_count, StandsAt, StandsOver, StaysUnread};
ghost use Rattle.ts_journal.specs.Journal.{ReadsButFreed, pages};
ghost use Rattle.ts_journal.specs.Moment.{IsJournalOf, MakesLast, OnlyReads, SamePages};
ghost use Rattle.ts_recover.specs.Overlay.{IsEmptied, RecoverCause, PageOneCause};
ghost use Rattle.ts_recover.specs.declared.replay.RecoverFault.TheVariants.{Failed as RecoverFailed};
ghost use Rattle.ts_recover.specs.declared.replay.RecoverFault.TheVariants.{Memory as RecoverMemory};

use crate::read::read_journal;
use std::alloc::{AllocError, Global};
use ts_disk::{Failed, Volume};
use ts_journal::{Batch, Journal};
use ts_page::PAGE;

/// The pages that a volume has before its element pages, and the limits of all its pages.
const LEAST_PAGES: u64 = 931;

const MOST_PAGES: u64 = 66466;

/// What the journal says of a volume.
#[derive(Drop)]
pub struct Replayed {
    /// What its records put over the pages.
    pub overlay: Batch,
    pub journal: Journal,
    /// The number of all pages.
    pub pages: u32,
}

/// Why a journal wasn't read.
#[derive(Clone, Copy, Debug, PartialEq, Eq)]
pub enum RecoverFault {
    /// The disk failed.
    Failed,
    /// The volume is none, with its first bad page: 0 for its length, 1 for its journal.
    NotAStore { page: u32 },
    Memory(AllocError),
}

impl From<Failed> for RecoverFault {
    ghost from_gives = { λ _ e. e ≡ RecoverFailed };

    fn from(_: Failed) -> Self {
        RecoverFault::Failed
    }
}

impl From<AllocError> for RecoverFault {
    ghost from_gives = { λ a e. e ≡ RecoverMemory a };

    fn from(error: AllocError) -> Self {
        RecoverFault::Memory(error)
    }
}

/// Reads the journal of a volume.
pub fn recover<V: Volume>(alloc: Global, vol: &mut V) -> Result<Replayed, RecoverFault>
    ensures size { IfOk result (λ r. IsVolumeSize (V.device vol.old).size) }
    ensures count { IfOk result (λ r. (V.device vol.old).size ≡ page_size * r.pages) }
    ensures ok { IfOk result (λ r. IsTrue V.tells → StandsOver r.journal r.overlay.entries (V.device vol.old).held) }
    // What stands behind the journal's end, as an open gate of an older record, isn't read.
    ensures unread { IfOk result (λ r. IsTrue V.tells → StaysUnread r.journal (V.device vol.old).held) }
    ensures allowed { IfOk result (λ r. AreAllowed (page_count (V.device vol.old).size) r.overlay.entries) }
    ensures cause { RecoverCause V.tells result (V.device vol.old) (V.device vol.new) }
    ensures malformed { IsTrue V.tells → PageOneCause result (V.device vol.old).held }
    ensures no_fault { ¬ IsErrOf result RecoverFault.Failed → (V.device vol.new).faults ≡ (V.device vol.old).faults }
    ensures others { OnlyReads V.tells (V.device vol.old) (V.device vol.new) }
{
    let bytes = vol.len();
    let count = bytes / PAGE;
    if bytes % PAGE != 0 || count < LEAST_PAGES || count > MOST_PAGES {
        return Err(RecoverFault::NotAStore { page: 0 });
    }
    let pages = count as u32;
    let mut overlay = Batch::new(alloc);
    let Some(length) = read_journal(vol, pages, &mut overlay)? else {
        return Err(RecoverFault::NotAStore { page: 1 });
    };
    Ok(Replayed {
        overlay,
        journal: Journal::at(length),
        pages,
    })
}

/// Brings the pages of the journal's records to their places, and empties the journal.
pub fn settle<V: Volume>(replayed: &mut Replayed, vol: &mut V) -> Result<(), Failed>
    requires over { IsJournalOf V.tells replayed.old.journal replayed.old.overlay.entries (V.device vol.old) }

    ensures lasts { MakesLast V.tells
        (ReadsButFreed (V.device vol.old).size replayed.old.overlay.entries (pages (V.device vol.old).held))
        (SamePages (V.device vol.old) replayed.old.overlay.entries)
        (IsErr result) result (V.device vol.old) (V.device vol.new) }
    ensures stands { OnOk result (IsTrue V.tells → StandsAt 0 [] (V.device vol.new).held) }
    ensures emptied { OnOk result (IsEmptied replayed.old.overlay replayed.new.overlay replayed.new.journal) }
    ensures err { OnErr result (replayed.new ≡ replayed.old) }
    ensures pages { replayed.new.pages ≡ replayed.old.pages }
    ensures untouched { replayed.old.journal ≡ 0 → vol.new ≡ vol.old }
{
    replayed.journal.checkpoint(vol, &replayed.overlay)?;
    replayed.overlay.clear();
    Ok(())
}
