// Volumes in memory, and what is done with their journal.
ghost use Rattle.std.specs.Prelude.{◌≡◌, ◌*◌, ◌≢◌, [], IfOk, IsTrue, length};
ghost use Rattle.ts_disk.specs.Device.{Only};
ghost use Rattle.ts_journal.specs.Journal.{AreAllowed};

use std::alloc::{AllocError, Global};
use ts_disk::{MemorySite, Pick, Volume};
use ts_journal::{Batch, Change};
use ts_page::Page;
use ts_recover::{RecoverFault, recover, settle};

/// The smallest volume: one element page, number 930.
pub(crate) const SMALLEST: usize = 931 * 4096;

/// Where that page begins.
pub(crate) const ELEMENT_PAGE: usize = 930 * 4096;

/// What is done with the smallest volume, each time after it was opened.
#[derive(Clone, Copy, Debug)]
pub(crate) enum Step {
    /// Commits an image of page 930, which begins with a byte 2 and ends with a byte 5.
    Image,
    /// Commits that page 930 is freed.
    Free,
    Settle,
}

pub(crate) fn blank(alloc: Global, size: usize) -> Result<Vec<u8>, AllocError>
    ensures { IfOk result (λ v. length v.items ≡ size) }
{
    let mut bytes = Vec::new(alloc);
    bytes.resize(size, 0)?;
    Ok(bytes)
}

// A batch with this change of page 930 alone.
fn change_of_930(alloc: Global, change: Change) -> Result<Batch, AllocError>
    ensures changes { IfOk result (λ b. b.entries ≢ []) }
    ensures allowed { IfOk result (λ b. AreAllowed 931 b.entries) }
{
    let mut batch = Batch::new(alloc);
    batch.set(930, change)?;
    Ok(batch)
}

/// An image that begins and ends with these bytes.
pub(crate) fn image(first: u8, last: u8) -> Change {
    let mut page = Page::zero();
    page.bytes[0] = first;
    page.bytes[4095] = last;
    Change::Image(page)
}

/// Opens a volume and commits a batch there, if it has so many pages.
pub(crate) fn commit_there<V: Volume>(
    alloc: Global,
    vol: &mut V,
    pages: u32,
    batch: &Batch,
) -> Result<bool, RecoverFault>
    requires settled { Only (V.device vol.old).held (V.device vol.old).images }
    requires changes { batch.now.entries ≢ [] }
    requires allowed { AreAllowed pages batch.now.entries }
    ensures { IfOk result (λ done. IsTrue done → Only (V.device vol.new).held (V.device vol.new).images) }
{
    let mut replayed = recover(alloc, vol)?;
    if replayed.pages != pages {
        return Ok(false);
    }
    Ok(replayed.journal.commit(vol, batch).is_ok())
}

/// How many bytes the entries have that an opening reads, and the room behind their record.
pub(crate) fn read_there<V: Volume>(alloc: Global, vol: &mut V) -> Result<(u64, u32), RecoverFault>
    requires { Only (V.device vol.old).held (V.device vol.old).images }
    ensures { Only (V.device vol.new).held (V.device vol.new).images }
{
    let replayed = recover(alloc, vol)?;
    Ok((replayed.overlay.bytes(), replayed.journal.room()))
}

/// Opens a volume and settles it. Answers the room then.
pub(crate) fn settle_there<V: Volume>(alloc: Global, vol: &mut V) -> Result<u32, RecoverFault>
    requires settled { Only (V.device vol.old).held (V.device vol.old).images }
    ensures { IfOk result (λ _. Only (V.device vol.new).held (V.device vol.new).images) }
{
    let mut replayed = recover(alloc, vol)?;
    settle(&mut replayed, vol)?;
    Ok(replayed.journal.room())
}

// Does it, and answers whether it could.
fn is_done<V: Volume>(alloc: Global, vol: &mut V, step: Step) -> Result<bool, RecoverFault>
    requires settled { Only (V.device vol.old).held (V.device vol.old).images }
    ensures { IfOk result (λ done. IsTrue done → Only (V.device vol.new).held (V.device vol.new).images) }
{
    let change = match step {
        Step::Image => image(2, 5),
        Step::Free => Change::Free,
        Step::Settle => return Ok(settle_there(alloc, vol)? == 1_048_576),
    };
    let batch = change_of_930(alloc, change)?;
    commit_there(alloc, vol, 931, &batch)
}

/// The smallest volume after these steps, if each could be done.
pub(crate) fn after(alloc: Global, steps: &[Step]) -> Result<Option<MemorySite>, RecoverFault> {
    let mut site = MemorySite::new(blank(alloc, SMALLEST)?)?;
    for step in steps {
        if !is_done(alloc, &mut site, *step)? {
            return Ok(None);
        }
    }
    Ok(Some(site))
}

/// What the site holds, if it was called.
pub(crate) fn held(site: &MemorySite) -> Result<Option<Vec<u8>>, AllocError> {
    let calls = site.calls();
    if calls == 0 {
        return Ok(None);
    }
    Ok(Some(site.image(calls - 1, Pick::New)?))
}
