// A view as a keeper of pages.
ghost use Rattle.std.specs.Prelude.{◌≡◌, ◌<◌, ◌^◌, reverse};
ghost use Rattle.std.specs.Option.{option_copied};
ghost use Rattle.std.proofs.Props.{props};
ghost use Rattle.ts_page.specs.Pages.{IsLawful};
ghost use Rattle.ts_journal.specs.Journal.{content};
ghost use Rattle.ts_views.specs.Pages.{change_shown, view_contents};

use ts_base::StoreFault;
use ts_journal::{Batch, Change};
use ts_page::{Page, Pages};

/// The pages of a view over the newest ones, for one command. The newest are only read, and what the view keeps stays:
/// what is put, freed and taken goes into `changes` and `free`.
#[derive(Drop)]
pub struct ViewPages<'a, P: Pages> {
    /// The newest pages.
    pub newest: &'a mut P,
    /// The view's old images.
    pub old: &'a Batch,
    /// What the transaction's earlier commands changed.
    pub own: &'a Batch,
    /// What this command changes.
    pub changes: &'a mut Batch,
    /// The free element pages; the next to be taken stands last.
    pub free: &'a mut Vec<u32>,
    ghost few: { (P.contents newest.now).count < 2 ^ 32 },
    ghost lawful: { IsLawful P.tells (view_contents old.now.entries own.now.entries changes.now.entries
        (reverse free.now.items) (P.contents newest.now)) } by { Prim.hlevel props },
}

impl<'a, P: Pages> Pages for ViewPages<'a, P> {
    ghost use Rattle.std.specs.Prelude.{◌≡◌, IsTrue, reverse};
    ghost use Rattle.std.proofs.Common.{refl, ◌∙◌};
    ghost use Rattle.ts_page.specs.Pages.{EqualPages};
    ghost use Rattle.ts_views.specs.Pages.{view_contents};

    ghost tells = { P.tells };

    ghost contents = { λ v. view_contents v.old.now.entries v.own.now.entries v.changes.now.entries (reverse v.free.now.items)
        (P.contents v.newest.now) };

    // The references stay, and all but `changes` and `free`. Of the newest pages stays besides what each page is.
    ghost undisturbed = { λ v w. (w.newest.ghost_name ≡ v.newest.ghost_name)
        × (w.changes.ghost_name ≡ v.changes.ghost_name) × (w.free.ghost_name ≡ v.free.ghost_name)
        × (w.old.now.entries ≡ v.old.now.entries) × (w.own.now.entries ≡ v.own.now.entries)
        × (IsTrue P.tells → EqualPages (P.contents v.newest.now).page (P.contents w.newest.now).page)
        × P.undisturbed v.newest.now w.newest.now };

    fn get(&mut self, no: u32, into: &mut Page) -> Result<(), StoreFault> {
        if let Some(change) = find(self.old, self.own, self.changes, no) {
            *into = image(change);
            return Ok(());
        }
        self.newest.get(no, into)
    }

    fn put(&mut self, no: u32, page: &Page) -> Result<(), StoreFault> {
        self.changes.set(no, Change::Image(*page))?;
        Ok(())
    }

    fn free(&mut self, no: u32) -> Result<(), StoreFault> {
        self.free.push(no)?;
        let outcome = self.changes.set(no, Change::Free);
        if let Err(error) = outcome {
            let _ = self.free.pop();
            return Err(StoreFault::Memory(error));
        }
        Ok(())
    }

    fn spare(&self) -> u32 {
        self.free.len() as u32
    }

    fn take(&mut self) -> u32 {
        match self.free.pop() {
            Some(no) => no,
            None => unreachable!(),
        }
    }

    ghost lawful = { λ v. v.lawful };

    ghost stays = { λ v. (refl, refl, refl, refl, refl, λ told number. refl, P.stays v.newest.now) };

    ghost then = { λ u v w p q. (
      q.0 ∙ p.0,
      q.1 ∙ p.1,
      q.2 ∙ p.2,
      q.3 ∙ p.3,
      q.4 ∙ p.4,
      λ told number.
          q.5 told number ∙ p.5 told number,
      P.then u.newest.now v.newest.now w.newest.now p.6 q.6,
    ) };
}

// The change that a view shows of a page, if there is one.
fn find<'b>(old: &'b Batch, own: &'b Batch, changes: &'b Batch, no: u32) -> Option<&'b Change>
    ensures { option_copied result ≡ change_shown no old.now.entries own.now.entries changes.now.entries }
{
    match changes.find(no) {
        Some(change) => Some(change),
        None => match own.find(no) {
            Some(change) => Some(change),
            None => old.find(no),
        },
    }
}

// The page after a change.
fn image(change: &Change) -> Page
    ensures { result.bytes ≡ content change.now }
{
    match change {
        Change::Image(page) => *page,
        Change::Free => Page::zero(),
    }
}
