// Pages that were read, one behind the other.
ghost use Rattle.std.specs.Prelude.{◌≡◌, ◌<◌, ◌≤◌, ◌∷◌, ◌++◌, [], IfOk, IsTrue, length};
ghost use Rattle.ts_page.specs.declared.page.Page.{Page as ThePage};
ghost use Rattle.ts_page.specs.Pages.{IsOutsideJournal};
ghost use Rattle.ts_irregular.specs.Call.{Reads};
ghost use Rattle.ts_combined_rows.specs.declared.page_list.TheConstants.{MOST_PAGES};

use std::alloc::Global;
use std::marker::Model;
use ts_base::StoreFault;
use ts_page::{Page, Pages};

/// The most pages that a list holds: 8 MiB of them.
pub(crate) const MOST_PAGES: usize = 2048;

/// Pages in memory. What was taken for them is kept when they are forgotten, and the next ones are read into it.
#[derive(Drop)]
pub(crate) struct PageList {
    room: Vec<Page>,
    /// How many of these are pages that were read.
    used: usize,
    ghost within: { used ≤ length room.items },
    ghost few: { length room.items ≤ MOST_PAGES },
}

impl Model for PageList {
    ghost use Rattle.std.specs.Prelude.{List, take};
    ghost use Rattle.ts_page.specs.declared.page.Page.{Page};

    ghost Value = { List Page };

    ghost view = { λ l. take l.used l.room.items };
}

impl PageList {
    /// No pages.
    pub(crate) fn new(alloc: Global) -> PageList
        ensures { result ≡ [] }
    {
        PageList {
            room: Vec::new(alloc),
            used: 0,
        }
    }

    /// Forgets them.
    pub(crate) fn clear(&mut self)
        ensures { self.new ≡ [] }
    {
        self.used = 0;
    }

    /// How many they are.
    pub(crate) fn len(&self) -> usize
        ensures value { result ≡ length self.now }
        ensures few { result ≤ MOST_PAGES }
    {
        self.used
    }

    /// The pages, in the order in which they were read.
    pub(crate) fn as_slice(&self) -> &[Page]
        ensures { result.now ≡ self.now }
    {
        &self.room[..self.used]
    }

    /// Reads a page behind them. All pages stay. After an error nothing is said of the list.
    pub(crate) fn read<P: Pages>(&mut self, pages: &mut P, number: u32) -> Result<(), StoreFault>
        requires number { number < (P.contents pages.old).count }
        requires room { length self.old < MOST_PAGES }
        ensures read { IfOk result (λ _. (page : ThePage) × (self.new ≡ self.old ++ page ∷ [])
            × (IsTrue P.tells → IsOutsideJournal number → page.bytes ≡ (P.contents pages.old).page number)) }
        ensures call { Reads P.tells result (P.contents pages.old) (P.contents pages.new) }
        ensures undisturbed { P.undisturbed pages.old pages.new }
    {
        if self.used == self.room.len() {
            self.room.push(Page::zero())?;
        }
        pages.get(number, &mut self.room[self.used])?;
        self.used += 1;
        Ok(())
    }
}
