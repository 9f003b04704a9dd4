// Pages in memory.
ghost use Rattle.std.specs.Prelude.{◌<◌, ◌^◌, true, length, reverse};
ghost use Rattle.std.proofs.Props.{props};
ghost use Rattle.ts_page.specs.Pages.{kept, IsLawful};

use crate::page::Page;
use crate::pages::Pages;
use ts_base::StoreFault;

/// A list of pages.
#[derive(Drop)]
pub struct MemoryPages {
    pages: Vec<Page>,
    // The next to be taken stands last.
    free: Vec<u32>,
    ghost few: { length pages.items < 2 ^ 32 },
    ghost lawful: { IsLawful true (kept pages.items (reverse free.items)) } by { Prim.hlevel props },
}

impl MemoryPages {
    ghost use Rattle.std.specs.Prelude.{◌≡◌, All};
    ghost use Rattle.std.specs.List.Sorted.{IsStrictlyIncreasing};
    ghost use Rattle.ts_page.specs.Pages.{IsListed};
    ghost use Rattle.ts_page.specs.Memory.{memory_contents};

    /// Of these pages, with the free element pages in rising order. The lowest of them is taken first.
    pub fn new(pages: Vec<Page>, free: Vec<u32>) -> MemoryPages
        requires few { length pages.items < 2 ^ 32 }
        requires rising { IsStrictlyIncreasing free.items }
        requires listed { All (IsListed true (kept pages.items free.items)) free.items }
        ensures { memory_contents result ≡ kept pages.items free.items }
    {
        let mut free = free;
        free.reverse();
        MemoryPages { pages, free }
    }
}

impl Pages for MemoryPages {
    ghost use Rattle.std.specs.Prelude.{true};
    ghost use Rattle.ts_page.specs.Memory.{memory_contents};

    ghost tells = { true };

    ghost contents = { memory_contents };

    ghost undisturbed = { λ _ _. Unit {0} };

    fn get(&mut self, no: u32, into: &mut Page) -> Result<(), StoreFault> {
        *into = self.pages[no as usize];
        Ok(())
    }

    fn put(&mut self, no: u32, page: &Page) -> Result<(), StoreFault> {
        self.pages[no as usize] = *page;
        Ok(())
    }

    fn free(&mut self, no: u32) -> Result<(), StoreFault> {
        self.free.push(no)?;
        self.pages[no as usize] = Page::zero();
        Ok(())
    }

    fn spare(&self) -> u32 {
        self.free.len() as u32
    }

    fn take(&mut self) -> u32 {
        match self.free.pop() {
            Some(no) => no,
            None => unreachable!(),
        }
    }

    ghost lawful = { λ pages. pages.lawful };

    ghost stays = { λ _. tt };

    ghost then = { λ _ _ _ _ _. tt };
}
