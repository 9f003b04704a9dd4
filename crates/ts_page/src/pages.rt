// A keeper of pages, whatever it keeps them on.
ghost use Rattle.std.specs.Prelude.{◌≡◌, ◌<◌, Bool, Contains, length};
ghost use Rattle.ts_page.specs.Pages.{Contents, IsLawful, IsOutsideJournal, IsElementPage, Got, Put, Freed, Taken};

use crate::page::Page;
use ts_base::StoreFault;

/// Pages by their numbers, from 0 on. The element pages begin at 930; a free one is taken and filled by `put`.
pub trait Pages {
    /// Whether it tells its pages.
    ghost tells: { Bool };

    ghost contents: { Self → Contents };

    /// What every call leaves as it was. For a keeper over a volume: all that is on the disk and that a stop may leave.
    ghost undisturbed: { Self → Self → Type 0 };

    /// Reads a page into the buffer, which after an error has any bytes.
    fn get(&mut self, no: u32, into: &mut Page) -> Result<(), StoreFault>
        requires { no < (contents self.old).count }
        ensures got { Got tells no into.new.bytes result (contents self.old) (contents self.new) }
        ensures undisturbed { undisturbed self.old self.new };

    /// Puts other bytes in place of a page.
    fn put(&mut self, no: u32, page: &Page) -> Result<(), StoreFault>
        requires within { no < (contents self.old).count }
        requires outside { IsOutsideJournal no }
        requires used { ¬ Contains (contents self.old).free no }
        ensures put { Put tells no page.now.bytes result (contents self.old) (contents self.new) }
        ensures undisturbed { undisturbed self.old self.new };

    /// Frees an element page, which `take` can then give.
    fn free(&mut self, no: u32) -> Result<(), StoreFault>
        requires within { no < (contents self.old).count }
        requires element { IsElementPage no }
        requires used { ¬ Contains (contents self.old).free no }
        ensures freed { Freed tells no result (contents self.old) (contents self.new) }
        ensures undisturbed { undisturbed self.old self.new };

    /// How many pages `take` can give.
    fn spare(&self) -> u32
        ensures { result ≡ length (contents self.now).free };

    /// A free element page, which is then no longer one that `take` can give.
    fn take(&mut self) -> u32
        requires { 0 < length (contents self.old).free }
        ensures taken { Taken tells result (contents self.old) (contents self.new) }
        ensures undisturbed { undisturbed self.old self.new };

    ghost lawful: { (pages : Self) → IsLawful tells (contents pages) };

    ghost stays: { (pages : Self) → undisturbed pages pages };

    ghost then: { (a b c : Self) → undisturbed a b → undisturbed b c → undisturbed a c };
}
