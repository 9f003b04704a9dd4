// The pages of some places are freed.
ghost use Rattle.std.specs.Prelude.{◌≡◌, ◌≢◌, ◌+◌, ◌*◌, ◌≤◌, All, AllPairs, IfOk, OnOk, length};
ghost use Rattle.ts_space.specs.Place.{pages_of};
ghost use Rattle.ts_page.specs.Pages.{Answered};
ghost use Rattle.ts_sheets.specs.Places.{CanBeFreed};
ghost use Rattle.ts_chain.specs.Call.{AreFreed};
ghost use Rattle.ts_chain.specs.Window.{AreFreedTo};

use std::alloc::{AllocError, Global};
use ts_base::StoreFault;
use ts_page::Pages;
use ts_space::Place;

/// Frees the pages of some places, by rising numbers: a copy of the numbers is sorted first, 4 bytes each. After an
/// error some of them may be free.
pub fn free_pages<P: Pages>(
    alloc: Global,
    pages: &mut P,
    places: &[Place],
) -> Result<(), StoreFault>
    requires each { All (CanBeFreed (P.contents pages.old)) (pages_of places.now) }
    requires different { AllPairs (λ a b. a ≢ b) (pages_of places.now) }
    ensures freed { OnOk result (AreFreed P.tells places.now (P.contents pages.old) (P.contents pages.new)) }
    ensures call { Answered result (P.contents pages.old) (P.contents pages.new) }
    ensures change { (P.contents pages.new).change_bytes ≤ (P.contents pages.old).change_bytes + 5 * length places.now }
    ensures undisturbed { P.undisturbed pages.old pages.new }
{
    let mut numbers = numbers_of(alloc, places)?;
    numbers.sort_unstable();
    free_each(pages, &numbers)
}

// The numbers of their pages.
fn numbers_of(alloc: Global, places: &[Place]) -> Result<Vec<u32>, AllocError>
    ensures { IfOk result (λ numbers. numbers.items ≡ pages_of places.now) }
{
    places.iter().map(|place| place.page).collect(alloc)
}

// Frees the pages of these numbers.
fn free_each<P: Pages>(pages: &mut P, numbers: &[u32]) -> Result<(), StoreFault>
    requires each { All (CanBeFreed (P.contents pages.old)) numbers.now }
    requires different { AllPairs (λ a b. a ≢ b) numbers.now }
    ensures freed { OnOk result (AreFreedTo P.tells numbers.now (length numbers.now) (P.contents pages.old)
        (P.contents pages.new)) }
    ensures call { Answered result (P.contents pages.old) (P.contents pages.new) }
    ensures change { (P.contents pages.new).change_bytes ≤
        (P.contents pages.old).change_bytes + 5 * length numbers.now }
    ensures undisturbed { P.undisturbed pages.old pages.new }
{
    for number in numbers {
        pages.free(*number)?;
    }
    Ok(())
}
