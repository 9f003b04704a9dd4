// A full page is parted in two, each of which goes together with its neighbour where they fit one page.
ghost use Rattle.std.specs.Prelude.{◌≡◌, ◌+◌, ◌*◌, ◌<◌, ◌≤◌, IsTrue, IfOk, None, List, [], ◌∷◌, ◌++◌, length};
ghost use Rattle.std.specs.Prelude.{option_to_list};
ghost use Rattle.ts_space.specs.declared.place.Place.{Place as ThePlace};
ghost use Rattle.ts_space.specs.Place.{IsRising, count_of};
ghost use Rattle.ts_space.specs.Charge.{irregular_charge};
ghost use Rattle.ts_space.specs.Moved.{moved_to};
ghost use Rattle.ts_page.specs.Pages.{Answered};
ghost use Rattle.ts_row.specs.Row.{Row};
ghost use Rattle.ts_cells.specs.IrregularPage.{IsElement, page_room};
ghost use Rattle.ts_sheets.specs.Places.{ArePlaces, IsTarget};
ghost use Rattle.ts_chain.specs.Call.{IsPutNew};
ghost use Rattle.ts_chain.specs.Window.{ArePartedOf};
ghost use Rattle.ts_chain.specs.Halves.{IsAlone};

use crate::halves::{Halves, halves_of, stands_between};
use crate::spread::spread;
use ts_base::{Stamp, StoreFault};
use ts_page::{Page, Pages};
use ts_row::Shelf;
use ts_space::{Come, Moved, Place};

/// Where a row is put: the stamp, and the index of the place whose page it goes on.
#[derive(Clone, Copy)]
pub(crate) struct Target {
    pub stamp: Stamp,
    pub index: usize,
}

/// Keeps the halves of a full page, each on a page of its own or with the elements of its neighbour, and tells which
/// places go and come.
pub(crate) fn keep_halves<P: Pages>(
    pages: &mut P,
    page: &mut Page,
    others: &mut Page,
    shelf: &Shelf,
    places: &[Place],
    target: Target,
) -> Result<Moved, StoreFault>
    requires target { IsTarget target.stamp places.now target.index }
    requires rising { IsRising places.now }
    requires places { ArePlaces shelf.now.kind.now.columns (P.contents pages.old) places.now }
    requires full { (t : IsTarget target.stamp places.now target.index)
        → t.place.count ≡ page_room shelf.now.kind.now.columns }
    requires room { irregular_charge (page_room shelf.now.kind.now.columns) (count_of places.now + 1) ≤ length
        (P.contents pages.old).free + length places.now }
    ensures ok { (row : Row) → IsElement shelf.now.kind.now.columns (target.stamp, row)
        → ((t : IsTarget target.stamp places.now target.index) → ArePartedOf P.tells shelf.now.series shelf.now.kind.now.columns target.stamp row t.place page.old.bytes others.old.bytes (P.contents pages.old))
        → IfOk result (λ moved. IsPutNew P.tells shelf.now.series shelf.now.kind.now.columns target.stamp row places.now
        (moved_to moved places.now)
        (P.contents pages.old) (P.contents pages.new)) }
    ensures call { Answered result (P.contents pages.old) (P.contents pages.new) }
    ensures grows { IfOk result (λ moved. (P.contents pages.new).change_bytes + 5 * length (P.contents pages.old).free
        ≤ (P.contents pages.old).change_bytes + 5 * length (P.contents pages.new).free + 8207) }
    ensures change { (P.contents pages.new).change_bytes ≤ (P.contents pages.old).change_bytes + 8207 }
    ensures undisturbed { P.undisturbed pages.old pages.new }
{
    let index = target.index;
    let halves = halves_of(shelf, others, places, index, target.stamp);
    if !stands_between(places, index, &halves.first, &halves.second) {
        // That is never so where the pages are told.
        return Ok(unmoved(index));
    }
    if !has_page(pages, &halves) {
        // Nor is this: a chain never has more pages than its elements are charged for.
        return Ok(unmoved(index));
    }
    let come = spread(pages, page, others, shelf, &halves)?;
    Ok(moved(index, &halves, come))
}

// Whether both halves have a page: one can be taken where they go together with no neighbour.
fn has_page<P: Pages>(pages: &P, halves: &Halves) -> bool
    ensures yes { IsTrue result → IsAlone halves.now → 0 < length (P.contents pages.now).free }
    ensures alone { (IsTrue result → ⊥) → IsAlone halves.now }
    ensures none { (IsTrue result → ⊥) → (P.contents pages.now).free ≡ [] }
{
    halves.before.is_some() || halves.behind.is_some() || pages.spare() > 0
}

// No place goes or comes.
fn unmoved(index: usize) -> Moved
    ensures { (places : List ThePlace) → moved_to result places ≡ places }
{
    Moved {
        index,
        gone: 0,
        come: Come::Nothing,
    }
}

// The place of the page that was full goes, and those of the neighbours; two come.
fn moved(index: usize, halves: &Halves, come: (Place, Place)) -> Moved
    requires { length (option_to_list halves.now.before) ≤ index }
    ensures { (ahead gone after : List ThePlace) → length ahead + length (option_to_list halves.now.before) ≡ index
        → length gone ≡ length (option_to_list halves.now.before) + 1 + length (option_to_list halves.now.behind)
        → moved_to result (ahead ++ (gone ++ after)) ≡ ahead ++ come.0 ∷ come.1 ∷ after }
{
    let before = number(&halves.before);
    Moved {
        index: index - before,
        gone: before + 1 + number(&halves.behind),
        come: Come::Two(come.0, come.1),
    }
}

// How many places that is.
fn number(place: &Option<Place>) -> usize
    ensures value { result ≡ length (option_to_list place.now) }
    ensures most { result ≤ 1 }
{
    match place {
        Some(_) => 1,
        None => 0,
    }
}
