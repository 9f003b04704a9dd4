// The mark of the element at a stamp is set.
ghost use Rattle.std.specs.Prelude.{◌+◌, ◌<◌, ◌≤◌, IfOk, OnErr, [], ◌∷◌};
ghost use Rattle.ts_page.specs.Pages.{Answered};
ghost use Rattle.ts_irregular.specs.OnePage.{IsPlace};
ghost use Rattle.ts_irregular.specs.Call.{IsMarked, AreLeft};

use crate::cell::mark_at;
use crate::index::index_on;
use ts_base::{Stamp, StoreFault};
use ts_page::{HEAD, Page, Pages};
use ts_row::Shelf;
use ts_space::Place;

/// Hides the element at a stamp, or reveals it, and tells whether one is there; where none stands there all pages are
/// as before. Its values and all places stay; setting a mark twice is no error. The page isn't judged again: its head
/// is compared with its place, and the stamp is searched once; one that disagrees is taken as a page without elements.
/// After an error all pages are as before too. `page` is room to read one.
pub fn mark_on<P: Pages>(
    pages: &mut P,
    page: &mut Page,
    shelf: &Shelf,
    place: &Place,
    stamp: Stamp,
    hidden: bool,
) -> Result<bool, StoreFault>
    requires place { IsPlace shelf.now.kind.now.columns (P.contents pages.old) place.now }
    ensures ok { IfOk result (IsMarked P.tells shelf.now.series shelf.now.kind.now.columns stamp hidden
        (place.now ∷ []) (P.contents pages.old) (P.contents pages.new)) }
    ensures err { OnErr result (AreLeft P.tells (P.contents pages.old) (P.contents pages.new)) }
    ensures call { Answered result (P.contents pages.old) (P.contents pages.new) }
    ensures change { (P.contents pages.new).change_bytes ≤ (P.contents pages.old).change_bytes + 4101 }
    ensures undisturbed { P.undisturbed pages.old pages.new }
{
    let Some(index) = index_on(pages, page, shelf, place, stamp)? else {
        return Ok(false);
    };
    mark_at(shelf.kind, &mut page.bytes[HEAD..], index, hidden);
    pages.put(place.page, page)?;
    Ok(true)
}
