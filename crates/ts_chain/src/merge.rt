// Two pages side by side become one.
ghost use Rattle.std.specs.Prelude.{◌≡◌, ◌+◌, ◌<◌, ◌≤◌, Contains, IsTrue, IfOk, OnOk, List, ◌∷◌, ◌++◌, length, drop};
ghost use Rattle.ts_page.specs.Pages.{zero_page, Answered, EqualPages, IsElementPage, with_page};
ghost use Rattle.ts_row.specs.Row.{Element};
ghost use Rattle.ts_cells.specs.IrregularPage.{page_room, AreElements, behind_head};
ghost use Rattle.ts_irregular.specs.OnePage.{IsPlace, IsOn};
ghost use Rattle.ts_sheets.specs.Places.{IsCounted};
ghost use Rattle.ts_chain.specs.Window.{AreOnOne};

use crate::join::{join_before, join_behind};
use ts_base::StoreFault;
use ts_cells::page_room;
use ts_page::{Page, Pages};
use ts_row::Shelf;
use ts_space::Place;

/// Puts a page and frees another.
pub(crate) fn put_and_free<P: Pages>(
    pages: &mut P,
    number: u32,
    page: &Page,
    freed: u32,
) -> Result<(), StoreFault>
    requires element { IsElementPage number }
    requires freed_element { IsElementPage freed }
    requires below { number < (P.contents pages.old).count }
    requires freed_below { freed < (P.contents pages.old).count }
    requires used { ¬ Contains (P.contents pages.old).free number }
    requires freed_used { ¬ Contains (P.contents pages.old).free freed }
    ensures put { OnOk result (IsTrue P.tells →
        EqualPages (with_page freed zero_page (with_page number page.now.bytes (P.contents pages.old).page))
        (P.contents pages.new).page) }
    ensures free { OnOk result ((P.contents pages.new).free ≡ freed ∷ (P.contents pages.old).free) }
    ensures call { Answered result (P.contents pages.old) (P.contents pages.new) }
    ensures change { (P.contents pages.new).change_bytes ≤ (P.contents pages.old).change_bytes + 4106 }
    ensures undisturbed { P.undisturbed pages.old pages.new }
{
    pages.put(number, page)?;
    pages.free(freed)
}

/// The elements of a page, of which so many are left, go behind those of the page before, and the page is freed.
pub(crate) fn merge_before<P: Pages>(
    pages: &mut P,
    page: &mut Page,
    shelf: &Shelf,
    before: &Place,
    place: &Place,
    count: usize,
) -> Result<Place, StoreFault>
    requires before { IsPlace shelf.now.kind.now.columns (P.contents pages.old) before.now }
    requires place { IsPlace shelf.now.kind.now.columns (P.contents pages.old) place.now }
    requires some { 1 ≤ count }
    requires room { before.now.count + count ≤ page_room shelf.now.kind.now.columns }
    ensures at { IfOk result (λ one. one.at ≡ before.now.at) }
    ensures page { IfOk result (λ one. one.page ≡ before.now.page) }
    ensures counted { IfOk result (λ one. IsCounted shelf.now.kind.now.columns one) }
    ensures few { IfOk result (λ one. one.count ≤ before.now.count + count) }
    ensures free { OnOk result ((P.contents pages.new).free ≡ place.now.page ∷ (P.contents pages.old).free) }
    ensures joined { IfOk result (λ one. IsTrue P.tells → (es fs : List Element)
        → IsOn shelf.now.series shelf.now.kind.now.columns ((P.contents pages.old).page before.now.page) before.now es
        → AreElements shelf.now.kind.now.columns fs → length fs ≡ count → drop 32 page.old.bytes
        ≡ behind_head shelf.now.kind.now.columns fs
        → AreOnOne shelf.now.series shelf.now.kind.now.columns (es ++ fs) one place.now.page (P.contents pages.old)
        (P.contents pages.new)) }
    ensures call { Answered result (P.contents pages.old) (P.contents pages.new) }
    ensures change { (P.contents pages.new).change_bytes ≤ (P.contents pages.old).change_bytes + 4106 }
    ensures undisturbed { P.undisturbed pages.old pages.new }
{
    // No page has room for more than 451.
    let _room = page_room(shelf.kind);
    let all = join_before(pages, page, shelf, before, count)?;
    put_and_free(pages, before.page, page, place.page)?;
    Ok(Place {
        at: before.at,
        page: before.page,
        count: all as u16,
    })
}

/// The elements of the page behind go after those that are left of a page, now of that place, and the page behind is
/// freed.
pub(crate) fn merge_behind<P: Pages>(
    pages: &mut P,
    page: &mut Page,
    shelf: &Shelf,
    left: &Place,
    behind: &Place,
    count: usize,
) -> Result<Place, StoreFault>
    requires element { IsElementPage left.now.page }
    requires below { left.now.page < (P.contents pages.old).count }
    requires used { ¬ Contains (P.contents pages.old).free left.now.page }
    requires behind { IsPlace shelf.now.kind.now.columns (P.contents pages.old) behind.now }
    requires some { 1 ≤ count }
    requires room { count + behind.now.count ≤ page_room shelf.now.kind.now.columns }
    ensures at { IfOk result (λ one. one.at ≡ left.now.at) }
    ensures page { IfOk result (λ one. one.page ≡ left.now.page) }
    ensures counted { IfOk result (λ one. IsCounted shelf.now.kind.now.columns one) }
    ensures few { IfOk result (λ one. one.count ≤ count + behind.now.count) }
    ensures free { OnOk result ((P.contents pages.new).free ≡ behind.now.page ∷ (P.contents pages.old).free) }
    ensures joined { IfOk result (λ one. IsTrue P.tells → (fs es : List Element)
        → IsOn shelf.now.series shelf.now.kind.now.columns ((P.contents pages.old).page behind.now.page) behind.now es
        → AreElements shelf.now.kind.now.columns fs → length fs ≡ count → drop 32 page.old.bytes
        ≡ behind_head shelf.now.kind.now.columns fs
        → AreOnOne shelf.now.series shelf.now.kind.now.columns (fs ++ es) one behind.now.page (P.contents pages.old)
        (P.contents pages.new)) }
    ensures call { Answered result (P.contents pages.old) (P.contents pages.new) }
    ensures change { (P.contents pages.new).change_bytes ≤ (P.contents pages.old).change_bytes + 4106 }
    ensures undisturbed { P.undisturbed pages.old pages.new }
{
    // No page has room for more than 451.
    let _room = page_room(shelf.kind);
    let all = join_behind(pages, page, shelf, behind, count)?;
    put_and_free(pages, left.page, page, behind.page)?;
    Ok(Place {
        at: left.at,
        page: left.page,
        count: all as u16,
    })
}
