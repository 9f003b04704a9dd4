// The halves of a full page are put on pages, each alone or with the elements of the neighbour that it goes together
// with.
ghost use Rattle.std.specs.Prelude.{◌≡◌, ◌+◌, ◌≤◌, IfOk, None, Some};
ghost use Rattle.ts_page.specs.Pages.{Answered};
ghost use Rattle.ts_chain.specs.Halves.{CanSpread, IsSpread};

use crate::halves::Halves;
use crate::join::{join_before, join_behind, put_two};
use ts_base::StoreFault;
use ts_cells::page_room;
use ts_page::{Page, Pages};
use ts_row::Shelf;
use ts_space::Place;

/// Puts both halves, of which `page` has the first and `others` the second, and gives the places of the two pages.
/// Where both go together with a neighbour the page is freed; where none does a page is taken.
pub(crate) fn spread<P: Pages>(
    pages: &mut P,
    page: &mut Page,
    others: &mut Page,
    shelf: &Shelf,
    halves: &Halves,
) -> Result<(Place, Place), StoreFault>
    requires fits { CanSpread shelf.now.kind.now.columns (P.contents pages.old) halves.now }
    ensures spread { IfOk result
        (λ come.
        IsSpread P.tells shelf.now.series shelf.now.kind.now.columns halves.now page.old.bytes others.old.bytes come
        (P.contents pages.old) (P.contents pages.new)) }
    ensures call { Answered result (P.contents pages.old) (P.contents pages.new) }
    ensures change { (P.contents pages.new).change_bytes ≤ (P.contents pages.old).change_bytes + 8207 }
    ensures undisturbed { P.undisturbed pages.old pages.new }
{
    match (halves.before, halves.behind) {
        (Some(before), Some(behind)) => {
            spread_both(pages, page, others, shelf, halves, (before, behind))
        }
        (Some(before), None) => spread_before(pages, page, others, shelf, halves, before),
        (None, Some(behind)) => spread_behind(pages, page, others, shelf, halves, behind),
        (None, None) => spread_apart(pages, page, others, shelf, halves),
    }
}

// Puts both halves on pages of their own, of which one is taken.
fn spread_apart<P: Pages>(
    pages: &mut P,
    page: &Page,
    others: &Page,
    shelf: &Shelf,
    halves: &Halves,
) -> Result<(Place, Place), StoreFault>
    requires fits { CanSpread shelf.now.kind.now.columns (P.contents pages.old) halves.now }
    requires before { halves.now.before ≡ None }
    requires behind { halves.now.behind ≡ None }
    ensures spread { IfOk result
        (λ come.
        IsSpread P.tells shelf.now.series shelf.now.kind.now.columns halves.now page.now.bytes others.now.bytes come
        (P.contents pages.old) (P.contents pages.new)) }
    ensures call { Answered result (P.contents pages.old) (P.contents pages.new) }
    ensures change { (P.contents pages.new).change_bytes ≤ (P.contents pages.old).change_bytes + 8207 }
    ensures undisturbed { P.undisturbed pages.old pages.new }
{
    // No page has room for more than 451.
    let _room = page_room(shelf.kind);
    let number = pages.take();
    put_two(pages, halves.first.page, page, number, others)?;
    Ok((
        halves.first,
        Place {
            at: halves.second.at,
            page: number,
            count: halves.second.count,
        },
    ))
}

// Puts the first half behind the elements of the page before; the second one stays on the page.
fn spread_before<P: Pages>(
    pages: &mut P,
    page: &mut Page,
    others: &Page,
    shelf: &Shelf,
    halves: &Halves,
    before: Place,
) -> Result<(Place, Place), StoreFault>
    requires fits { CanSpread shelf.now.kind.now.columns (P.contents pages.old) halves.now }
    requires before { halves.now.before ≡ Some before }
    requires behind { halves.now.behind ≡ None }
    ensures spread { IfOk result
        (λ come.
        IsSpread P.tells shelf.now.series shelf.now.kind.now.columns halves.now page.old.bytes others.now.bytes come
        (P.contents pages.old) (P.contents pages.new)) }
    ensures call { Answered result (P.contents pages.old) (P.contents pages.new) }
    ensures change { (P.contents pages.new).change_bytes ≤ (P.contents pages.old).change_bytes + 8207 }
    ensures undisturbed { P.undisturbed pages.old pages.new }
{
    // No page has room for more than 451.
    let _room = page_room(shelf.kind);
    let own = halves.first.page;
    let count = join_before(pages, page, shelf, &before, halves.first.count as usize)?;
    put_two(pages, before.page, page, own, others)?;
    Ok((
        Place {
            at: before.at,
            page: before.page,
            count: count as u16,
        },
        Place {
            at: halves.second.at,
            page: own,
            count: halves.second.count,
        },
    ))
}

// Puts the second half in front of the elements of the page behind; the first one stays on the page.
fn spread_behind<P: Pages>(
    pages: &mut P,
    page: &Page,
    others: &mut Page,
    shelf: &Shelf,
    halves: &Halves,
    behind: Place,
) -> Result<(Place, Place), StoreFault>
    requires fits { CanSpread shelf.now.kind.now.columns (P.contents pages.old) halves.now }
    requires before { halves.now.before ≡ None }
    requires behind { halves.now.behind ≡ Some behind }
    ensures spread { IfOk result
        (λ come.
        IsSpread P.tells shelf.now.series shelf.now.kind.now.columns halves.now page.now.bytes others.old.bytes come
        (P.contents pages.old) (P.contents pages.new)) }
    ensures call { Answered result (P.contents pages.old) (P.contents pages.new) }
    ensures change { (P.contents pages.new).change_bytes ≤ (P.contents pages.old).change_bytes + 8207 }
    ensures undisturbed { P.undisturbed pages.old pages.new }
{
    // No page has room for more than 451.
    let _room = page_room(shelf.kind);
    let count = join_behind(pages, others, shelf, &behind, halves.second.count as usize)?;
    put_two(pages, halves.first.page, page, behind.page, others)?;
    Ok((
        halves.first,
        Place {
            at: halves.second.at,
            page: behind.page,
            count: count as u16,
        },
    ))
}

// Puts both with their neighbours, and frees the page.
fn spread_both<P: Pages>(
    pages: &mut P,
    page: &mut Page,
    others: &mut Page,
    shelf: &Shelf,
    halves: &Halves,
    near: (Place, Place),
) -> Result<(Place, Place), StoreFault>
    requires fits { CanSpread shelf.now.kind.now.columns (P.contents pages.old) halves.now }
    requires before { halves.now.before ≡ Some near.0 }
    requires behind { halves.now.behind ≡ Some near.1 }
    ensures spread { IfOk result
        (λ come.
        IsSpread P.tells shelf.now.series shelf.now.kind.now.columns halves.now page.old.bytes others.old.bytes come
        (P.contents pages.old) (P.contents pages.new)) }
    ensures call { Answered result (P.contents pages.old) (P.contents pages.new) }
    ensures change { (P.contents pages.new).change_bytes ≤ (P.contents pages.old).change_bytes + 8207 }
    ensures undisturbed { P.undisturbed pages.old pages.new }
{
    // No page has room for more than 451.
    let _room = page_room(shelf.kind);
    let (before, behind) = near;
    let one = join_before(pages, page, shelf, &before, halves.first.count as usize)?;
    let two = join_behind(pages, others, shelf, &behind, halves.second.count as usize)?;
    put_two(pages, before.page, page, behind.page, others)?;
    pages.free(halves.first.page)?;
    Ok((
        Place {
            at: before.at,
            page: before.page,
            count: one as u16,
        },
        Place {
            at: halves.second.at,
            page: behind.page,
            count: two as u16,
        },
    ))
}
