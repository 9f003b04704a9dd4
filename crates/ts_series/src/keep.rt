// What is left of the ends of a range goes to the pages that stay, and the others are freed.
ghost use Rattle.std.specs.Prelude.{◌≡◌, ◌+◌, ◌*◌, ◌^◌, ◌<◌, ◌≤◌, false, IsTrue, IfOk, OnOk, List, ◌++◌, length};
ghost use Rattle.ts_space.specs.Place.{IsRising, count_of};
ghost use Rattle.ts_space.specs.Moved.{list_of};
ghost use Rattle.ts_page.specs.Pages.{Answered};
ghost use Rattle.ts_row.specs.Row.{Element};
ghost use Rattle.ts_cells.specs.IrregularPage.{page_room, AreInOrder, AreElements};
ghost use Rattle.ts_irregular.specs.Call.{Reads};
ghost use Rattle.ts_sheets.specs.Stamped.{all_in};
ghost use Rattle.ts_sheets.specs.Places.{AreChained, ArePlaces};
ghost use Rattle.ts_series.specs.Ends.{HasElements, AreParts, AreKept, pieces, HasShape, CanBegin};

use crate::ends::Left;
use crate::joins::Joins;
use crate::lay::lay;
use std::alloc::Global;
use ts_base::StoreFault;
use ts_chain::{join_before, join_behind};
use ts_page::{Page, Pages};
use ts_row::Shelf;
use ts_space::{Moved, Place};

/// Joins what is left of the pages from one index to another with the pages beside them, as it was told, puts it on
/// pages of them, and frees the others.
pub(crate) fn keep<P: Pages>(
    alloc: Global,
    pages: &mut P,
    page: &mut Page,
    behind: &mut Page,
    shelf: &Shelf,
    places: &[Place],
    first: usize,
    stop: usize,
    left: Left,
    joins: Joins,
) -> Result<Moved, StoreFault>
    requires parts { AreParts places.now first stop joins }
    requires rising { IsRising places.now }
    requires places { ArePlaces shelf.now.kind.now.columns (P.contents pages.old) places.now }
    requires one { (joins.before ≤ 1) × (joins.behind ≤ 1) }
    requires room { (p : AreParts places.now first stop joins)
        → (count_of p.before + left.front ≤ page_room shelf.now.kind.now.columns)
        × (left.back + count_of p.behind ≤ page_room shelf.now.kind.now.columns) }
    requires apart { IsTrue joins.apart → (p : AreParts places.now first stop joins) → (2 ≤ length p.mid)
        × (1 ≤ left.front) × (1 ≤ left.back) }
    requires together { joins.apart ≡ false → (p : AreParts places.now first stop joins)
        → count_of p.before + left.front + (left.back + count_of p.behind) ≤ page_room shelf.now.kind.now.columns }
    ensures index { IfOk result (λ moved. (p : AreParts places.now first stop joins)
        → (moved.index ≡ length p.front) × (moved.gone ≡ length (p.before ++ (p.mid ++ p.behind)))) }
    ensures kept { IfOk result (λ moved. (p : AreParts places.now first stop joins)
        → AreKept P.tells shelf.now.kind.now.columns
        (p.before ++ (p.mid ++ p.behind)) (list_of moved.come) p.back (P.contents pages.old) (P.contents pages.new)) }
    ensures shape { IfOk result (λ moved. HasShape joins.apart moved.come) }
    ensures count { IfOk result (λ moved. (p : AreParts places.now first stop joins)
        → count_of (list_of moved.come) ≤ count_of p.before + left.front + (left.back + count_of p.behind)) }
    ensures told { IfOk result (λ moved. IsTrue P.tells → shelf.now.series < 2 ^ 16
        → (p : AreParts places.now first stop joins) (cl cr : List (List Element)) (es fs : List Element)
        → AreChained shelf.now.series shelf.now.kind.now.columns (P.contents pages.old).page p.before cl
        → AreChained shelf.now.series shelf.now.kind.now.columns (P.contents pages.old).page p.behind cr
        → HasElements shelf.now.series shelf.now.kind.now.columns es left.front page.old.bytes
        → HasElements shelf.now.series shelf.now.kind.now.columns fs left.back behind.old.bytes
        → AreInOrder shelf.now.kind.now.columns ((all_in cl ++ es) ++ (fs ++ all_in cr))
        → CanBegin joins.apart (p.before ++ (p.mid ++ p.behind)) p.back (all_in cl ++ es) (fs ++ all_in cr)
        → AreChained shelf.now.series shelf.now.kind.now.columns (P.contents pages.new).page (list_of moved.come)
        (pieces moved.come (all_in cl ++ es) (fs ++ all_in cr))) }
    ensures number { IfOk result (λ moved. IsTrue P.tells
        → (p : AreParts places.now first stop joins) (cl cr : List (List Element)) (es fs : List Element)
        → AreChained shelf.now.series shelf.now.kind.now.columns (P.contents pages.old).page p.before cl
        → AreChained shelf.now.series shelf.now.kind.now.columns (P.contents pages.old).page p.behind cr
        → AreElements shelf.now.kind.now.columns es → AreElements shelf.now.kind.now.columns fs
        → HasElements shelf.now.series shelf.now.kind.now.columns es left.front page.old.bytes
        → HasElements shelf.now.series shelf.now.kind.now.columns fs left.back behind.old.bytes
        → length ((all_in cl ++ es) ++ (fs ++ all_in cr)) ≡ count_of (list_of moved.come)) }
    ensures call { Answered result (P.contents pages.old) (P.contents pages.new) }
    ensures change { (P.contents pages.new).change_bytes ≤
        (P.contents pages.old).change_bytes + 8202 + 5 * length places.now }
    ensures grows { OnOk result ((P.contents pages.new).change_bytes + 5 * length (P.contents pages.old).free
        ≤ (P.contents pages.old).change_bytes + 5 * length (P.contents pages.new).free + 8202) }
    ensures undisturbed { P.undisturbed pages.old pages.new }
{
    let start = first - joins.before;
    let end = stop + joins.behind;
    let front = with_before(pages, page, shelf, &places[start..first], left.front)?;
    let back = with_behind(pages, behind, shelf, &places[stop..end], left.back)?;
    let come = lay(
        alloc,
        pages,
        page,
        behind,
        shelf,
        &places[start..end],
        &places[end..],
        Left { front, back },
        joins.apart,
    )?;
    Ok(Moved {
        index: start,
        gone: end - start,
        come,
    })
}

// Puts the elements of the page before in front of some, if there is one, and gives how many they are then.
fn with_before<P: Pages>(
    pages: &mut P,
    page: &mut Page,
    shelf: &Shelf,
    before: &[Place],
    count: usize,
) -> Result<usize, StoreFault>
    requires one { length before.now ≤ 1 }
    requires places { ArePlaces shelf.now.kind.now.columns (P.contents pages.old) before.now }
    requires room { count_of before.now + count ≤ page_room shelf.now.kind.now.columns }
    ensures told { IfOk result (λ all. IsTrue P.tells → (chain : List (List Element)) (es : List Element)
        → AreChained shelf.now.series shelf.now.kind.now.columns (P.contents pages.old).page before.now chain
        → AreElements shelf.now.kind.now.columns es
        → HasElements shelf.now.series shelf.now.kind.now.columns es count page.old.bytes
        → HasElements shelf.now.series shelf.now.kind.now.columns (all_in chain ++ es) all page.new.bytes) }
    ensures least { IfOk result (λ all. count ≤ all) }
    ensures most { IfOk result (λ all. all ≤ count_of before.now + count) }
    ensures call { Reads P.tells result (P.contents pages.old) (P.contents pages.new) }
    ensures undisturbed { P.undisturbed pages.old pages.new }
{
    match before {
        [place] => join_before(pages, page, shelf, place, count),
        _ => Ok(count),
    }
}

// Puts those of the page behind after some, if there is one.
fn with_behind<P: Pages>(
    pages: &mut P,
    page: &mut Page,
    shelf: &Shelf,
    behind: &[Place],
    count: usize,
) -> Result<usize, StoreFault>
    requires one { length behind.now ≤ 1 }
    requires places { ArePlaces shelf.now.kind.now.columns (P.contents pages.old) behind.now }
    requires room { count + count_of behind.now ≤ page_room shelf.now.kind.now.columns }
    ensures told { IfOk result (λ all. IsTrue P.tells → (chain : List (List Element)) (es : List Element)
        → AreChained shelf.now.series shelf.now.kind.now.columns (P.contents pages.old).page behind.now chain
        → AreElements shelf.now.kind.now.columns es
        → HasElements shelf.now.series shelf.now.kind.now.columns es count page.old.bytes
        → HasElements shelf.now.series shelf.now.kind.now.columns (es ++ all_in chain) all page.new.bytes) }
    ensures least { IfOk result (λ all. count ≤ all) }
    ensures most { IfOk result (λ all. all ≤ count + count_of behind.now) }
    ensures call { Reads P.tells result (P.contents pages.old) (P.contents pages.new) }
    ensures undisturbed { P.undisturbed pages.old pages.new }
{
    match behind {
        [place] => join_behind(pages, page, shelf, place, count),
        _ => Ok(count),
    }
}
