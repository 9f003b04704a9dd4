// A page of a chain: parted in two, or put behind another.
ghost use Rattle.std.specs.Prelude.{◌≡◌, ◌+◌, ◌/◌, ◌≤◌, IsTrue, Err, List, ◌++◌, length, take, drop};
ghost use Rattle.ts_row.specs.Row.{fits, Element};
ghost use Rattle.ts_cells.specs.IrregularPage.{page_room, AreElements, AreInOrder, behind_head, irregular_page};
ghost use Rattle.ts_irregular.specs.Edit.{with_element, search_of};

use crate::cells::{append_cells, keep_first, keep_others};
use ts_base::Stamp;
use ts_cells::page_room;
use ts_irregular::insert_into;
use ts_page::{HEAD, Head, Page};
use ts_row::{Row, Shelf};

/// Parts the elements of a full page and one more, before that of an index, in two: half of them stay, the others stand
/// on another page.
pub(crate) fn halve(
    shelf: &Shelf,
    page: &mut Page,
    others: &mut Page,
    index: usize,
    stamp: Stamp,
    row: &Row,
)
    requires room { 1 ≤ page_room shelf.now.kind.now.columns }
    requires index { index ≤ page_room shelf.now.kind.now.columns }
    requires fits { IsTrue (fits shelf.now.kind.now.columns row.now) }
    ensures half { (es : List Element) → AreInOrder shelf.now.kind.now.columns es
        → length es ≡ page_room shelf.now.kind.now.columns → search_of stamp es ≡ Err index
        → drop 32 page.old.bytes ≡ behind_head shelf.now.kind.now.columns es
        → page.new.bytes ≡ irregular_page shelf.now.series shelf.now.kind.now.columns
        (take ((page_room shelf.now.kind.now.columns + 1) / 2) (with_element stamp row.now es)) }
    ensures others { (es : List Element) → AreInOrder shelf.now.kind.now.columns es
        → length es ≡ page_room shelf.now.kind.now.columns → search_of stamp es ≡ Err index
        → drop 32 page.old.bytes ≡ behind_head shelf.now.kind.now.columns es
        → others.new.bytes ≡ irregular_page shelf.now.series shelf.now.kind.now.columns
        (drop ((page_room shelf.now.kind.now.columns + 1) / 2) (with_element stamp row.now es)) }
{
    let room = page_room(shelf.kind);
    let half = (room + 1) / 2;
    *others = *page;
    if index < half {
        others_of(shelf, others, room, half - 1);
        first_of(shelf, page, room, half - 1);
        insert_into(shelf, page, half - 1, index, stamp, row);
    } else {
        others_of(shelf, others, room, half);
        first_of(shelf, page, room, half);
        insert_into(shelf, others, room - half, index - half, stamp, row);
    }
}

/// Keeps the first so many elements of a page.
pub fn first_of(shelf: &Shelf, page: &mut Page, count: usize, keep: usize)
    requires room { count ≤ page_room shelf.now.kind.now.columns }
    requires keep { keep ≤ count }
    ensures { (es : List Element) → AreElements shelf.now.kind.now.columns es → length es ≡ count
        → drop 32 page.old.bytes ≡ behind_head shelf.now.kind.now.columns es
        → page.new.bytes ≡ irregular_page shelf.now.series shelf.now.kind.now.columns (take keep es) }
{
    keep_first(shelf.kind, &mut page.bytes[HEAD..], count, keep);
    set_count(shelf, page, keep);
}

/// Keeps the others alone.
pub fn others_of(shelf: &Shelf, page: &mut Page, count: usize, first: usize)
    requires room { count ≤ page_room shelf.now.kind.now.columns }
    requires first { first ≤ count }
    ensures { (es : List Element) → AreElements shelf.now.kind.now.columns es → length es ≡ count
        → drop 32 page.old.bytes ≡ behind_head shelf.now.kind.now.columns es
        → page.new.bytes ≡ irregular_page shelf.now.series shelf.now.kind.now.columns (drop first es) }
{
    keep_others(shelf.kind, &mut page.bytes[HEAD..], count, first);
    set_count(shelf, page, count - first);
}

/// Puts the elements of another page behind those of a page.
pub fn append_page(shelf: &Shelf, page: &mut Page, count: usize, others: &Page, more: usize)
    requires room { count + more ≤ page_room shelf.now.kind.now.columns }
    ensures { (es fs : List Element) → AreElements shelf.now.kind.now.columns es
        → AreElements shelf.now.kind.now.columns fs → length es ≡ count → length fs ≡ more
        → drop 32 page.old.bytes ≡ behind_head shelf.now.kind.now.columns es → drop 32 others.now.bytes
        ≡ behind_head shelf.now.kind.now.columns fs
        → page.new.bytes ≡ irregular_page shelf.now.series shelf.now.kind.now.columns (es ++ fs) }
{
    append_cells(
        shelf.kind,
        &mut page.bytes[HEAD..],
        count,
        &others.bytes[HEAD..],
        more,
    );
    set_count(shelf, page, count + more);
}

// Writes the head of a page with so many elements.
fn set_count(shelf: &Shelf, page: &mut Page, count: usize)
    requires { count ≤ page_room shelf.now.kind.now.columns }
    ensures { (es : List Element) → length es ≡ count → drop 32 page.old.bytes
        ≡ behind_head shelf.now.kind.now.columns es
        → page.new.bytes ≡ irregular_page shelf.now.series shelf.now.kind.now.columns es }
{
    // No page has room for more than 451.
    let _room = page_room(shelf.kind);
    page.set_head(&Head::Irregular {
        series: shelf.series,
        count: count as u16,
    });
}
