// The page of a series, edited, and its place.
ghost use Rattle.std.specs.Prelude.{◌≡◌, ◌<◌, ◌≤◌, IsTrue, Err, List, [], ◌∷◌, length, drop};
ghost use Rattle.ts_row.specs.Row.{fits, Element};
ghost use Rattle.ts_cells.specs.IrregularPage.{page_room, AreElements, AreInOrder, behind_head, irregular_page};
ghost use Rattle.ts_irregular.specs.Edit.{with_element, without_element, search_of};
ghost use Rattle.ts_irregular.specs.OnePage.{place_of};

use crate::cells::{insert_cell, take_row};
use crate::stamps::units_in;
use ts_base::Stamp;
use ts_page::{HEAD, Head, Page};
use ts_row::{Row, Shelf};
use ts_space::Place;

/// Takes the element at a stamp, if one is there, out of a page with so many, and gives how many are left.
pub fn take_out(shelf: &Shelf, page: &mut Page, count: usize, stamp: Stamp) -> usize
    requires room { count ≤ page_room shelf.now.kind.now.columns }
    ensures count { (es : List Element) → AreInOrder shelf.now.kind.now.columns es → length es ≡ count
        → drop 32 page.old.bytes ≡ behind_head shelf.now.kind.now.columns es
        → length (without_element stamp es) ≡ result }
    ensures bytes { (es : List Element) → AreInOrder shelf.now.kind.now.columns es → length es ≡ count
        → drop 32 page.old.bytes ≡ behind_head shelf.now.kind.now.columns es
        → page.new.bytes ≡ irregular_page shelf.now.series shelf.now.kind.now.columns (without_element stamp es) }
    ensures most { result ≤ count }
{
    let count = take_row(shelf.kind, &mut page.bytes[HEAD..], count, stamp);
    set_count(shelf, page, count);
    count
}

/// Puts a row at a stamp into a page with so many elements, before the one of an index: none is at the stamp.
pub fn insert_into(
    shelf: &Shelf,
    page: &mut Page,
    count: usize,
    index: usize,
    stamp: Stamp,
    row: &Row,
)
    requires room { count < page_room shelf.now.kind.now.columns }
    requires index { index ≤ count }
    requires fits { IsTrue (fits shelf.now.kind.now.columns row.now) }
    ensures { (es : List Element) → AreInOrder shelf.now.kind.now.columns es → length es ≡ count → search_of stamp es
        ≡ Err index
        → drop 32 page.old.bytes ≡ behind_head shelf.now.kind.now.columns es
        → page.new.bytes ≡ irregular_page shelf.now.series shelf.now.kind.now.columns (with_element stamp row.now es) }
{
    insert_cell(
        shelf.kind,
        &mut page.bytes[HEAD..],
        count,
        index,
        stamp,
        row,
    );
    set_count(shelf, page, count + 1);
}

// Writes the head of a page with so many elements.
fn set_count(shelf: &Shelf, page: &mut Page, count: usize)
    requires { count ≤ page_room shelf.now.kind.now.columns }
    ensures { (es : List Element) → length es ≡ count → drop 32 page.old.bytes
        ≡ behind_head shelf.now.kind.now.columns es
        → page.new.bytes ≡ irregular_page shelf.now.series shelf.now.kind.now.columns es }
{
    page.set_head(&Head::Irregular {
        series: shelf.series,
        count: count as u16,
    });
}

/// The place of a page with so many elements.
pub fn place_in(shelf: &Shelf, number: u32, count: usize, page: &Page) -> Place
    requires some { 1 ≤ count }
    requires room { count ≤ page_room shelf.now.kind.now.columns }
    ensures number { result.page ≡ number }
    ensures count { result.count ≡ count }
    ensures listed { (es : List Element) → AreElements shelf.now.kind.now.columns es → length es ≡ count
        → page.now.bytes ≡ irregular_page shelf.now.series shelf.now.kind.now.columns es → place_of number es ≡ result
        ∷ [] }
{
    Place {
        at: units_in(&page.bytes[HEAD + 1..HEAD + 9]),
        page: number,
        count: count as u16,
    }
}
