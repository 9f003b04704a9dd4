// The cells behind the head of a page, read and edited one at a time.
ghost use Rattle.std.specs.Prelude.{◌≡◌, ◌↔◌, ◌+◌, ◌<◌, ◌≤◌, IsTrue, IfOk, IfSome, IsSome, Some, None, is_some, false};
ghost use Rattle.std.specs.Prelude.{List, length, drop};
ghost use Rattle.ts_page.specs.Pages.{head_of};
ghost use Rattle.ts_page.specs.declared.page.Head.TheVariants.{Regular};
ghost use Rattle.ts_row.specs.Row.{fits};
ghost use Rattle.ts_regular.specs.RegularPage.{Cell, cell_bytes, cell_size, regular_room, AreCells, IsRegularPage};
ghost use Rattle.ts_regular.specs.RegularPage.{behind_head, filled_count, regular_page};
ghost use Rattle.ts_regular.specs.OnePage.{cell_at, is_seen, with_row, without_row, with_mark};

use crate::cell::{
    cell_size, clear_cell, has_element, is_hidden_cell, mark_cell, regular_room, row_in_cell,
    write_cell,
};
use std::alloc::AllocError;
use ts_page::{HEAD, Head, Page};
use ts_row::{Row, RowType, Shelf};

// The bytes of a cell.
fn cell_at<'a>(kind: &RowType, behind: &'a [u8], index: usize) -> &'a [u8]
    requires size { length behind.now ≡ 4064 }
    requires index { index < regular_room kind.now.columns }
    ensures bytes { (cells : List Cell) → AreCells kind.now.columns cells → index < length cells
        → behind.now ≡ behind_head kind.now.columns cells
        → result.now ≡ cell_bytes kind.now.columns (cell_at cells index) }
    ensures size { length result.now ≡ cell_size kind.now.columns }
{
    let size = cell_size(kind);
    let at = size * index;
    &behind[at..at + size]
}

/// The row in a cell, if it has one.
pub(crate) fn row_at(kind: &RowType, behind: &[u8], index: usize) -> Result<Option<Row>, AllocError>
    requires size { length behind.now ≡ 4064 }
    requires index { index < regular_room kind.now.columns }
    ensures found { IfOk result (λ found. (cells : List Cell) → AreCells kind.now.columns cells → index < length cells
        → behind.now ≡ behind_head kind.now.columns cells → found ≡ cell_at cells index) }
    ensures fits { IfOk result (λ found. IfSome found (λ row. IsTrue (fits kind.now.columns row))) }
{
    row_in_cell(kind, cell_at(kind, behind, index))
}

/// Whether a cell has an element.
pub(crate) fn has_element_at(kind: &RowType, behind: &[u8], index: usize) -> bool
    requires size { length behind.now ≡ 4064 }
    requires index { index < regular_room kind.now.columns }
    ensures { (cells : List Cell) → AreCells kind.now.columns cells → index < length cells
        → behind.now ≡ behind_head kind.now.columns cells → result ≡ is_some (cell_at cells index) }
{
    has_element(cell_at(kind, behind, index))
}

/// Whether a cell has an element that isn't hidden.
pub(crate) fn has_seen_at(kind: &RowType, behind: &[u8], index: usize) -> bool
    requires size { length behind.now ≡ 4064 }
    requires index { index < regular_room kind.now.columns }
    ensures { (cells : List Cell) → AreCells kind.now.columns cells → index < length cells
        → behind.now ≡ behind_head kind.now.columns cells → result ≡ is_seen (cell_at cells index) }
{
    let cell = cell_at(kind, behind, index);
    has_element(cell) && !is_hidden_cell(kind, cell)
}

// Puts a row into a cell.
fn put_cell(kind: &RowType, behind: &mut [u8], index: usize, row: &Row)
    requires size { length behind.old ≡ 4064 }
    requires index { index < regular_room kind.now.columns }
    requires fits { IsTrue (fits kind.now.columns row.now) }
    ensures { (cells : List Cell) → AreCells kind.now.columns cells → index < length cells
        → behind.old ≡ behind_head kind.now.columns cells
        → behind.new ≡ behind_head kind.now.columns (with_row index row.now cells) }
{
    let size = cell_size(kind);
    let at = size * index;
    write_cell(kind, row, &mut behind[at..at + size]);
}

/// Makes a cell one without an element.
pub(crate) fn empty_cell(kind: &RowType, behind: &mut [u8], index: usize)
    requires size { length behind.old ≡ 4064 }
    requires index { index < regular_room kind.now.columns }
    ensures { (cells : List Cell) → AreCells kind.now.columns cells → index < length cells
        → behind.old ≡ behind_head kind.now.columns cells
        → behind.new ≡ behind_head kind.now.columns (without_row index cells) }
{
    let size = cell_size(kind);
    let at = size * index;
    clear_cell(kind, &mut behind[at..at + size]);
}

/// Hides the element in a cell, or reveals it.
pub(crate) fn mark_at(kind: &RowType, behind: &mut [u8], index: usize, hidden: bool)
    requires size { length behind.old ≡ 4064 }
    requires index { index < regular_room kind.now.columns }
    ensures { (cells : List Cell) → AreCells kind.now.columns cells → index < length cells
        → IsSome (cell_at cells index)
        → behind.old ≡ behind_head kind.now.columns cells
        → behind.new ≡ behind_head kind.now.columns (with_mark index hidden cells) }
{
    let size = cell_size(kind);
    let at = size * index;
    mark_cell(kind, hidden, &mut behind[at..at + size]);
}

/// Whether the head of a page tells so many elements of the series from this offset on.
pub(crate) fn agrees(shelf: &Shelf, count: u16, base: u64, page: &Page) -> bool
    ensures { IsTrue result ↔ (head_of page.now.bytes ≡ Some (Regular shelf.now.series count base)) }
{
    match page.head() {
        Some(
            Head::Regular {
                series,
                count: told,
                base: begins,
            },
        ) => series == shelf.series && told == count && begins == base,
        _ => false,
    }
}

/// How many elements a page has; where its head disagrees with its place, it becomes one without elements, of zeros.
pub(crate) fn count_taken(shelf: &Shelf, count: u16, base: u64, page: &mut Page) -> u16
    ensures told { (cells : List Cell)
        → IsRegularPage shelf.now.series shelf.now.kind.now.columns base cells page.old.bytes
        → filled_count cells ≡ count → (result ≡ count) × (page.new.bytes ≡ page.old.bytes) }
    ensures few { result ≤ count }
{
    if agrees(shelf, count, base, page) {
        return count;
    }
    *page = Page::zero();
    0
}

/// Puts a row into a cell of a page with so many elements, and gives how many it has then.
pub(crate) fn put_into(
    shelf: &Shelf,
    page: &mut Page,
    base: u64,
    count: u16,
    index: usize,
    row: &Row,
) -> u16
    requires index { index < regular_room shelf.now.kind.now.columns }
    requires room { count ≤ regular_room shelf.now.kind.now.columns }
    requires fits { IsTrue (fits shelf.now.kind.now.columns row.now) }
    ensures put { (cells : List Cell) → AreCells shelf.now.kind.now.columns cells
        → length cells ≡ regular_room shelf.now.kind.now.columns
        → filled_count cells ≡ count → drop 32 page.old.bytes ≡ behind_head shelf.now.kind.now.columns cells
        → (filled_count (with_row index row.now cells) ≡ result)
        × (page.new.bytes ≡ regular_page shelf.now.series shelf.now.kind.now.columns base
        (with_row index row.now cells)) }
    ensures some { 1 ≤ result }
    ensures most { result ≤ regular_room shelf.now.kind.now.columns }
    ensures more { result ≤ count + 1 }
{
    let behind = &mut page.bytes[HEAD..];
    let there = has_element_at(shelf.kind, behind, index);
    put_cell(shelf.kind, behind, index, row);
    let count = count_with(count, there, regular_room(shelf.kind));
    set_count(shelf, page, base, count);
    count
}

// One element more where none was in the cell. Where a damaged page tells as many as it has cells, there is no more.
fn count_with(count: u16, there: bool, room: usize) -> u16
    requires room { count ≤ room }
    requires some { 1 ≤ room }
    requires most { room ≤ 4064 }
    ensures over { IsTrue there → 1 ≤ count → result ≡ count }
    ensures new { there ≡ false → count < room → result ≡ count + 1 }
    ensures some { 1 ≤ result }
    ensures most { result ≤ room }
    ensures more { result ≤ count + 1 }
{
    if there && count > 0 {
        return count;
    }
    if count as usize >= room {
        return count;
    }
    count + 1
}

/// Takes the element in a cell, if there is one, out of a page with so many, and gives how many are left.
pub(crate) fn take_out(shelf: &Shelf, page: &mut Page, base: u64, count: u16, index: usize) -> u16
    requires index { index < regular_room shelf.now.kind.now.columns }
    ensures empty { result ≡ count → (cells : List Cell) → AreCells shelf.now.kind.now.columns cells
        → length cells ≡ regular_room shelf.now.kind.now.columns
        → filled_count cells ≡ count → drop 32 page.old.bytes ≡ behind_head shelf.now.kind.now.columns cells
        → cell_at cells index ≡ None }
    ensures taken { result < count → (cells : List Cell) → AreCells shelf.now.kind.now.columns cells
        → length cells ≡ regular_room shelf.now.kind.now.columns
        → filled_count cells ≡ count → drop 32 page.old.bytes ≡ behind_head shelf.now.kind.now.columns cells
        → IsSome (cell_at cells index) × (filled_count (without_row index cells) ≡ result)
        × (page.new.bytes ≡ regular_page shelf.now.series shelf.now.kind.now.columns base (without_row index cells)) }
    ensures fewer { result ≤ count }
    ensures one { count ≤ result + 1 }
{
    if count == 0 {
        return 0;
    }
    let behind = &mut page.bytes[HEAD..];
    if !has_element_at(shelf.kind, behind, index) {
        return count;
    }
    empty_cell(shelf.kind, behind, index);
    set_count(shelf, page, base, count - 1);
    count - 1
}

/// Writes the head of a page with so many elements.
pub(crate) fn set_count(shelf: &Shelf, page: &mut Page, base: u64, count: u16)
    ensures { (cells : List Cell) → filled_count cells ≡ count → drop 32 page.old.bytes
        ≡ behind_head shelf.now.kind.now.columns cells
        → page.new.bytes ≡ regular_page shelf.now.series shelf.now.kind.now.columns base cells }
{
    page.set_head(&Head::Regular {
        series: shelf.series,
        count,
        base,
    });
}
