// A page judged by its bytes: how many elements it has, from when to when, and whether some are hidden.
ghost use Rattle.std.specs.Prelude.{◌≡◌, ◌↔◌, ◌*◌, ◌≤◌, IsTrue, IfSome, IfNone, Some, List, ℕ, length};
ghost use Rattle.ts_page.specs.Pages.{head_of};
ghost use Rattle.ts_cells.specs.IrregularPage.{Element, cell_size, page_room, IsIrregularPage, AreInOrder, HasExtent};
ghost use Rattle.ts_cells.specs.IrregularPage.{cells_bytes, behind_head, irregular_count};

use crate::cell::{cell_size, is_hidden_cell, page_room, stamp_of_cell};
use ts_base::Stamp;
use ts_page::{HEAD, Head, Page};
use ts_row::{RowType, is_zero};

/// How many elements a page has, the first and the last stamp, and whether some element is hidden.
#[derive(Clone, Copy, Debug, PartialEq, Eq)]
pub struct Extent {
    /// At least 1.
    pub count: u16,
    pub first: Stamp,
    pub last: Stamp,
    /// Some element is hidden.
    pub hidden: bool,
}

/// The extent of a page, where it is one of elements of this row type.
pub fn extent_of(kind: &RowType, page: &Page) -> Option<Extent>
    ensures found { IfSome result (λ extent. (slot : ℕ) × (es : List Element)
        × IsIrregularPage slot kind.now.columns es page.now.bytes × HasExtent es extent) }
    ensures none { IfNone result ((slot : ℕ) (es : List Element)
        → IsIrregularPage slot kind.now.columns es page.now.bytes → ⊥) }
{
    let Some(count) = count_of(page) else {
        return None;
    };
    extent_told(kind, count, &page.bytes)
}

// The extent of a page whose head tells so many elements.
fn extent_told(kind: &RowType, count: u16, page: &[u8]) -> Option<Extent>
    requires size { length page.now ≡ 4096 }
    requires told { irregular_count (head_of page.now) ≡ Some count }
    ensures found { IfSome result (λ extent. (slot : ℕ) × (es : List Element)
        × IsIrregularPage slot kind.now.columns es page.now × HasExtent es extent) }
    ensures none { IfNone result ((slot : ℕ) (es : List Element) → IsIrregularPage slot kind.now.columns es page.now
        → ⊥) }
{
    if !has_room(count, page_room(kind)) {
        return None;
    }
    extent_in(kind, count, &page[HEAD..])
}

// The number of elements that the head of an irregular page tells.
fn count_of(page: &Page) -> Option<u16>
    ensures { result ≡ irregular_count (head_of page.now.bytes) }
{
    match page.head() {
        Some(Head::Irregular { count, .. }) => Some(count),
        _ => None,
    }
}

// One element at least, and no more than there is room for.
fn has_room(count: u16, room: usize) -> bool
    ensures { IsTrue result ↔ (1 ≤ count) × (count ≤ room) }
{
    count >= 1 && count as usize <= room
}

// The extent of so many cells with zeros behind them.
fn extent_in(kind: &RowType, count: u16, behind: &[u8]) -> Option<Extent>
    requires some { 1 ≤ count }
    requires room { count ≤ page_room kind.now.columns }
    requires size { length behind.now ≡ 4064 }
    ensures found { IfSome result (λ extent. (es : List Element) × AreInOrder kind.now.columns es
        × HasExtent es extent × (length es ≡ count) × (behind.now ≡ behind_head kind.now.columns es)) }
    ensures none { IfNone result ((es : List Element) → AreInOrder kind.now.columns es → length es ≡ count
        → behind.now ≡ behind_head kind.now.columns es → ⊥) }
{
    let (cells, rest) = behind.split_at(cell_size(kind) * count as usize);
    if !is_zero(rest) {
        return None;
    }
    extent_of_cells(kind, cells, count)
}

// The extent of so many cells, where they are those of elements whose stamps rise.
fn extent_of_cells(kind: &RowType, cells: &[u8], count: u16) -> Option<Extent>
    requires some { 1 ≤ count }
    requires few { count ≤ 451 }
    requires size { length cells.now ≡ cell_size kind.now.columns * count }
    ensures found { IfSome result (λ extent. (es : List Element) × AreInOrder kind.now.columns es
        × HasExtent es extent × (length es ≡ count) × (cells.now ≡ cells_bytes kind.now.columns es)) }
    ensures none { IfNone result ((es : List Element) → AreInOrder kind.now.columns es → length es ≡ count
        → cells.now ≡ cells_bytes kind.now.columns es → ⊥) }
{
    let size = cell_size(kind);
    // Their kinds keep the rules.
    let _columns = kind.columns();
    let Some(first) = stamp_of_cell(kind, &cells[..size]) else {
        return None;
    };
    let mut last = first;
    let mut hidden = is_hidden_cell(kind, &cells[..size]);
    for i in 1..count as usize {
        let cell = &cells[size * i..size * i + size];
        let Some(stamp) = stamp_of_cell(kind, cell) else {
            return None;
        };
        if stamp.units() <= last.units() {
            return None;
        }
        last = stamp;
        hidden = hidden || is_hidden_cell(kind, cell);
    }
    Some(Extent {
        count,
        first,
        last,
        hidden,
    })
}
