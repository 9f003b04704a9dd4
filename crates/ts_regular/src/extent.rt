// A page judged by its bytes: which offsets it has cells for, how many have an element, the last of these, and whether
// some are hidden.
ghost use Rattle.std.specs.Prelude.{◌≡◌, ◌*◌, ◌<◌, ◌^◌, IfSome, IfNone, Some, List, ℕ, length};
ghost use Rattle.ts_page.specs.Pages.{head_of};
ghost use Rattle.ts_page.specs.declared.page.Head.TheVariants.{Regular};
ghost use Rattle.ts_regular.specs.RegularPage.{Cell, cell_size, regular_room, IsRegularPage, FillPage, HasExtent};
ghost use Rattle.ts_regular.specs.RegularPage.{cells_bytes, behind_head, filled_count, told_in};

use crate::cell::{cell_size, is_filled_cell, is_hidden_cell, regular_room};
use ts_page::{HEAD, Head, Page};
use ts_row::{RowType, is_zero};

/// What a regular page has.
#[derive(Clone, Copy, Debug, PartialEq, Eq)]
pub struct RegularExtent {
    /// The offset of its first cell, a multiple of the number of its cells.
    pub base: u64,
    /// How many cells have an element. At least 1.
    pub count: u16,
    /// The number, from 0 on, of the last cell that has one: its offset is so many more than that of the first cell.
    pub last: u16,
    /// Some element is hidden.
    pub hidden: bool,
}

/// The extent of a page, where it is a regular one of elements of this row type.
pub fn regular_extent_of(kind: &RowType, page: &Page) -> Option<RegularExtent>
    ensures found { IfSome result (λ extent. (slot base : ℕ) × (cells : List Cell)
        × IsRegularPage slot kind.now.columns base cells page.now.bytes × HasExtent base cells extent) }
    ensures none { IfNone result ((slot base : ℕ) (cells : List Cell)
        → IsRegularPage slot kind.now.columns base cells page.now.bytes → ⊥) }
{
    let (_series, count, base) = told(page)?;
    extent_told(kind, base, count, &page.bytes)
}

// The extent of a page whose head tells so many elements from this offset on.
fn extent_told(kind: &RowType, base: u64, count: u16, page: &[u8]) -> Option<RegularExtent>
    requires size { length page.now ≡ 4096 }
    requires told { (slot : ℕ) × (slot < 2 ^ 16) × (head_of page.now ≡ Some (Regular slot count base)) }
    ensures found { IfSome result (λ extent. (slot first : ℕ) × (cells : List Cell)
        × IsRegularPage slot kind.now.columns first cells page.now × HasExtent first cells extent) }
    ensures none { IfNone result ((slot first : ℕ) (cells : List Cell)
        → IsRegularPage slot kind.now.columns first cells page.now → ⊥) }
{
    if base % regular_room(kind) as u64 != 0 {
        return None;
    }
    extent_in(kind, base, count, &page[HEAD..])
}

// The slot of the series and the number of elements that the head of a regular page tells, and the offset of its first
// cell.
fn told(page: &Page) -> Option<(u16, u16, u64)>
    ensures { result ≡ told_in (head_of page.now.bytes) }
{
    match page.head() {
        Some(
            Head::Regular {
                series,
                count,
                base,
            },
        ) => Some((series, count, base)),
        _ => None,
    }
}

// The extent of cells with so many elements, one at least, and zeros behind them.
fn extent_in(kind: &RowType, base: u64, count: u16, behind: &[u8]) -> Option<RegularExtent>
    requires size { length behind.now ≡ 4064 }
    ensures found { IfSome result (λ extent. (cells : List Cell) × FillPage kind.now.columns cells
        × HasExtent base cells extent
        × (filled_count cells ≡ count) × (behind.now ≡ behind_head kind.now.columns cells)) }
    ensures none { IfNone result ((cells : List Cell) → FillPage kind.now.columns cells → filled_count cells ≡ count
        → behind.now ≡ behind_head kind.now.columns cells → ⊥) }
{
    let (cells, rest) = behind.split_at(cell_size(kind) * regular_room(kind));
    if !is_zero(rest) {
        return None;
    }
    let extent = extent_of_cells(kind, base, cells)?;
    if extent.count != count {
        return None;
    }
    Some(extent)
}

// The extent of as many cells as a page has, where they are cells and one at least has an element.
fn extent_of_cells(kind: &RowType, base: u64, cells: &[u8]) -> Option<RegularExtent>
    requires size { length cells.now ≡ cell_size kind.now.columns * regular_room kind.now.columns }
    ensures found { IfSome result (λ extent. (cs : List Cell) × FillPage kind.now.columns cs × HasExtent base cs extent
        × (cells.now ≡ cells_bytes kind.now.columns cs)) }
    ensures none { IfNone result ((cs : List Cell) → FillPage kind.now.columns cs
        → cells.now ≡ cells_bytes kind.now.columns cs → ⊥) }
{
    let size = cell_size(kind);
    let mut count = 0;
    let mut last = 0;
    let mut hidden = false;
    for i in 0..regular_room(kind) {
        let cell = &cells[size * i..size * i + size];
        if is_filled_cell(kind, cell)? {
            count += 1;
            last = i as u16;
            hidden = hidden || is_hidden_cell(kind, cell);
        }
    }
    if count == 0 {
        return None;
    }
    Some(RegularExtent {
        base,
        count,
        last,
        hidden,
    })
}
