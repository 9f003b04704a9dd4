// The first element on one page of a regular series that isn't hidden, and its cell.
ghost use Rattle.std.specs.Prelude.{◌≡◌, ◌<◌, ◌^◌, IsTrue, IfOk, IfSome, List, length};
ghost use Rattle.ts_row.specs.Row.{fits};
ghost use Rattle.ts_regular.specs.RegularPage.{Cell, FitsCell, cell_bytes, cell_size, regular_room, elements_from};
ghost use Rattle.ts_regular.specs.RegularPage.{AreCells, HoldsOfCells, behind_head};
ghost use Rattle.ts_regular.specs.Places.{CanBeRead};
ghost use Rattle.ts_regular.specs.OnePage.{cell_at};
ghost use Rattle.ts_irregular.specs.Call.{Reads};
ghost use Rattle.ts_clip.specs.Numbered.{IsFirstCell};
ghost use Rattle.ts_clip.specs.Grid.{HoldsOfCellPage, first_of};

use crate::grid_cells::{cell_of, cell_size, is_seen};
use crate::grid_page::read_base;
use std::alloc::AllocError;
use ts_base::StoreFault;
use ts_page::{HEAD, Page, Pages};
use ts_regular::regular_room;
use ts_row::{Row, RowType, Shelf};
use ts_space::Place;

/// The first element on the page of a place that isn't hidden, with its offset.
pub(crate) fn first_on<P: Pages>(
    pages: &mut P,
    page: &mut Page,
    shelf: &Shelf,
    place: &Place,
) -> Result<Option<(u64, Row)>, StoreFault>
    requires readable { CanBeRead (P.contents pages.old) place.now }
    ensures first { IfOk result (λ first. HoldsOfCellPage P.tells shelf.now place.now (P.contents pages.old)
        (λ p. first ≡ first_of (elements_from p.0 p.1))) }
    ensures fits { IfOk result (λ first. IfSome first (λ e. IsTrue (fits shelf.now.kind.now.columns e.1))) }
    ensures call { Reads P.tells result (P.contents pages.old) (P.contents pages.new) }
    ensures undisturbed { P.undisturbed pages.old pages.new }
{
    let Some(base) = read_base(pages, page, shelf, place)? else {
        return Ok(None);
    };
    Ok(first_among(shelf.kind, &page.bytes[HEAD..], base)?)
}

// That of the cells behind the head of a page.
fn first_among(kind: &RowType, behind: &[u8], base: u64) -> Result<Option<(u64, Row)>, AllocError>
    requires size { length behind.now ≡ 4064 }
    requires limit { base < 2 ^ 63 }
    ensures first { IfOk result (λ first. HoldsOfCells kind.now.columns behind.now (λ cells. first
        ≡ first_of (elements_from base cells))) }
    ensures fits { IfOk result (λ first. IfSome first (λ e. IsTrue (fits kind.now.columns e.1))) }
{
    let Some(index) = first_cell(kind, behind) else {
        return Ok(None);
    };
    match row_at(kind, behind, index)? {
        Some(row) => Ok(Some((base + index as u64, row))),
        None => Ok(None),
    }
}

// The number of the first cell with an element that isn't hidden.
fn first_cell(kind: &RowType, behind: &[u8]) -> Option<usize>
    requires size { length behind.now ≡ 4064 }
    ensures first { HoldsOfCells kind.now.columns behind.now (λ cells. IsFirstCell cells result) }
    ensures within { IfSome result (λ index. index < regular_room kind.now.columns) }
{
    let size = cell_size(kind);
    for index in 0..regular_room(kind) {
        if is_seen(kind, cell_of(kind, behind, size, index)) {
            return Some(index);
        }
    }
    None
}

// The row in a cell, if it has one.
fn row_at(kind: &RowType, behind: &[u8], index: usize) -> Result<Option<Row>, AllocError>
    requires size { length behind.now ≡ 4064 }
    requires index { index < regular_room kind.now.columns }
    ensures found { IfOk result (λ found. (cells : List Cell) → AreCells kind.now.columns cells → index < length cells
        → behind.now ≡ behind_head kind.now.columns cells → found ≡ cell_at cells index) }
    ensures fits { IfOk result (λ found. IfSome found (λ row. IsTrue (fits kind.now.columns row))) }
{
    row_in(kind, cell_of(kind, behind, cell_size(kind), index))
}

// The row of a cell by its bytes.
fn row_in(kind: &RowType, cell: &[u8]) -> Result<Option<Row>, AllocError>
    requires { length cell.now ≡ cell_size kind.now.columns }
    ensures found { IfOk result (λ found. (c : Cell) → FitsCell kind.now.columns c
        → cell.now ≡ cell_bytes kind.now.columns c → found ≡ c) }
    ensures fits { IfOk result (λ found. IfSome found (λ row. IsTrue (fits kind.now.columns row))) }
{
    if cell[0] != 1 {
        return Ok(None);
    }
    kind.decode(&cell[1..])
}
