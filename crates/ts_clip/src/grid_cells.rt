// The cells behind the head of a page, each handed on at its on start.
ghost use Rattle.std.specs.Prelude.{◌≡◌, ◌-◌, ◌<◌, ◌≤◌, OnOk, None, List, [], ◌∷◌, length, map, take, drop};
ghost use Rattle.ts_regular.specs.RegularPage.{Cell, FitsCell, cell_bytes, cell_size, regular_room, AreCells};
ghost use Rattle.ts_regular.specs.RegularPage.{HoldsOfCells, behind_head};
ghost use Rattle.ts_regular.specs.OnePage.{cell_at, is_seen};
ghost use Rattle.ts_clip.specs.Numbered.{numbered, seen_in};

use std::alloc::AllocError;
use ts_base::Stamp;
use ts_entry::EntryVisitor;
use ts_offset::StartsFrom;
use ts_row::RowType;

/// How many bytes a cell has.
pub(crate) fn cell_size(kind: &RowType) -> usize
    ensures value { result ≡ cell_size kind.now.columns }
    ensures bound { result ≤ 1001 }
{
    kind.width() + 1
}

/// Hands on the cells of a page from one number up to, not including, another, each at the next of the starts that are
/// left.
pub(crate) fn visit_cells<V: EntryVisitor>(
    kind: &RowType,
    behind: &[u8],
    first: usize,
    stop: usize,
    starts: &mut StartsFrom<'_>,
    visitor: &mut V,
) -> Result<(), AllocError>
    requires size { length behind.now ≡ 4064 }
    requires order { first ≤ stop }
    requires within { stop ≤ regular_room kind.now.columns }
    ensures took { OnOk result (HoldsOfCells kind.now.columns behind.now
        (λ cells. V.took kind.now.columns visitor.old
        (numbered (λ i. seen_in (cell_at cells i)) first (take (stop - first) starts.old)) visitor.new)) }
    ensures left { OnOk result (starts.new ≡ drop (stop - first) starts.old) }
{
    let size = cell_size(kind);
    for index in first..stop {
        let Some(start) = starts.next() else {
            return Ok(());
        };
        visit_cell(kind, cell_of(kind, behind, size, index), start, visitor)?;
    }
    Ok(())
}

/// The bytes of a cell.
pub(crate) fn cell_of<'a>(kind: &RowType, behind: &'a [u8], size: usize, index: usize) -> &'a [u8]
    requires behind { length behind.now ≡ 4064 }
    requires size { size ≡ cell_size kind.now.columns }
    requires index { index < regular_room kind.now.columns }
    ensures bytes { (cells : List Cell) → AreCells kind.now.columns cells → index < length cells
        → behind.now ≡ behind_head kind.now.columns cells
        → result.now ≡ cell_bytes kind.now.columns (cell_at cells index) }
    ensures size { length result.now ≡ cell_size kind.now.columns }
{
    let at = size * index;
    &behind[at..at + size]
}

// Hands on one cell: its row where it has one that isn't hidden, and else the start without one.
fn visit_cell<V: EntryVisitor>(
    kind: &RowType,
    cell: &[u8],
    start: Stamp,
    visitor: &mut V,
) -> Result<(), AllocError>
    requires { length cell.now ≡ cell_size kind.now.columns }
    ensures { OnOk result ((c : Cell) → FitsCell kind.now.columns c → cell.now ≡ cell_bytes kind.now.columns c
        → V.took kind.now.columns visitor.old ((start, seen_in c) ∷ []) visitor.new) }
{
    if is_seen(kind, cell) {
        visitor.element(kind, start, &cell[1..])
    } else {
        visitor.blank(kind, start)
    }
}

/// Whether a cell has an element that isn't hidden.
pub(crate) fn is_seen(kind: &RowType, cell: &[u8]) -> bool
    requires { length cell.now ≡ cell_size kind.now.columns }
    ensures { (c : Cell) → FitsCell kind.now.columns c → cell.now ≡ cell_bytes kind.now.columns c → result ≡ is_seen c }
{
    cell[0] == 1 && !kind.is_hidden(&cell[1..])
}

/// Hands on so many of the starts that are left, each without an element.
pub(crate) fn visit_blanks<V: EntryVisitor>(
    kind: &RowType,
    starts: &mut StartsFrom<'_>,
    count: u64,
    visitor: &mut V,
) -> Result<(), AllocError>
    ensures took { OnOk result
        (V.took kind.now.columns visitor.old (map (λ start. (start, None)) (take count starts.old)) visitor.new) }
    ensures left { OnOk result (starts.new ≡ drop count starts.old) }
{
    for _index in 0..count {
        let Some(start) = starts.next() else {
            return Ok(());
        };
        visitor.blank(kind, start)?;
    }
    Ok(())
}
