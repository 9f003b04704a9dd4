// The cells of one page of an irregular series: those of a range are handed on or counted, and the first that isn't
// hidden is found.
ghost use Rattle.std.specs.Prelude.{◌≡◌, ◌-◌, ◌<◌, ◌≤◌, IsTrue, IfOk, IfSome, Some, List, [], ◌∷◌, length, take, drop};
ghost use Rattle.std.specs.Prelude.{slice_get};
ghost use Rattle.ts_row.specs.Row.{fits, Element, seen};
ghost use Rattle.ts_cells.specs.IrregularPage.{IsElement, cell_bytes, cell_size, page_room, AreElements, behind_head};
ghost use Rattle.ts_sheets.specs.Stamped.{earlier, within_range};
ghost use Rattle.ts_series.specs.Ends.{later};
ghost use Rattle.ts_entry.specs.Entry.{first_seen};
ghost use Rattle.ts_clip.specs.Chain.{ArePassed, HoldsOfCells, HoldsOfMore};

use std::alloc::AllocError;
use ts_base::Stamp;
use ts_cells::{cell_size, is_hidden_cell};
use ts_entry::EntryVisitor;
use ts_irregular::{search, units_at};
use ts_row::{Row, RowType};

/// What a cell has before its row: a byte 1 and a stamp.
pub(crate) const FRONT: usize = 9;

/// Of elements that come, how many are passed over first, and how many are then taken at most.
#[derive(Clone, Copy, Debug, PartialEq, Eq)]
pub(crate) struct Wanted {
    pub skip: u64,
    pub most: u64,
}

/// The cells of the elements from one stamp to another: those from one index on and before another.
pub(crate) fn range_on(
    kind: &RowType,
    behind: &[u8],
    count: usize,
    from: Stamp,
    to: Stamp,
) -> (usize, usize)
    requires size { length behind.now ≡ 4064 }
    requires room { count ≤ page_room kind.now.columns }
    ensures range { HoldsOfCells kind.now.columns count behind.now
        (λ es. within_range from to es ≡ take (result.1 - result.0) (drop result.0 es)) }
    ensures within { result.1 ≤ count }
{
    let first = before(kind, behind, count, from);
    let last = up_to(kind, behind, count, to);
    (first, last)
}

// How many elements are earlier than a stamp.
fn before(kind: &RowType, behind: &[u8], count: usize, from: Stamp) -> usize
    requires size { length behind.now ≡ 4064 }
    requires room { count ≤ page_room kind.now.columns }
    ensures front { HoldsOfCells kind.now.columns count behind.now (λ es. earlier from es ≡ take result es) }
    ensures within { result ≤ count }
{
    match search(kind, behind, count, from) {
        Ok(index) => index,
        Err(index) => index,
    }
}

// How many aren't later than a stamp.
fn up_to(kind: &RowType, behind: &[u8], count: usize, to: Stamp) -> usize
    requires size { length behind.now ≡ 4064 }
    requires room { count ≤ page_room kind.now.columns }
    ensures back { HoldsOfCells kind.now.columns count behind.now (λ es. later to es ≡ drop result es) }
    ensures within { result ≤ count }
{
    match search(kind, behind, count, to) {
        Ok(index) => index + 1,
        Err(index) => index,
    }
}

/// Hands the cells from one index on and before another to a visitor, as far as they are wanted, and tells what is
/// wanted still.
pub(crate) fn visit_cells<V: EntryVisitor>(
    kind: &RowType,
    behind: &[u8],
    first: usize,
    last: usize,
    want: Wanted,
    visitor: &mut V,
) -> Result<Wanted, AllocError>
    requires size { length behind.now ≡ 4064 }
    requires room { last ≤ page_room kind.now.columns }
    ensures passed { IfOk result (λ after. HoldsOfMore kind.now.columns last behind.now
        (λ es. ArePassed (λ entries. V.took kind.now.columns visitor.old entries visitor.new) want after
        (seen (take (last - first) (drop first es))))) }
    ensures fewer { IfOk result (λ after. after.most ≤ want.most) }
{
    let mut left = want;
    for index in first..last {
        if left.most == 0 {
            return Ok(left);
        }
        left = visit_cell(kind, cell_at(kind, behind, index), left, visitor)?;
    }
    Ok(left)
}

/// The bytes of the cell of an index.
pub(crate) fn cell_at<'a>(kind: &RowType, behind: &'a [u8], index: usize) -> &'a [u8]
    requires size { length behind.now ≡ 4064 }
    requires index { index < page_room kind.now.columns }
    ensures bytes { (es : List Element) (e : Element) → AreElements kind.now.columns es → slice_get es index ≡ Some e
        → behind.now ≡ behind_head kind.now.columns es → result.now ≡ cell_bytes kind.now.columns e }
    ensures size { length result.now ≡ cell_size kind.now.columns }
{
    let size = cell_size(kind);
    let at = size * index;
    &behind[at..at + size]
}

// Hands the element of a cell on, if it is wanted.
fn visit_cell<V: EntryVisitor>(
    kind: &RowType,
    cell: &[u8],
    want: Wanted,
    visitor: &mut V,
) -> Result<Wanted, AllocError>
    requires size { length cell.now ≡ cell_size kind.now.columns }
    requires some { 0 < want.most }
    ensures passed { IfOk result (λ after. (e : Element) → IsElement kind.now.columns e
        → cell.now ≡ cell_bytes kind.now.columns e
        → ArePassed (λ entries. V.took kind.now.columns visitor.old entries visitor.new) want after (seen (e ∷ []))) }
    ensures fewer { IfOk result (λ after. after.most ≤ want.most) }
{
    if is_hidden_cell(kind, cell) {
        return Ok(want);
    }
    if want.skip > 0 {
        return Ok(Wanted {
            skip: want.skip - 1,
            most: want.most,
        });
    }
    let Some(stamp) = stamp_in(kind, cell) else {
        return Ok(want);
    };
    visitor.element(kind, stamp, &cell[FRONT..])?;
    Ok(Wanted {
        skip: 0,
        most: want.most - 1,
    })
}

// The stamp of a cell, where its bytes are those of one.
fn stamp_in(kind: &RowType, cell: &[u8]) -> Option<Stamp>
    requires { length cell.now ≡ cell_size kind.now.columns }
    ensures { (e : Element) → IsElement kind.now.columns e → cell.now ≡ cell_bytes kind.now.columns e
        → result ≡ Some e.0 }
{
    Stamp::of(units_at(cell, cell_size(kind), 0))
}

/// How many of the cells from one index on and before another are those of elements that aren't hidden.
pub(crate) fn count_cells(kind: &RowType, behind: &[u8], first: usize, last: usize) -> u64
    requires size { length behind.now ≡ 4064 }
    requires room { last ≤ page_room kind.now.columns }
    ensures count { HoldsOfMore kind.now.columns last behind.now
        (λ es. result ≡ length (seen (take (last - first) (drop first es)))) }
    ensures few { result ≤ last }
{
    let mut count = 0;
    for index in first..last {
        if !is_hidden_cell(kind, cell_at(kind, behind, index)) {
            count += 1;
        }
    }
    count
}

/// The first element that isn't hidden, of so many cells.
pub(crate) fn first_among(
    kind: &RowType,
    behind: &[u8],
    count: usize,
) -> Result<Option<(Stamp, Row)>, AllocError>
    requires size { length behind.now ≡ 4064 }
    requires room { count ≤ page_room kind.now.columns }
    ensures first { IfOk result (λ first. (es : List Element) → AreElements kind.now.columns es → length es ≡ count
        → behind.now ≡ behind_head kind.now.columns es → first ≡ first_seen es) }
    ensures fits { IfOk result (λ first. IfSome first (λ e. IsTrue (fits kind.now.columns e.1))) }
{
    for index in 0..count {
        let cell = cell_at(kind, behind, index);
        if !is_hidden_cell(kind, cell) {
            return element_in(kind, cell);
        }
    }
    Ok(None)
}

// The element of a cell.
fn element_in(kind: &RowType, cell: &[u8]) -> Result<Option<(Stamp, Row)>, AllocError>
    requires { length cell.now ≡ cell_size kind.now.columns }
    ensures found { IfOk result (λ found. (e : Element) → IsElement kind.now.columns e
        → cell.now ≡ cell_bytes kind.now.columns e
        → found ≡ Some e) }
    ensures fits { IfOk result (λ found. IfSome found (λ e. IsTrue (fits kind.now.columns e.1))) }
{
    let Some(stamp) = stamp_in(kind, cell) else {
        return Ok(None);
    };
    let Some(row) = kind.decode(&cell[FRONT..])? else {
        return Ok(None);
    };
    Ok(Some((stamp, row)))
}
