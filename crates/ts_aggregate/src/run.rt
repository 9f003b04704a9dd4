// How far a group goes on in cells.
ghost use Rattle.std.specs.Prelude.{◌≡◌, ℤ, ◌+◌, ◌*◌, ◌^◌, ◌<◌, ◌≤◌, ◌<ℤ◌, ℕ, Some, Option, IsTrue, List, length, map};
ghost use Rattle.std.specs.Prelude.{◌-◌, IfSome, take, drop};
ghost use Rattle.ts_row.specs.declared.kind.Column.{Column};
ghost use Rattle.ts_row.specs.Row.{width_of, Element};
ghost use Rattle.ts_entry.specs.declared.stamps.Stamps.TheVariants.{InCells, OnGrid};
ghost use Rattle.ts_calendar.specs.Calendars.{IsLaid};
ghost use Rattle.ts_offset.specs.Grid.{stamp_of};
ghost use Rattle.ts_entry.specs.Stamps.{IsNear};
ghost use Rattle.ts_entry.specs.Rows.{AreCellsWith, AreStamped, elements_in, row_if_any};
ghost use Rattle.ts_aggregate.specs.Groups.{AreBefore, AreOrdered, IsFirstBefore, HasBefore, IsAhead};

use crate::cells::RowCells;
use crate::span::is_before;
use ts_base::Stamp;
use ts_entry::Stamps;
use ts_irregular::units_at;
use ts_offset::Grid;

/// The bytes of a cell that has its stamp, before its row.
const FRONT: usize = 9;

/// The first of some cells.
#[derive(Clone, Copy, Debug)]
pub(crate) struct Piece {
    /// How many they are.
    pub count: usize,
    /// The stamp of the cell behind them, where it is known.
    pub next: Option<Stamp>,
}

/// As many of some cells, from the first on, as have elements that stand before an end, where that of the first does:
/// one at least. The first has this number among those that the stamps are of. They are sought from as many on as they
/// mostly are.
pub(crate) fn cells_before(
    cells: RowCells<'_>,
    stamps: &Stamps<'_>,
    number: usize,
    end: Option<Stamp>,
    mostly: usize,
) -> Piece
    requires some { 0 < cells.left }
    requires whole { length cells.bytes.now ≡ cells.left * cells.size }
    requires near { IsNear stamps.now }
    requires number { number + cells.left < 2 ^ 63 }
    ensures low { 1 ≤ result.count }
    ensures high { result.count ≤ cells.entry.left }
    ensures next { IsAhead stamps.now (number + result.count) result.next }
    ensures before { (columns : List Column) (found : List (Option Element))
        → cells.entry.size ≡ cells.entry.front + width_of columns
        → AreCellsWith columns cells.entry.front cells.entry.bytes.now (map row_if_any found)
        → AreStamped stamps.now cells.entry.size number cells.entry.bytes.now found
        → IsFirstBefore end found → AreOrdered (elements_in (take result.count found))
        → AreBefore end (elements_in (take result.count found)) }
{
    let Some(end) = end else {
        return Piece {
            count: cells.left,
            next: None,
        };
    };
    match stamps {
        Stamps::InCells => Piece {
            count: stamped_before(cells, end, mostly),
            next: None,
        },
        Stamps::OnGrid(grid, first) => piece_before(
            grid,
            *first + number as u64,
            cells.left,
            end,
            mostly,
        ),
    }
}

// The same of cells that have their stamps, which rise: sought ever farther away, and then between.
fn stamped_before(cells: RowCells<'_>, end: Stamp, mostly: usize) -> usize
    requires some { 0 < cells.left }
    requires whole { length cells.bytes.now ≡ cells.left * cells.size }
    ensures low { 1 ≤ result }
    ensures high { result ≤ cells.entry.left }
    ensures before { (number : ℕ) (columns : List Column) (found : List (Option Element))
        → cells.entry.size ≡ cells.entry.front + width_of columns
        → AreCellsWith columns cells.entry.front cells.entry.bytes.now (map row_if_any found)
        → AreStamped InCells cells.entry.size number cells.entry.bytes.now found
        → IsFirstBefore (Some end) found → AreOrdered (elements_in (take result found))
        → AreBefore (Some end) (elements_in (take result found)) }
{
    if cells.size < FRONT {
        return 1;
    }
    let limit = end.units();
    let mut low = first_low(cells, limit, mostly);
    let mut high = cells.left;
    let mut step = 1;
    while low < high {
        let count = low + step_within(step, high - low);
        if is_stamped_before(cells, count - 1, limit) {
            low = count;
            step = step.saturating_add(step);
        } else {
            high = count - 1;
        }
    }
    low
}

// A step that leads no farther than half the way.
#[inline(always)]
fn step_within(step: usize, way: usize) -> usize
    requires step { 0 < step }
    requires way { 0 < way }
    ensures some { 1 ≤ result }
    ensures within { result ≤ way }
{
    let half = way - way / 2;
    if step < half { step } else { half }
}

// As many as they mostly are, where those stand before a limit, or else one.
#[inline(always)]
fn first_low(cells: RowCells<'_>, limit: i64, mostly: usize) -> usize
    requires wide { 9 ≤ cells.size }
    requires some { 0 < cells.left }
    requires whole { length cells.bytes.now ≡ cells.left * cells.size }
    ensures low { 1 ≤ result }
    ensures high { result ≤ cells.entry.left }
    ensures has { 1 < result
        → HasBefore limit (drop (cells.entry.size * (result - 1)) cells.entry.bytes.now) }
{
    if 1 < mostly && mostly <= cells.left && is_stamped_before(cells, mostly - 1, limit) {
        return mostly;
    }
    1
}

// Whether the cell of a number has an element that stands before a limit.
#[inline(always)]
fn is_stamped_before(cells: RowCells<'_>, number: usize, limit: i64) -> bool
    requires wide { 9 ≤ cells.size }
    requires within { cells.size * number + cells.size ≤ length cells.bytes.now }
    ensures { IsTrue result → HasBefore limit (drop (cells.entry.size * number) cells.entry.bytes.now) }
{
    let (_, cell) = cells.bytes.split_at(cells.size * number);
    cell[0] == 1 && units_at(cell, cells.size, 0) < limit
}

// The same of cells on a grid, of which the first has this offset.
fn piece_before(grid: &Grid<'_>, offset: u64, left: usize, end: Stamp, mostly: usize) -> Piece
    requires some { 0 < left }
    requires limit { offset + left < 2 ^ 64 }
    ensures low { 1 ≤ result.count }
    ensures high { result.count ≤ left }
    ensures before { (k : ℕ) (s : ℤ) → IsLaid grid.now.calendar → 0 < k → k < result.count
        → stamp_of grid.now (offset + k) ≡ Some s → s <ℤ end }
    ensures next { IfSome result.next (λ s. stamp_of grid.now (offset + result.count) ≡ Some s) }
{
    if mostly < 2 {
        if let Some(piece) = lone_piece(grid, offset, end) {
            return piece;
        }
    } else if let Some(piece) = whole_piece(grid, offset, left, end, mostly) {
        return piece;
    } else if let Some(piece) = usual_piece(grid, offset, left, end, mostly) {
        return piece;
    }
    Piece {
        count: offsets_before(grid, offset, left, end),
        next: None,
    }
}

// The piece of one cell, where the next one doesn't stand before the end.
fn lone_piece(grid: &Grid<'_>, offset: u64, end: Stamp) -> Option<Piece>
    requires limit { offset + 1 < 2 ^ 64 }
    ensures one { IfSome result (λ p. p.count ≡ 1) }
    ensures next { IfSome result (λ p. IfSome p.next (λ s. stamp_of grid.now (offset + p.count) ≡ Some s)) }
{
    let mut starts = grid.starts_from(offset + 1);
    let next = starts.next()?;
    if is_before(next, Some(end)) {
        return None;
    }
    Some(Piece {
        count: 1,
        next: Some(next),
    })
}

// The piece of as many as they mostly are, where the next cell stands at the end.
fn whole_piece(
    grid: &Grid<'_>,
    offset: u64,
    left: usize,
    end: Stamp,
    mostly: usize,
) -> Option<Piece>
    requires some { 0 < mostly }
    requires limit { offset + left < 2 ^ 64 }
    ensures low { IfSome result (λ p. 1 ≤ p.count) }
    ensures high { IfSome result (λ p. p.count ≤ left) }
    ensures before { IfSome result (λ p. (k : ℕ) (s : ℤ) → IsLaid grid.now.calendar → 0 < k → k < p.count
        → stamp_of grid.now (offset + k) ≡ Some s → s <ℤ end) }
    ensures next { IfSome result (λ p. IfSome p.next (λ s. stamp_of grid.now (offset + p.count) ≡ Some s)) }
{
    if left < mostly {
        return None;
    }
    let mut starts = grid.starts_from(offset + mostly as u64);
    let next = starts.next()?;
    if next.units() == end.units() {
        let count = mostly;
        return Some(Piece {
            count,
            next: Some(next),
        });
    }
    None
}

// The piece of as many as they mostly are, where it is that: its last cell stands before the end, and the next one
// doesn't.
fn usual_piece(
    grid: &Grid<'_>,
    offset: u64,
    left: usize,
    end: Stamp,
    mostly: usize,
) -> Option<Piece>
    requires limit { offset + left < 2 ^ 64 }
    ensures low { IfSome result (λ p. 1 ≤ p.count) }
    ensures high { IfSome result (λ p. p.count ≤ left) }
    ensures before { IfSome result (λ p. (k : ℕ) (s : ℤ) → IsLaid grid.now.calendar → 0 < k → k < p.count
        → stamp_of grid.now (offset + k) ≡ Some s → s <ℤ end) }
    ensures next { IfSome result (λ p. IfSome p.next (λ s. stamp_of grid.now (offset + p.count) ≡ Some s)) }
{
    if mostly < 1 || left < mostly {
        return None;
    }
    let mut starts = grid.starts_from(offset + (mostly - 1) as u64);
    let last = starts.next()?;
    let next = starts.next()?;
    if is_before(last, Some(end)) && !is_before(next, Some(end)) {
        return Some(Piece {
            count: mostly,
            next: Some(next),
        });
    }
    None
}

// How many of cells on a grid do, found by how many starts come before the end.
fn offsets_before(grid: &Grid<'_>, offset: u64, left: usize, end: Stamp) -> usize
    requires some { 0 < left }
    requires limit { offset + left < 2 ^ 64 }
    ensures low { 1 ≤ result }
    ensures high { result ≤ left }
    ensures before { (k : ℕ) (s : ℤ) → IsLaid grid.now.calendar → 0 < k → k < result → stamp_of grid.now (offset + k)
        ≡ Some s → s <ℤ end }
{
    let behind = grid.offset_from(end);
    if behind <= offset + 1 {
        return 1;
    }
    left.min((behind - offset) as usize)
}
