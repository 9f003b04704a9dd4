// One that groups the elements that it is handed.
ghost use Rattle.std.specs.Prelude.{◌≡◌, ◌+◌, ◌-◌, ◌^◌, ◌<◌, ◌≤◌, min, [], ◌∷◌, Option, None, Some, OnOk, IfOk, List};
ghost use Rattle.std.specs.Prelude.{ℤ, length, map, take};
ghost use Rattle.std.proofs.Props.{props};
ghost use Rattle.ts_row.specs.Row.{Row as TheRow, Element};
ghost use Rattle.ts_calendar.specs.Calendars.{IsBefore};
ghost use Rattle.ts_entry.specs.Stamps.{HasStamp, IsNear};
ghost use Rattle.ts_entry.specs.Rows.{IsCellWith, AreCellsWith, AreStamped, elements_in, row_if_any, rows_in};
ghost use Rattle.ts_base.specs.Answer.{most_rows};
ghost use Rattle.ts_aggregate.specs.Column.{AreRowCells};
ghost use Rattle.ts_aggregate.specs.Fold.{HasTaken};
ghost use Rattle.ts_aggregate.specs.Groups.{AreGrouped, grouping, is_seen, IsAhead, IsBehind, IsClosed, IsReady};
ghost use Rattle.ts_aggregate.specs.Groups.{MayTake, Stands};

use crate::Folding;
use crate::cells::RowCells;
use crate::run::{Piece, cells_before};
use crate::span::{Reached, is_before};
use crate::wanted::WantedIntervals;
use std::alloc::AllocError;
use std::mem;
use ts_base::Stamp;
use ts_entry::{ElementVisitor, RowVisitor, Stamps};
use ts_row::{Row, RowType, Value};

/// The most rows of a reply.
pub(crate) const MOST_ROWS: u64 = 1_000_000;

/// Groups elements, which come in the order of their stamps, by the on intervals of a calendar, and hands on what a
/// fold makes of each group, once an element comes that lies behind it. Rows beyond the most of a reply are counted
/// alone.
#[derive(Drop)]
pub(crate) struct ByInterval<'a, 'b, V> {
    wanted: &'a WantedIntervals<'a>,
    /// That of the last element.
    reached: Reached,
    folding: &'a mut Folding<'b>,
    out: &'a mut V,
    /// How many groups are closed.
    count: u64,
    /// How many cells the last piece had.
    mostly: usize,
    /// Memory for the values of a row.
    room: &'a mut Vec<Value>,
    ghost behind: { IsBehind wanted.now.calendar reached } by { Prim.hlevel props },
}

impl<'a, 'b, V: ElementVisitor> ByInterval<'a, 'b, V> {
    /// None so far.
    pub(crate) fn new(
        wanted: &'a WantedIntervals<'a>,
        folding: &'a mut Folding<'b>,
        out: &'a mut V,
        room: &'a mut Vec<Value>,
    ) -> ByInterval<'a, 'b, V>
        ensures same { result.out.ghost_name ≡ out.entry.ghost_name }
        ensures none { result.out.now ≡ out.old }
        ensures wanted { result.wanted.now ≡ wanted.now }
        ensures fold { result.folding.now ≡ folding.old }
        ensures start { result.reached.span.start ≡ None }
        ensures stands { HasTaken folding.old []
            → Stands (grouping result.wanted.now result.reached.span result.folding.now result.count) [] }
    {
        let reached = wanted.first();
        ByInterval {
            wanted,
            reached,
            folding,
            out,
            count: 0,
            mostly: 1,
            room,
        }
    }

    /// Closes the group that is open, if one is. Tells how many groups there are.
    pub(crate) fn end(&mut self) -> Result<u64, AllocError>
        ensures same { self.new.out.ghost_name ≡ self.old.out.ghost_name }
        ensures count { IfOk result (λ count. count ≡ self.new.count) }
        ensures closed { OnOk result (IsClosed V.took
            (grouping self.old.wanted.now self.old.reached.span self.old.folding.now self.old.count) self.old.out.now
            (grouping self.new.wanted.now self.new.reached.span self.new.folding.now self.new.count) self.new.out.now) }
    {
        self.close()?;
        Ok(self.count)
    }

    // Hands on what the fold makes of the open group, if one is open.
    #[inline(always)]
    fn close(&mut self) -> Result<(), AllocError>
        ensures same { self.new.out.ghost_name ≡ self.old.out.ghost_name }
        ensures reached { self.new.reached ≡ self.old.reached }
        ensures closed { OnOk result (IsClosed V.took
            (grouping self.old.wanted.now self.old.reached.span self.old.folding.now self.old.count) self.old.out.now
            (grouping self.new.wanted.now self.new.reached.span self.new.folding.now self.new.count) self.new.out.now) }
    {
        let Some(start) = self.reached.span.start else {
            return Ok(());
        };
        self.folding.finish_in(&mut *self.room)?;
        let empty = self.folding.no_values();
        let row = Row::of(mem::replace(&mut *self.room, empty));
        self.hand_on(start, &row)?;
        *self.room = row.into_values();
        Ok(())
    }

    // Counts a row, and hands it on unless they are too many.
    fn hand_on(&mut self, start: Stamp, row: &Row) -> Result<(), AllocError>
        ensures same { self.new.out.ghost_name ≡ self.old.out.ghost_name }
        ensures wanted { self.new.wanted.now ≡ self.old.wanted.now }
        ensures reached { self.new.reached ≡ self.old.reached }
        ensures fold { self.new.folding.now ≡ self.old.folding.now }
        ensures count { self.new.count ≡ min (self.old.count + 1) (2 ^ 64 - 1) }
        ensures more { self.old.count ≤ self.new.count }
        ensures taken { OnOk result (self.new.count ≤ most_rows
            → V.took self.old.out.now ((start, row.now) ∷ []) self.new.out.now) }
    {
        self.count = self.count.saturating_add(1);
        if self.count > MOST_ROWS {
            return Ok(());
        }
        self.out.element(start, row)
    }

    // Goes on to the group of an element at a stamp, where it is another, and closes the one before it.
    fn reach(&mut self, stamp: Stamp) -> Result<(), AllocError>
        ensures same { self.new.out.ghost_name ≡ self.old.out.ghost_name }
        ensures ready { OnOk result (IsReady V.took
            (grouping self.old.wanted.now self.old.reached.span self.old.folding.now self.old.count)
            self.old.out.now stamp
            (grouping self.new.wanted.now self.new.reached.span self.new.folding.now self.new.count) self.new.out.now) }
        ensures here { OnOk result (IsBefore stamp self.new.reached.span.end) }
    {
        if is_before(stamp, self.reached.span.end) {
            return Ok(());
        }
        self.close()?;
        let _stamp = stamp.units();
        self.reached = self.wanted.reach(stamp, self.reached);
        Ok(())
    }

    // Folds the rows in cells, where a group is open.
    fn fold(&mut self, kind: &RowType, cells: RowCells<'_>) -> Result<(), AllocError>
        requires { AreRowCells kind.now.columns cells }
        ensures same { self.new.out.ghost_name ≡ self.old.out.ghost_name }
        ensures out { self.new.out.now ≡ self.old.out.now }
        ensures wanted { self.new.wanted.now ≡ self.old.wanted.now }
        ensures span { self.new.reached.span ≡ self.old.reached.span }
        ensures count { self.new.count ≡ self.old.count }
        ensures takes { OnOk result ((found : List (Option TheRow))
            → AreCellsWith kind.now.columns cells.entry.front cells.entry.bytes.now found
            → MayTake self.old.reached.span.start kind.now.columns self.old.folding.now (rows_in found)
            self.new.folding.now) }
    {
        if self.reached.span.start.is_some() {
            self.folding.take_cells(kind, cells)?;
        }
        Ok(())
    }

    // Takes the first of some cells, whose stamp may be known ahead, and with it those behind it that belong to its
    // group; tells which they are.
    fn take_group(
        &mut self,
        kind: &RowType,
        cells: RowCells<'_>,
        stamps: &Stamps<'_>,
        number: usize,
        ahead: Option<Stamp>,
    ) -> Result<Piece, AllocError>
        requires whole { AreRowCells kind.now.columns cells }
        requires some { 0 < cells.left }
        requires near { IsNear stamps.now }
        requires number { number + cells.left < 2 ^ 63 }
        requires ahead { IsAhead stamps.now number ahead }
        ensures same { self.new.out.ghost_name ≡ self.old.out.ghost_name }
        ensures count { IfOk result (λ p. (1 ≤ p.count) × (p.count ≤ cells.entry.left)) }
        ensures next { IfOk result (λ p. IsAhead stamps.now (number + p.count) p.next) }
        ensures took { IfOk result (λ p. (found : List (Option Element))
            → AreCellsWith kind.now.columns cells.entry.front cells.entry.bytes.now (map row_if_any found)
            → AreStamped stamps.now cells.entry.size number cells.entry.bytes.now found
            → AreGrouped V.took kind.now.columns
            (grouping self.old.wanted.now self.old.reached.span self.old.folding.now self.old.count)
            self.old.out.now (elements_in (take p.count found))
            (grouping self.new.wanted.now self.new.reached.span self.new.folding.now self.new.count) self.new.out.now) }
    {
        let (cell, _) = cells.bytes.split_at(cells.size);
        if !is_shown(kind, cell, cells.front) {
            return Ok(Piece {
                count: 1,
                next: None,
            });
        }
        let Some(stamp) = stamp_at(stamps, number, cell, ahead) else {
            return Ok(Piece {
                count: 1,
                next: None,
            });
        };
        self.reach(stamp)?;
        let piece = cells_before(cells, stamps, number, self.reached.span.end, self.mostly);
        self.mostly = piece.count;
        let (part, _) = cells.bytes.split_at(piece.count * cells.size);
        let taken = RowCells {
            size: cells.size,
            front: cells.front,
            left: piece.count,
            bytes: part,
        };
        self.fold(kind, taken)?;
        Ok(piece)
    }
}

// The stamp of the element in a cell of a number, which may be known ahead.
fn stamp_at(stamps: &Stamps<'_>, number: usize, cell: &[u8], ahead: Option<Stamp>) -> Option<Stamp>
    requires near { IsNear stamps.now }
    requires number { number < 2 ^ 63 }
    requires ahead { IsAhead stamps.now number ahead }
    ensures { (stamp : ℤ) → HasStamp stamps.now number cell.now stamp → result ≡ Some stamp }
{
    match ahead {
        Some(stamp) => Some(stamp),
        None => stamps.stamp(number, cell),
    }
}

// Whether an element that isn't hidden stands in a cell, whose row stands behind so many bytes.
fn is_shown(kind: &RowType, cell: &[u8], front: usize) -> bool
    requires some { 0 < front }
    requires front { front ≤ length cell.now }
    ensures { (found : Option TheRow) → IsCellWith kind.now.columns front cell.now found → result ≡ is_seen found }
{
    cell[0] == 1 && !kind.is_hidden(&cell[front..])
}

impl<'a, 'b, V: ElementVisitor> RowVisitor for ByInterval<'a, 'b, V> {
    ghost use Rattle.std.specs.Prelude.{◌≡◌};
    ghost use Rattle.std.proofs.Common.{refl, ◌∙◌};
    ghost use Rattle.ts_aggregate.specs.Groups.{AreGrouped, grouping};
    ghost use Rattle.ts_aggregate.specs.GroupLaws.{grouped_none, grouped_then};

    ghost took = { λ columns v es w. (w.out.ghost_name ≡ v.out.ghost_name)
        × AreGrouped V.took columns (grouping v.wanted.now v.reached.span v.folding.now v.count) v.out.now es
        (grouping w.wanted.now w.reached.span w.folding.now w.count) w.out.now };

    fn rows(
        &mut self,
        kind: &RowType,
        cells: &[u8],
        front: usize,
        stamps: &Stamps<'_>,
    ) -> Result<(), AllocError> {
        if cells.is_empty() {
            return Ok(());
        }
        let size = front + kind.width();
        let mut left = cells.len() / size;
        let mut rest = cells;
        let mut number = 0;
        let mut ahead = None;
        while left > 0 {
            let near = RowCells {
                size,
                front,
                left,
                bytes: rest,
            };
            let piece = self.take_group(kind, near, stamps, number, ahead)?;
            let (_, behind) = rest.split_at(piece.count * size);
            rest = behind;
            left -= piece.count;
            number += piece.count;
            ahead = piece.next;
        }
        Ok(())
    }

    ghost none = { λ columns v. (
      refl,
      grouped_none V.took V.none columns (grouping v.wanted.now v.reached.span v.folding.now v.count)
          v.out.now,
    ) };

    ghost then = { λ columns a b c es fs p q. (
      q.0 ∙ p.0,
      grouped_then V.took V.then columns (grouping a.wanted.now a.reached.span a.folding.now a.count)
          (grouping b.wanted.now b.reached.span b.folding.now b.count)
          (grouping c.wanted.now c.reached.span c.folding.now c.count)
          a.out.now b.out.now c.out.now es fs p.1 q.1,
    ) };
}
