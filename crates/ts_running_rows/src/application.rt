// One that applies expressions to the elements that it is handed.
ghost use Rattle.std.specs.Prelude.{◌≡◌, [], ◌∷◌, OnOk, false};
ghost use Rattle.ts_row.specs.Row.{Row as TheRow};
ghost use Rattle.ts_running.specs.Binding.{numbers_of};
ghost use Rattle.ts_running_rows.specs.Application.{applier, IsApplied};

use crate::number::numbers_in;
use crate::run::MOST_ROWS;
use std::alloc::AllocError;
use ts_base::Stamp;
use ts_entry::EntryVisitor;
use ts_row::RowType;
use ts_running::{ApplyError, ApplyRoom, BoundExpr, NumbersVisitor};

/// Hands on the values of expressions for each element, until a number has no place. Rows beyond the most of a reply
/// are counted alone.
#[derive(Drop)]
pub(crate) struct AppliedRows<'a, V> {
    exprs: &'a BoundExpr,
    numbers: &'a mut Vec<Option<i128>>,
    room: &'a mut ApplyRoom,
    out: &'a mut V,
    /// How many rows there were.
    pub(crate) count: u64,
    /// Whether a number had no place.
    pub(crate) overflowed: bool,
}

impl<'a, V: NumbersVisitor> AppliedRows<'a, V> {
    /// None so far. The numbers and the room are those of one row at a time.
    pub(crate) fn new(
        exprs: &'a BoundExpr,
        numbers: &'a mut Vec<Option<i128>>,
        room: &'a mut ApplyRoom,
        out: &'a mut V,
    ) -> AppliedRows<'a, V>
        ensures same { result.out.ghost_name ≡ out.entry.ghost_name }
        ensures none { result.out.now ≡ out.old }
        ensures state { applier result.exprs.now result.count result.overflowed ≡ applier exprs.now 0 false }
    {
        AppliedRows {
            exprs,
            numbers,
            room,
            out,
            count: 0,
            overflowed: false,
        }
    }

    // Hands on the values of the expressions for the numbers that were read, or keeps that one has no place.
    fn apply(&mut self, stamp: Stamp) -> Result<(), AllocError>
        requires { self.old.overflowed ≡ false }
        ensures same { self.new.out.ghost_name ≡ self.old.out.ghost_name }
        ensures exprs { self.new.exprs.now ≡ self.old.exprs.now }
        ensures count { self.new.count ≡ self.old.count }
        ensures taken { OnOk result ((row : TheRow) → self.old.numbers.now.items ≡ numbers_of row.values
            → IsApplied V.took self.old.exprs.now (stamp, row) self.old.out.now self.new.overflowed self.new.out.now) }
    {
        match self.exprs.apply_to(self.numbers.as_slice(), self.room) {
            Ok(()) => self.out.numbers(stamp, self.room.numbers()),
            Err(ApplyError::Overflow) => {
                self.overflowed = true;
                Ok(())
            }
            Err(ApplyError::Memory(error)) => Err(error),
        }
    }
}

impl<'a, V: NumbersVisitor> EntryVisitor for AppliedRows<'a, V> {
    ghost use Rattle.std.specs.Prelude.{◌≡◌};
    ghost use Rattle.std.proofs.Common.{refl, ◌∙◌};
    ghost use Rattle.ts_entry.specs.Entry.{elements_of};
    ghost use Rattle.ts_running_rows.specs.Application.{applier, Applies};
    ghost use Rattle.ts_running_rows.specs.ApplicationLaws.{applies_none, applies_then};

    ghost took = { λ columns v es w. (w.out.ghost_name ≡ v.out.ghost_name)
        × Applies V.took (applier v.exprs.now v.count v.overflowed) v.out.now (elements_of es)
        (applier w.exprs.now w.count w.overflowed) w.out.now };

    fn element(&mut self, kind: &RowType, stamp: Stamp, row: &[u8]) -> Result<(), AllocError> {
        self.count = self.count.saturating_add(1);
        if self.overflowed || self.count > MOST_ROWS {
            return Ok(());
        }
        numbers_in(kind, row, self.numbers)?;
        self.apply(stamp)
    }

    fn blank(&mut self, _kind: &RowType, _stamp: Stamp) -> Result<(), AllocError> {
        Ok(())
    }

    ghost none = { λ columns v. (refl, applies_none V.took V.none (applier v.exprs.now v.count v.overflowed) v.out.now) };

    ghost then = { λ columns a b c es fs p q. (
      q.0 ∙ p.0,
      applies_then V.took V.then (applier a.exprs.now a.count a.overflowed) (applier b.exprs.now b.count b.overflowed)
          (applier c.exprs.now c.count c.overflowed) a.out.now b.out.now c.out.now es fs p.1 q.1,
    ) };
}
