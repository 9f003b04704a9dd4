// One that makes running values of the elements that it is handed.
ghost use Rattle.std.specs.Prelude.{◌≡◌, [], ◌∷◌, OnOk, IfOk};
ghost use Rattle.ts_running.specs.Binding.{value_if_any};
ghost use Rattle.ts_running.specs.Places.{made_over};
ghost use Rattle.ts_running_rows.specs.Run.{runner, IsHandedOn};

use crate::number::place_in;
use std::alloc::AllocError;
use ts_base::Stamp;
use ts_entry::EntryVisitor;
use ts_expr::{BoundItem, Function};
use ts_row::RowType;
use ts_running::{NumbersVisitor, Running};

/// The most rows of a reply.
pub(crate) const MOST_ROWS: u64 = 1_000_000;

/// Keeps the window at the last element, and hands on for each what a function makes of it. Rows beyond the most of a
/// reply are counted alone.
#[derive(Drop)]
pub(crate) struct RunningRows<'a, V> {
    window: &'a mut Running,
    item: BoundItem,
    out: &'a mut V,
    /// How many rows there were.
    pub(crate) count: u64,
}

impl<'a, V: NumbersVisitor> RunningRows<'a, V> {
    /// None so far.
    pub(crate) fn new(
        window: &'a mut Running,
        item: BoundItem,
        out: &'a mut V,
    ) -> RunningRows<'a, V>
        ensures same { result.out.ghost_name ≡ out.entry.ghost_name }
        ensures none { result.out.now ≡ out.old }
        ensures state { runner result.window.now result.item result.count ≡ runner window.old item 0 }
    {
        RunningRows {
            window,
            item,
            out,
            count: 0,
        }
    }

    // Counts a row, and hands it on unless they are too many.
    fn hand_on(&mut self, stamp: Stamp) -> Result<(), AllocError>
        ensures same { self.new.out.ghost_name ≡ self.old.out.ghost_name }
        ensures handed { OnOk result
            (IsHandedOn V.took (runner self.old.window.now self.old.item self.old.count) self.old.out.now
            stamp (runner self.new.window.now self.new.item self.new.count) self.new.out.now) }
    {
        self.count = self.count.saturating_add(1);
        if self.count > MOST_ROWS {
            return Ok(());
        }
        let number = self.number();
        self.out.numbers(stamp, &[number])
    }

    // What the function makes of the window.
    fn number(&self) -> Option<i128>
        ensures { value_if_any result ≡ made_over self.now.item.function self.now.window.now.values }
    {
        match self.item.function {
            Function::Sum => self.window.sum(),
            Function::Avg => self.window.mean(),
            _ => None,
        }
    }
}

impl<'a, V: NumbersVisitor> EntryVisitor for RunningRows<'a, V> {
    ghost use Rattle.std.specs.Prelude.{◌≡◌};
    ghost use Rattle.std.proofs.Common.{refl, ◌∙◌};
    ghost use Rattle.ts_entry.specs.Entry.{elements_of};
    ghost use Rattle.ts_running_rows.specs.Run.{runner, Runs};
    ghost use Rattle.ts_running_rows.specs.RunLaws.{runs_none, runs_then};

    ghost took = { λ columns v es w. (w.out.ghost_name ≡ v.out.ghost_name)
        × Runs V.took (runner v.window.now v.item v.count) v.out.now (elements_of es)
        (runner w.window.now w.item w.count) w.out.now };

    fn element(&mut self, kind: &RowType, stamp: Stamp, row: &[u8]) -> Result<(), AllocError> {
        let place = place_in(kind, self.item.column, row);
        self.window.push(place);
        self.hand_on(stamp)
    }

    fn blank(&mut self, _kind: &RowType, _stamp: Stamp) -> Result<(), AllocError> {
        Ok(())
    }

    ghost none = { λ columns v. (refl, runs_none V.took V.none (runner v.window.now v.item v.count) v.out.now) };

    ghost then = { λ columns a b c es fs p q. (
      q.0 ∙ p.0,
      runs_then V.took V.then (runner a.window.now a.item a.count) (runner b.window.now b.item b.count)
          (runner c.window.now c.item c.count) a.out.now b.out.now c.out.now es fs p.1 q.1,
    ) };
}
