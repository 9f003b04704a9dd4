// What a put into a set asks for.
ghost use Rattle.std.specs.Prelude.{◌≡◌, ◌<◌, ◌≤◌, ◌++◌, [], not, codes, Ok, EachIndex, IfOk, IfErr, IsSome};
ghost use Rattle.std.specs.Prelude.{IsTrue, slice_index, length};
ghost use Rattle.std.specs.Option.{option_copied};
ghost use Rattle.ts_layout.specs.Meaning.{Layout, catalogue_of};
ghost use Rattle.ts_model.specs.declared.kind.Kind.TheVariants.{Series};
ghost use Rattle.ts_model.specs.Catalogue.{Series as TheSeries, without};
ghost use Rattle.ts_answer.specs.Reply.{count_line};
ghost use Rattle.ts_rolling.specs.Sets.{is_set, a_plan, planned, live};
ghost use Rattle.ts_answer.specs.Elements.{roll_put, put_planned, roll_drop, without_windows};
ghost use Rattle.ts_answer.specs.Answer.{a_row};
ghost use Rattle.ts_answer.specs.Slots.{IsSlotNamed, Stands};
ghost use Rattle.ts_answer.specs.Tried.{IsTried, IsRefusedAs};
ghost use Rattle.ts_answer.specs.View.{view, IsSeen, IsViewOf};
ghost use Rattle.ts_rolling_sets.specs.Near.{key_if};
ghost use Rattle.ts_rolling_sets.specs.Order.{IsPlace};

use crate::control::{Control, control_from, control_of, home_of};
use crate::live::{controls_place, live_windows};
use crate::near::plan_near;
use std::alloc::Global;
use ts_base::{Key, Name, Stamp, Trouble};
use ts_command::Literals;
use ts_model::Defs;
use ts_page::Pages;
use ts_rolling::Plan;
use ts_row::RowType;
use ts_space::Space;

/// What a put asks for: its window, whether that one is to be made and in which container, and the windows that go; and
/// the key of the window where it is there.
#[derive(Drop)]
pub struct PlannedPut<'a> {
    pub plan: Plan,
    pub own: Option<&'a Key>,
    pub container: &'a Name,
}

impl<'a> PlannedPut<'a> {
    /// The key of the window, where it is there and none goes.
    pub fn alone(&self) -> Option<&'a Key>
        ensures own { IsSome result → option_copied result ≡ option_copied self.now.own }
        ensures none { IsSome result → self.now.plan.purge.items ≡ [] }
    {
        if self.plan.purge.is_empty() {
            self.own
        } else {
            None
        }
    }
}

/// Plans a put at a stamp into a set, with all refusals that come before a change.
pub fn plan_put_into<'a, P: Pages>(
    alloc: Global,
    pages: &P,
    defs: &'a Defs,
    space: &Space,
    set: &Key,
    stamp: Stamp,
    values: &Literals,
) -> Result<PlannedPut<'a>, Trouble>
    requires seen { IsSeen P.tells (view defs.now.definitions space.now (P.contents pages.now)) }
    requires set { IsTrue (is_set set.now) }
    ensures own { IfOk result (λ p. option_copied p.own ≡ key_if set.now p.plan.window (not p.plan.attach)) }
    ensures window { IfOk result (λ p. p.plan.window < 1_000_000_000_000) }
    ensures few { IfOk result (λ p. EachIndex p.plan.purge.items
        (λ k. slice_index p.plan.purge.items k < 1_000_000_000_000)) }
    ensures ok { IfOk result (λ p. (l : Layout)
        → IsViewOf (view defs.now.definitions space.now (P.contents pages.now)) l
        → roll_put set.now stamp values.now (catalogue_of l)
        ≡ put_planned set.now p.container.now (a_plan p.plan.window p.plan.attach p.plan.purge.items) stamp values.now
        (catalogue_of l)) }
    ensures err { IfErr result (λ trouble. (l : Layout)
        → IsViewOf (view defs.now.definitions space.now (P.contents pages.now)) l
        → IsRefusedAs trouble (roll_put set.now stamp values.now (catalogue_of l))) }
{
    let place = controls_place(defs, set);
    let control = control_from(pages, defs, space, set, place)?;
    fit(control.shelf.kind, values)?;
    let planned = plan_under(alloc, pages, defs, space, set, place, &control, stamp)?;
    Ok(planned)
}

// Whether literals are a row for some columns, or the first column that misfits.
fn fit(kind: &RowType, values: &Literals) -> Result<(), Trouble>
    ensures { IsTried result (a_row kind.now.columns values.now) (λ done row. Unit {0}) }
{
    kind.row_of(values.as_slice())?;
    Ok(())
}

// Plans it, once the control is known.
fn plan_under<'a, P: Pages>(
    alloc: Global,
    _pages: &P,
    defs: &'a Defs,
    _space: &Space,
    set: &Key,
    place: usize,
    control: &Control<'_>,
    stamp: Stamp,
) -> Result<PlannedPut<'a>, Trouble>
    requires seen { IsSeen P.tells (view defs.now.definitions _space.now (P.contents _pages.now)) }
    requires set { IsTrue (is_set set.now) }
    requires few { (1 ≤ control.now.kept) × (control.now.kept ≤ 1000) }
    requires place { IsPlace defs.now.definitions (set.now ++ codes "#w") place }
    requires there { IsSlotNamed Series control.now.shelf.series control.now.key.now defs.now.definitions }
    ensures own { IfOk result (λ p. option_copied p.own ≡ key_if set.now p.plan.window (not p.plan.attach)) }
    ensures window { IfOk result (λ p. p.plan.window < 1_000_000_000_000) }
    ensures few { IfOk result (λ p. EachIndex p.plan.purge.items
        (λ k. slice_index p.plan.purge.items k < 1_000_000_000_000)) }
    ensures container { IfOk result (λ p. (l : Layout) (series : TheSeries)
        → IsViewOf (view defs.now.definitions _space.now (P.contents _pages.now)) l
        → Stands Series control.now.key.now l control.now.shelf.series series → series.container ≡ p.container.now) }
    ensures ok { IfOk result (λ p. (l : Layout)
        → IsViewOf (view defs.now.definitions _space.now (P.contents _pages.now)) l
        → planned control.now.grid control.now.kept (live set.now p.container.now (catalogue_of l)) stamp
        ≡ Ok (a_plan p.plan.window p.plan.attach p.plan.purge.items)) }
    ensures err { IfErr result (λ trouble. (l : Layout) (series : TheSeries)
        → IsViewOf (view defs.now.definitions _space.now (P.contents _pages.now)) l
        → Stands Series control.now.key.now l control.now.shelf.series series
        → IsRefusedAs trouble
        (planned control.now.grid control.now.kept (live set.now series.container (catalogue_of l)) stamp)) }
{
    let (slot, container) = home_of(defs, control.shelf.series);
    let near = plan_near(
        alloc,
        defs,
        set,
        slot,
        place,
        &control.grid,
        control.kept,
        stamp,
    )?;
    Ok(PlannedPut {
        plan: near.plan,
        own: near.own,
        container,
    })
}

/// What a drop of a set asks for: the key of its control, and the windows that go with it.
#[derive(Drop)]
pub struct PlannedDrop {
    pub control: Key,
    pub windows: Vec<u64>,
}

/// Plans the drop of a set, with its refusals.
pub fn plan_drop_of<P: Pages>(
    alloc: Global,
    pages: &P,
    defs: &Defs,
    space: &Space,
    set: &Key,
) -> Result<PlannedDrop, Trouble>
    requires seen { IsSeen P.tells (view defs.now.definitions space.now (P.contents pages.now)) }
    requires set { IsTrue (is_set set.now) }
    ensures few { IfOk result (λ p. EachIndex p.windows.items
        (λ k. slice_index p.windows.items k < 1_000_000_000_000)) }
    ensures ok { IfOk result (λ p. (l : Layout)
        → IsViewOf (view defs.now.definitions space.now (P.contents pages.now)) l
        → roll_drop set.now (catalogue_of l) ≡ Ok (
          count_line (length p.windows.items),
          without Series p.control (without_windows set.now p.windows.items (catalogue_of l)),
        )) }
    ensures err { IfErr result (λ trouble. (l : Layout)
        → IsViewOf (view defs.now.definitions space.now (P.contents pages.now)) l
        → IsRefusedAs trouble (roll_drop set.now (catalogue_of l))) }
{
    let found = control_of(pages, defs, space, set)?;
    let (slot, _) = home_of(defs, found.shelf.series);
    let windows = live_windows(alloc, defs, set, slot)?;
    let control = found.key.copy()?;
    Ok(PlannedDrop { control, windows })
}
