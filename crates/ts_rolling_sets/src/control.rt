// The control of a set.
ghost use Rattle.std.specs.Prelude.{◌≡◌, ◌≤◌, ◌<◌, ◌++◌, codes, IsTrue, IsSome, IfSome, IfOk, IfErr};
ghost use Rattle.ts_model.specs.Definitions.{series_slots, container_slots, at_slot, IsDefinitions};
ghost use Rattle.ts_layout.specs.Meaning.{Layout, AreThere, catalogue_of};
ghost use Rattle.ts_rolling.specs.Sets.{is_set, control_key};
ghost use Rattle.ts_answer.specs.Tried.{IsRefusedAs};
ghost use Rattle.ts_answer.specs.View.{view, IsSeen, IsViewOf};
ghost use Rattle.ts_offset.specs.declared.shape.Shape.TheVariants.{Regular};
ghost use Rattle.ts_shelf.specs.Shelf.{IsShelf};
ghost use Rattle.ts_rolling_sets.specs.InMemory.{IsControlIn, gridded};
ghost use Rattle.ts_rolling_sets.specs.Order.{IsPlace};

use crate::live::{controls_place, first_control};
use ts_base::{Key, Name, Refusal, Trouble};
use ts_model::{Def, Defs, Kind};
use ts_offset::{Grid, Shape};
use ts_page::Pages;
use ts_row::Shelf;
use ts_shelf::shelf_at;
use ts_space::Space;

/// The control of a set: how many windows are kept, its key, its series with its columns, and the grid of the windows.
#[derive(Drop)]
pub(crate) struct Control<'a> {
    pub(crate) kept: u16,
    pub(crate) key: &'a Key,
    pub(crate) shelf: Shelf<'a>,
    pub(crate) grid: Grid<'a>,
}

/// The control of a set, where those of the set stand from a place on; UnknownName where there is none, NotRegular
/// where it has no grid.
pub(crate) fn control_from<'a, P: Pages>(
    pages: &P,
    defs: &'a Defs,
    space: &Space,
    set: &Key,
    place: usize,
) -> Result<Control<'a>, Trouble>
    requires seen { IsSeen P.tells (view defs.now.definitions space.now (P.contents pages.now)) }
    requires set { IsTrue (is_set set.now) }
    requires place { IsPlace defs.now.definitions (set.now ++ codes "#w") place }
    ensures few { IfOk result (λ r. (1 ≤ r.kept) × (r.kept ≤ 1000)) }
    ensures key { IfOk result (λ r. r.key.now ≡ control_key set.now r.kept) }
    ensures found { IfOk result (λ r. IsShelf (Regular r.grid) r.shelf.series r.shelf.kind.now r.key.now
        defs.now.definitions) }
    ensures ok { IfOk result (λ r. (l : Layout)
        → IsViewOf (view defs.now.definitions space.now (P.contents pages.now)) l
        → IsControlIn set.now r.kept r.grid r.shelf.series r.shelf.kind.now l) }
    ensures err { IfErr result (λ trouble. (l : Layout)
        → IsViewOf (view defs.now.definitions space.now (P.contents pages.now)) l
        → IsRefusedAs trouble (gridded set.now (catalogue_of l))) }
{
    let Some(control) = first_control(defs, set, place) else {
        return Err(Trouble::Refused(Refusal::UnknownName));
    };
    let (shelf, shape) = shelf_at(pages, defs, space, control.slot);
    match shape {
        Shape::Regular(grid) => Ok(Control {
            kept: control.kept,
            key: control.key,
            shelf,
            grid,
        }),
        Shape::Irregular => Err(Trouble::Refused(Refusal::NotRegular)),
    }
}

/// The same, wherever they stand.
pub(crate) fn control_of<'a, P: Pages>(
    pages: &P,
    defs: &'a Defs,
    space: &Space,
    set: &Key,
) -> Result<Control<'a>, Trouble>
    requires seen { IsSeen P.tells (view defs.now.definitions space.now (P.contents pages.now)) }
    requires set { IsTrue (is_set set.now) }
    ensures few { IfOk result (λ r. (1 ≤ r.kept) × (r.kept ≤ 1000)) }
    ensures key { IfOk result (λ r. r.key.now ≡ control_key set.now r.kept) }
    ensures found { IfOk result (λ r. IsShelf (Regular r.grid) r.shelf.series r.shelf.kind.now r.key.now
        defs.now.definitions) }
    ensures ok { IfOk result (λ r. (l : Layout)
        → IsViewOf (view defs.now.definitions space.now (P.contents pages.now)) l
        → IsControlIn set.now r.kept r.grid r.shelf.series r.shelf.kind.now l) }
    ensures err { IfErr result (λ trouble. (l : Layout)
        → IsViewOf (view defs.now.definitions space.now (P.contents pages.now)) l
        → IsRefusedAs trouble (gridded set.now (catalogue_of l))) }
{
    let place = controls_place(defs, set);
    control_from(pages, defs, space, set, place)
}

/// The slot and the name of the container of the series in a slot.
pub(crate) fn home_of(defs: &Defs, slot: u16) -> (u8, &Name)
    requires within { slot < series_slots }
    requires rules { AreThere defs.now.definitions }
    requires tables { IsDefinitions defs.now.definitions }
    requires filled { IsSome (at_slot slot defs.now.definitions.series) }
    ensures container { IfSome (at_slot slot defs.now.definitions.series) (λ s. s.container ≡ result.0) }
    ensures name { IfSome (at_slot result.0 defs.now.definitions.containers) (λ c. c.name ≡ result.1.now) }
{
    let container = container_of(defs, slot);
    (container, name_of(defs, container))
}

// The slot of the container of the series in a slot.
fn container_of(defs: &Defs, slot: u16) -> u8
    requires within { slot < series_slots }
    requires filled { IsSome (at_slot slot defs.now.definitions.series) }
    ensures { IfSome (at_slot slot defs.now.definitions.series) (λ s. s.container ≡ result) }
{
    let Some(def) = defs.get(Kind::Series, slot) else {
        unreachable!()
    };
    match def {
        Def::Series { container, .. } => *container,
        _ => unreachable!(),
    }
}

// The name of the container in a slot.
fn name_of(defs: &Defs, slot: u8) -> &Name
    requires within { slot < container_slots }
    requires filled { IsSome (at_slot slot defs.now.definitions.containers) }
    ensures { IfSome (at_slot slot defs.now.definitions.containers) (λ c. c.name ≡ result.now) }
{
    let Some(def) = defs.get(Kind::Container, slot as u16) else {
        unreachable!()
    };
    match def {
        Def::Container { name, .. } => name,
        _ => unreachable!(),
    }
}
