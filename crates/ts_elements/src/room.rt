// What a series may be charged for: its container's quota, less what the other series of the container are charged.
ghost use Rattle.std.specs.Prelude.{◌≡◌, ◌+◌, ◌-◌, ◌≤◌, ◌<◌, ◌^◌, Some, length, min};
ghost use Rattle.ts_base.specs.declared.refusal.Refusal.TheVariants.{ContainerFull};
ghost use Rattle.ts_row.specs.Row.{Heading};
ghost use Rattle.ts_space.specs.Directory.{places_of};
ghost use Rattle.ts_cells.specs.IrregularPage.{page_room};
ghost use Rattle.ts_model.specs.Definitions.{ContainerDef, SeriesDef, container_slots, series_slots, IsDefinitions};
ghost use Rattle.ts_layout.specs.Meaning.{KeepLimits, heading_at};
ghost use Rattle.ts_layout.specs.Charges.{IsCountable, KeepQuotas, charge_in, places_charge};
ghost use Rattle.ts_shelf.specs.Shelf.{IsSeries};
ghost use Rattle.ts_elements.specs.Elements.{IsCharged};
ghost use Rattle.ts_elements.specs.Room.{IsBudget};
ghost use Rattle.ts_elements.specs.Stamps.{charge_with_one};

use ts_base::{Refusal, Stamp};
use ts_cells::page_room;
use ts_container::{Charges, charge_of_places};
use ts_model::{Def, Defs, Kind};
use ts_offset::Shape;
use ts_page::Pages;
use ts_row::Shelf;
use ts_series::charge_with_one;
use ts_space::Space;

/// What the container of a series has for it.
#[derive(Clone, Copy, Debug)]
pub(crate) struct Budget {
    /// What the other series of the container are charged.
    pub others: u64,
    /// What all may be charged together.
    pub quota: u32,
}

/// The budget of a series, by the sum that its container is charged.
pub(crate) fn budget_of(defs: &Defs, space: &Space, charges: &Charges, shelf: &Shelf) -> Budget
    requires slot { shelf.now.series < series_slots }
    requires columns { heading_at defs.now.definitions shelf.now.series ≡ Some shelf.now.kind.now }
    requires limits { KeepLimits defs.now.definitions }
    requires rules { IsDefinitions defs.now.definitions }
    requires charged { IsCharged charges.now defs.now.definitions space.now }
    requires quotas { KeepQuotas defs.now.definitions space.now }
    requires countable { IsCountable (places_of shelf.now.series space.now) }
    ensures within { result.others ≤ result.quota }
    ensures budget { (s : SeriesDef) (c : ContainerDef) (h : Heading)
        → IsSeries shelf.now.series s c h defs.now.definitions
        → IsBudget shelf.now.series s c h defs.now.definitions space.now result.others result.quota }
{
    let Some(
        Def::Series {
            container,
            regular,
            ..
        },
    ) = defs.get(Kind::Series, shelf.series)
    else {
        return Budget {
            others: 0,
            quota: 0,
        };
    };
    let Some(Def::Container { quota, .. }) = defs.get(Kind::Container, *container as u16) else {
        return Budget {
            others: 0,
            quota: 0,
        };
    };
    let all = charge_of(defs, space, charges, *container);
    Budget {
        others: all - charge_now(space, shelf, *regular),
        quota: *quota,
    }
}

// What a container is charged.
fn charge_of(_defs: &Defs, _space: &Space, charges: &Charges, container: u8) -> u64
    requires slot { container < container_slots }
    requires charged { IsCharged charges.now _defs.now.definitions _space.now }
    ensures value { result ≡ charge_in _defs.now.definitions _space.now container }
    ensures bound { result ≤ 65536 }
{
    charges.of(container)
}

// What a series is charged for its places.
fn charge_now(space: &Space, shelf: &Shelf, regular: Option<(u8, Stamp)>) -> u64
    requires slot { shelf.now.series < series_slots }
    requires countable { IsCountable (places_of shelf.now.series space.now) }
    ensures { result ≡ places_charge (page_room shelf.now.kind.now.columns) regular
        (places_of shelf.now.series space.now) }
{
    // A page has room for one row at least, by the greatest width.
    let _width = shelf.kind.width();
    charge_of_places(space, regular, shelf.series, page_room(shelf.kind))
}

/// How many pages a series may be charged for: what is left of the quota, and no more than the spare pages and its own.
pub(crate) fn room_in<P: Pages>(pages: &P, space: &Space, slot: u16, budget: Budget) -> u64
    requires slot { slot < series_slots }
    requires within { budget.others ≤ budget.quota }
    ensures { result
        ≡ min (budget.quota - budget.others) (length (P.contents pages.now).free + length (places_of slot space.now)) }
{
    let left = budget.quota as u64 - budget.others;
    let most = pages.spare() as u64 + space.places(slot).len() as u64;
    left.min(most)
}

/// Why one element more of a series is refused: what its container would be charged, and its quota.
pub(crate) fn refusal_of(budget: Budget, space: &Space, shelf: &Shelf, shape: &Shape<'_>) -> Refusal
    requires slot { shelf.now.series < series_slots }
    requires within { budget.others ≤ budget.quota }
    requires countable { IsCountable (places_of shelf.now.series space.now) }
    ensures { result
        ≡ ContainerFull (budget.others + charge_with_one shape.now shelf.now.kind.now.columns
        (places_of shelf.now.series space.now)) budget.quota }
{
    Refusal::ContainerFull {
        charge: budget.others + charge_with(space, shelf, shape),
        quota: budget.quota,
    }
}

// What a series would be charged for one element more, which on a grid comes on a page of its own.
fn charge_with(space: &Space, shelf: &Shelf, shape: &Shape<'_>) -> u64
    requires slot { shelf.now.series < series_slots }
    requires countable { IsCountable (places_of shelf.now.series space.now) }
    ensures value { result ≡ charge_with_one shape.now shelf.now.kind.now.columns
        (places_of shelf.now.series space.now) }
    ensures bound { result < 2 ^ 34 }
{
    match shape {
        Shape::Irregular => charge_with_one(space, shelf),
        Shape::Regular(_) => space.places(shelf.series).len() as u64 + 1,
    }
}
