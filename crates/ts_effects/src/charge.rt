// What containers are charged, when the places of a series change.
ghost use Rattle.std.specs.Prelude.{◌≡◌, ◌<◌, ◌≤◌, [], IsTrue, IfSome, Option, slice_set};
ghost use Rattle.ts_space.specs.Place.{IsRising};
ghost use Rattle.ts_space.specs.Directory.{places_of, spare_of};
ghost use Rattle.ts_container.specs.KeptCharges.{AreCharges, AreFew};
ghost use Rattle.ts_model.specs.declared.def.Def.{Def as TheDef};
ghost use Rattle.ts_model.specs.Definitions.{Definitions, limit, with_slot};
ghost use Rattle.ts_layout.specs.Meaning.{KeepLimits};
ghost use Rattle.ts_layout.specs.Charges.{IsCountable};
ghost use Rattle.ts_effects.specs.Charged.{CanCount, IsNeverCharged, IsRateOf, places_after};

use std::alloc::Global;
use ts_base::Stamp;
use ts_cells::page_room;
use ts_container::{Charges, a_charge_changes_with_a_series, charge_of_places, row_type_in};
use ts_model::{Def, Defs, Kind};
use ts_space::{Moved, Space};

/// How a series is charged.
#[derive(Drop)]
struct Rate {
    /// The slot of its container.
    container: u8,
    /// Of a regular series, which is charged for its pages, the slot of its calendar and its origin.
    regular: Option<(u8, Stamp)>,
    /// How many of its elements a page has room for.
    room: usize,
}

/// The places of a series change, or all go where no change is told, and its container is charged for them in place of
/// those before.
pub(crate) fn change_places(
    alloc: Global,
    defs: &Defs,
    space: &mut Space,
    charges: &mut Charges,
    slot: u16,
    moved: Option<Moved>,
)
    requires slot { slot < 4096 }
    requires room { IfSome moved (λ moved. 2 ≤ spare_of slot space.old) }
    requires rising { IsRising (places_after moved (places_of slot space.old)) }
    requires countable { IsCountable (places_after moved (places_of slot space.old)) }
    requires can { CanCount defs.now.definitions space.old.lists }
    requires few { AreFew defs.now.definitions space.old }
    requires charged { AreCharges charges.old defs.now.definitions space.old }
    ensures places { places_of slot space.new ≡ places_after moved (places_of slot space.old) }
    ensures lists { space.new.lists ≡ slice_set space.old.lists slot (places_after moved (places_of slot space.old)) }
    ensures charged { AreCharges charges.new defs.now.definitions space.new }
{
    let Some(rate) = rate_of(defs, slot) else {
        exchange(alloc, space, slot, moved);
        charges.count(defs, space);
        return;
    };
    // The law of that change; and there is a sum for each container.
    a_charge_changes_with_a_series();
    let _slots = charges.of(rate.container);
    let before = charge_of_places(space, rate.regular, slot, rate.room);
    exchange(alloc, space, slot, moved);
    let after = charge_of_places(space, rate.regular, slot, rate.room);
    charges.change(rate.container, before, after);
}

/// All places of a series go with their memory, and its container is charged nothing for it any more. Where it has none
/// nothing is touched: the directory doesn't grow up to its slot, and what memory an emptied list has it keeps.
pub(crate) fn drop_places(
    alloc: Global,
    defs: &Defs,
    space: &mut Space,
    charges: &mut Charges,
    slot: u16,
)
    requires slot { slot < 4096 }
    requires can { CanCount defs.now.definitions space.old.lists }
    requires few { AreFew defs.now.definitions space.old }
    requires charged { AreCharges charges.old defs.now.definitions space.old }
    ensures places { places_of slot space.new ≡ [] }
    ensures lists { space.new.lists ≡ slice_set space.old.lists slot [] }
    ensures charged { AreCharges charges.new defs.now.definitions space.new }
{
    if is_never_charged(space, Kind::Series, slot) {
        return;
    }
    change_places(alloc, defs, space, charges, slot, None);
}

/// A definition came or went: what containers are charged is right again. A pattern, a calendar and a series without
/// places change nothing.
pub(crate) fn charge_definition(
    defs: &Defs,
    space: &Space,
    charges: &mut Charges,
    kind: Kind,
    slot: u16,
)
    requires slot { slot < limit kind }
    requires can { CanCount defs.now.definitions space.now.lists }
    ensures { (d : Definitions) (def : Option TheDef) → defs.now.definitions ≡ with_slot kind slot def d
        → AreCharges charges.old d space.now
        → AreCharges charges.new defs.now.definitions space.now }
{
    if is_never_charged(space, kind, slot) {
        return;
    }
    charges.count(defs, space);
}

// Whether no charge depends on a definition: that of a pattern or a calendar, or of a series that has no place.
fn is_never_charged(space: &Space, kind: Kind, slot: u16) -> bool
    requires slot { slot < limit kind }
    ensures { IsTrue result → IsNeverCharged kind slot space.now }
{
    match kind {
        Kind::Pattern | Kind::Calendar => true,
        Kind::Series => space.places(slot).is_empty(),
        Kind::RowType | Kind::Container => false,
    }
}

// The places of a series change, or all go with their memory.
fn exchange(alloc: Global, space: &mut Space, slot: u16, moved: Option<Moved>)
    requires slot { slot < 4096 }
    requires room { IfSome moved (λ moved. 2 ≤ spare_of slot space.old) }
    requires rising { IsRising (places_after moved (places_of slot space.old)) }
    ensures places { places_of slot space.new ≡ places_after moved (places_of slot space.old) }
    ensures lists { space.new.lists ≡ slice_set space.old.lists slot (places_after moved (places_of slot space.old)) }
{
    match moved {
        Some(moved) => space.splice(slot, &moved),
        None => space.restore(slot, Vec::new(alloc)),
    }
}

// How the series in a slot is charged; nothing where there is none.
fn rate_of(defs: &Defs, slot: u16) -> Option<Rate>
    requires slot { slot < 4096 }
    requires limits { KeepLimits defs.now.definitions }
    ensures { IfSome result (IsRateOf slot defs.now.definitions) }
{
    let Some(
        Def::Series {
            container,
            regular,
            ..
        },
    ) = defs.get(Kind::Series, slot)
    else {
        return None;
    };
    let Some(kind) = row_type_in(defs, *container) else {
        return None;
    };
    Some(Rate {
        container: *container,
        regular: *regular,
        room: page_room(kind),
    })
}
