// What containers are charged for the pages of their series.
ghost use Rattle.std.specs.Prelude.{◌≡◌, ◌<◌, ◌^◌, ◌↔◌, IsTrue, IfOk, MatchBool};
ghost use Rattle.ts_model.specs.Definitions.{container_slots, series_slots, IsDefinitions};
ghost use Rattle.ts_space.specs.Directory.{places_of};
ghost use Rattle.ts_layout.specs.Meaning.{KeepLimits};
ghost use Rattle.ts_layout.specs.Charges.{IsCountable, AreCountable, KeepsQuotaAt, KeepQuotas, places_charge};
ghost use Rattle.ts_container.specs.KeptCharges.{AreCharges};
ghost use Rattle.ts_container.specs.Spans.{IsOverQuota};

use crate::content::row_type_in;
use crate::kept_charges::Charges;
use std::alloc::{AllocError, Global};
use ts_base::Stamp;
use ts_model::{Def, Defs, Kind};
use ts_space::{Space, charge_irregular};

/// Whether no container is charged more than its quota: each series is read once.
pub(crate) fn keep_quotas(alloc: Global, defs: &Defs, space: &Space) -> Result<bool, AllocError>
    requires limits { KeepLimits defs.now.definitions }
    requires rules { IsDefinitions defs.now.definitions }
    requires countable { AreCountable space.now }
    ensures { IfOk result (λ kept. MatchBool kept (KeepQuotas defs.now.definitions space.now)
        (IsOverQuota defs.now.definitions space.now)) }
{
    let mut charges = Charges::new(alloc)?;
    charges.count(defs, space);
    Ok(keep_quotas_by(defs, space, &charges))
}

// The same by what each container is charged.
fn keep_quotas_by(defs: &Defs, space: &Space, charges: &Charges) -> bool
    requires limits { KeepLimits defs.now.definitions }
    requires charged { AreCharges charges.now defs.now.definitions space.now }
    ensures { MatchBool result (KeepQuotas defs.now.definitions space.now)
        (IsOverQuota defs.now.definitions space.now) }
{
    for slot in 0..64 {
        if !keeps_quota(defs, space, charges, slot) {
            return false;
        }
    }
    true
}

// Whether the container in a slot, if there is one, is charged its quota at most.
fn keeps_quota(defs: &Defs, _space: &Space, charges: &Charges, slot: u8) -> bool
    requires slot { slot < container_slots }
    requires limits { KeepLimits defs.now.definitions }
    requires charged { AreCharges charges.now defs.now.definitions _space.now }
    ensures { IsTrue result ↔ KeepsQuotaAt defs.now.definitions _space.now slot }
{
    let Some(Def::Container { quota, .. }) = defs.get(Kind::Container, slot as u16) else {
        return true;
    };
    let Some(_kind) = row_type_in(defs, slot) else {
        return true;
    };
    charges.of(slot) <= *quota as u64
}

/// What a series is charged by its places, in pages: an irregular one by their elements, where a page has room for so
/// many, a regular one, whose calendar and origin are given, a page for each place.
pub fn charge_of_places(space: &Space, regular: Option<(u8, Stamp)>, slot: u16, room: usize) -> u64
    requires slot { slot < series_slots }
    requires room { 0 < room }
    requires countable { IsCountable (places_of slot space.now) }
    ensures value { result ≡ places_charge room regular (places_of slot space.now) }
    ensures bound { result < 2 ^ 33 }
{
    match regular {
        Some(_) => space.places(slot).len() as u64,
        None => charge_irregular(space.count(slot), room as u64),
    }
}
