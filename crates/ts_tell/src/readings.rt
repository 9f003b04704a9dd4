// The routines that only read memory. Each says the reply of its command, whatever pages there are.
ghost use Rattle.std.specs.Prelude.{◌≡◌, ◌<◌, ◌≤◌, [], ◌++◌, OnOk, IfOk, length};
ghost use Rattle.std.specs.List.{flat_map};
ghost use Rattle.ts_command.specs.declared.command.Command.TheVariants.{GetNelems, ListSeries, TSContainerUsage};
ghost use Rattle.ts_model.specs.Definitions.{at_slot, series_slots, container_slots};
ghost use Rattle.ts_layout.specs.Meaning.{quota_in};
ghost use Rattle.ts_layout.specs.Charges.{AreCountable};
ghost use Rattle.ts_container.specs.KeptCharges.{AreCharges};
ghost use Rattle.ts_answer.specs.Reply.{series_line};
ghost use Rattle.ts_answer.specs.Reading.{IsKept, IsSaid};
ghost use Rattle.ts_tell.specs.Listed.{listed_at, listed_in};

use std::alloc::AllocError;
use ts_base::{Key, Name, Reply, Trouble};
use ts_container::Charges;
use ts_define::{series_named, slot_named};
use ts_model::{Def, Defs, Kind};
use ts_say::{say_count, say_counts, say_series};
use ts_space::Space;

/// Says how many elements a series has.
pub fn count_elements(defs: &Defs, space: &Space, key: &Key, out: &mut Reply) -> Result<(), Trouble>
    requires kept { IsKept defs.now.definitions space.now }
    requires empty { out.old ≡ [] }
    ensures { IsSaid (GetNelems key.now) result out.new defs.now.definitions space.now }
{
    let slot = series_named(defs, key)?;
    say_count(out, space.count(slot))?;
    Ok(())
}

/// Says what a container is charged, and its quota.
pub fn container_usage(
    defs: &Defs,
    space: &Space,
    charges: &Charges,
    name: &Name,
    out: &mut Reply,
) -> Result<(), Trouble>
    requires kept { IsKept defs.now.definitions space.now }
    requires charged { AreCharges charges.now defs.now.definitions space.now }
    requires empty { out.old ≡ [] }
    ensures { IsSaid (TSContainerUsage name.now) result out.new defs.now.definitions space.now }
{
    let slot = slot_named(defs, Kind::Container, name)?;
    let charge = charges.of(slot as u8);
    say_counts(out, charge, quota_in(defs, slot) as u64)?;
    Ok(())
}

// The quota of the container in a slot; 0 where there is none.
fn quota_in(defs: &Defs, slot: u16) -> u32
    requires { slot < container_slots }
    ensures { result ≡ quota_in (at_slot slot defs.now.definitions.containers) }
{
    match defs.get(Kind::Container, slot) {
        Some(Def::Container { quota, .. }) => *quota,
        _ => 0,
    }
}

/// Lists the series of a container in the order of their keys, whether each is regular, and the numbers of their
/// elements.
pub fn list_series(
    defs: &Defs,
    space: &Space,
    container: &Name,
    out: &mut Reply,
) -> Result<(), Trouble>
    requires kept { IsKept defs.now.definitions space.now }
    requires empty { out.old ≡ [] }
    ensures { IsSaid (ListSeries container.now) result out.new defs.now.definitions space.now }
{
    let slot = slot_named(defs, Kind::Container, container)?;
    let count = say_listed(defs, space, slot, out)?;
    say_count(out, count)?;
    Ok(())
}

// Says each series of the container in a slot, and gives their number.
fn say_listed(
    defs: &Defs,
    space: &Space,
    container: u16,
    out: &mut Reply,
) -> Result<u64, AllocError>
    requires { AreCountable space.now }
    ensures said { OnOk result (out.new ≡ out.old
        ++ flat_map series_line (listed_in defs.now.definitions space.now container)) }
    ensures count { IfOk result (λ n. n ≡ length (listed_in defs.now.definitions space.now container)) }
{
    let mut count = 0;
    for slot in defs.in_order(Kind::Series) {
        count += say_if_listed(defs, space, container, *slot, out)?;
    }
    Ok(count)
}

// Says the series in a slot, if there is one and it stands in the container; and how many that are.
fn say_if_listed(
    defs: &Defs,
    space: &Space,
    container: u16,
    slot: u16,
    out: &mut Reply,
) -> Result<u64, AllocError>
    requires slot { slot < series_slots }
    requires countable { AreCountable space.now }
    ensures said { OnOk result (out.new ≡ out.old
        ++ flat_map series_line (listed_at defs.now.definitions space.now container slot)) }
    ensures count { IfOk result (λ n. n ≡ length (listed_at defs.now.definitions space.now container slot)) }
    ensures one { IfOk result (λ n. n ≤ 1) }
{
    match defs.get(Kind::Series, slot) {
        Some(
            Def::Series {
                key,
                container: own,
                regular,
            },
        ) if *own as u16 == container => {
            say_series(out, key.as_slice(), regular.is_some(), space.count(slot))?;
            Ok(1)
        }
        _ => Ok(0),
    }
}
