// The slot of a container: 60 bytes.
ghost use Rattle.std.specs.Prelude.{◌≡◌, ◌<◌, ◌≤◌, ◌^◌, ◌∷◌, ◌++◌, ℕ, List, Some, IfOk, IfSome, length};
ghost use Rattle.std.specs.Int.{w32, to_be_bytes};
ghost use Rattle.ts_model.specs.declared.def.Def.{Def};
ghost use Rattle.ts_model.specs.Definitions.{kind_of};
ghost use Rattle.ts_layout.specs.Slot.{padded, name_bytes, container_bytes, def_bytes};
ghost use Rattle.ts_layout.specs.Meaning.{IsDef};

use crate::pad::{pad, read_name, write_name};
use std::alloc::{AllocError, Global};
use ts_base::Name;
use ts_model::{Def, Kind};

/// The most pages of a quota.
const QUOTA: u32 = 65_536;

/// The slots of row types.
const ROW_TYPES: u8 = 64;

/// Writes a container over its slot.
pub(crate) fn write_container(name: &Name, row_type: u8, quota: u32, slot: &mut [u8])
    requires { length slot.old ≡ 60 }
    ensures { slot.new ≡ container_bytes name.now row_type quota }
{
    slot[0] = 1;
    write_named(name, row_type, quota, &mut slot[1..]);
}

// Writes the name and what follows it.
fn write_named(name: &Name, row_type: u8, quota: u32, into: &mut [u8])
    requires { length into.old ≡ 59 }
    ensures { into.new ≡ name_bytes name.now ++ (row_type ∷ padded 25 (to_be_bytes w32 quota)) }
{
    write_name(name, &mut into[..33]);
    write_numbers(row_type, quota, &mut into[33..]);
}

// Writes the slot of the row type and the quota.
fn write_numbers(row_type: u8, quota: u32, into: &mut [u8])
    requires { length into.old ≡ 26 }
    ensures { into.new ≡ row_type ∷ padded 25 (to_be_bytes w32 quota) }
{
    into[0] = row_type;
    pad(&quota.to_be_bytes(), &mut into[1..]);
}

/// The one container whose 60 bytes these may be, in every format.
pub(crate) fn parse_container(alloc: Global, slot: &[u8]) -> Result<Option<Def>, AllocError>
    requires { length slot.now ≡ 60 }
    ensures rules { IfOk result (λ found. IfSome found (λ def. (kind_of def ≡ Kind.Container)
        × ((format : ℕ) → IsDef format def))) }
    ensures found { IfOk result (λ found. (format : ℕ) (def : Def) → kind_of def ≡ Kind.Container → IsDef format def →
        slot.now ≡ def_bytes def → found ≡ Some def) }
{
    let row_type = slot[34];
    let quota = quota_in(slot);
    if row_type >= ROW_TYPES || quota == 0 || quota > QUOTA {
        return Ok(None);
    }
    let Some(name) = read_name(alloc, &slot[1..34])? else {
        return Ok(None);
    };
    Ok(Some(Def::Container {
        name,
        row_type,
        quota,
    }))
}

// The quota in a slot.
fn quota_in(slot: &[u8]) -> u32
    requires { length slot.now ≡ 60 }
    ensures { (name : List ℕ) (row_type quota : ℕ) → length name ≤ 32 → quota < 2 ^ 32
        → slot.now ≡ container_bytes name row_type quota → result ≡ quota }
{
    u32::from_be_bytes([slot[35], slot[36], slot[37], slot[38]])
}
