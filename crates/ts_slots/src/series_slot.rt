// The slot of a series: 94 bytes.
ghost use Rattle.std.specs.Prelude.{◌≡◌, ◌≤◌, ◌∷◌, ◌++◌, ℕ, ℤ, List, Option, Some, IfOk, IfSome, length};
ghost use Rattle.ts_model.specs.declared.def.Def.{Def};
ghost use Rattle.ts_model.specs.Definitions.{kind_of};
ghost use Rattle.ts_layout.specs.Slot.{padded, series_code, regular_bytes, series_bytes, def_bytes};
ghost use Rattle.ts_layout.specs.Meaning.{IsDef, IsRegularPart};

use crate::calendar_slot::parse_stamp;
use crate::pad::pad;
use std::alloc::{AllocError, Global};
use ts_base::{Key, Stamp};
use ts_model::{Def, Kind};

/// The slots of containers.
const CONTAINERS: u8 = 64;

/// The most bytes of a key.
const KEY: usize = 64;

/// The first byte of a regular series, and of an irregular one.
const REGULAR: u8 = 1;

const IRREGULAR: u8 = 2;

/// Writes a series over its slot.
pub(crate) fn write_series(key: &Key, container: u8, regular: &Option<(u8, Stamp)>, slot: &mut [u8])
    requires { length slot.old ≡ 94 }
    ensures { slot.new ≡ series_bytes key.now container regular.now }
{
    let key = key.as_slice();
    slot[0] = code(regular);
    slot[1] = key.len() as u8;
    write_key(key, container, regular, &mut slot[2..]);
}

// The first byte of a series.
fn code(regular: &Option<(u8, Stamp)>) -> u8
    ensures { result ≡ series_code regular.now }
{
    match regular {
        Some(_) => REGULAR,
        None => IRREGULAR,
    }
}

// Writes the key and what follows it.
fn write_key(key: &[u8], container: u8, regular: &Option<(u8, Stamp)>, into: &mut [u8])
    requires short { length key.now ≤ 64 }
    requires room { length into.old ≡ 92 }
    ensures { into.new ≡ padded 64 key.now ++ (container ∷ padded 27 (regular_bytes regular.now)) }
{
    pad(key, &mut into[..64]);
    write_container(container, regular, &mut into[64..]);
}

// Writes the slot of the container and what follows it.
fn write_container(container: u8, regular: &Option<(u8, Stamp)>, into: &mut [u8])
    requires { length into.old ≡ 28 }
    ensures { into.new ≡ container ∷ padded 27 (regular_bytes regular.now) }
{
    into[0] = container;
    write_regular(regular, &mut into[1..]);
}

// Writes the slot of the calendar and the origin, where the series is regular.
fn write_regular(regular: &Option<(u8, Stamp)>, into: &mut [u8])
    requires { length into.old ≡ 27 }
    ensures { into.new ≡ padded 27 (regular_bytes regular.now) }
{
    match regular {
        Some((calendar, origin)) => {
            let at = origin.units().to_be_bytes();
            let bytes = [
                *calendar, at[0], at[1], at[2], at[3], at[4], at[5], at[6], at[7],
            ];
            pad(&bytes, into);
        }
        None => pad(&[], into),
    }
}

/// The one series whose 94 bytes these may be, in every format.
pub(crate) fn parse_series(alloc: Global, slot: &[u8]) -> Result<Option<Def>, AllocError>
    requires { length slot.now ≡ 94 }
    ensures rules { IfOk result (λ found. IfSome found (λ def. (kind_of def ≡ Kind.Series)
        × ((format : ℕ) → IsDef format def))) }
    ensures found { IfOk result (λ found. (format : ℕ) (def : Def) → kind_of def ≡ Kind.Series → IsDef format def →
        slot.now ≡ def_bytes def → found ≡ Some def) }
{
    let length = slot[1] as usize;
    let container = slot[66];
    if length > KEY || container >= CONTAINERS {
        return Ok(None);
    }
    let Some(regular) = parse_regular(slot) else {
        return Ok(None);
    };
    let Some(key) = Key::read(alloc, &slot[2..2 + length])? else {
        return Ok(None);
    };
    Ok(Some(Def::Series {
        key,
        container,
        regular,
    }))
}

// The one calendar's slot and origin that a series with these bytes may have, if it is regular and its origin is a
// stamp.
fn parse_regular(slot: &[u8]) -> Option<Option<(u8, Stamp)>>
    requires { length slot.now ≡ 94 }
    ensures rules { IfSome result (λ regular. IfSome regular IsRegularPart) }
    ensures found { (key : List ℕ) (container : ℕ) (regular : Option (ℕ × ℤ)) → length key ≤ 64
        → IfSome regular IsRegularPart →
        slot.now ≡ series_bytes key container regular → result ≡ Some regular }
{
    if slot[0] != REGULAR {
        return Some(None);
    }
    let Some(origin) = parse_stamp(&slot[68..76]) else {
        return None;
    };
    Some(Some((slot[67], origin)))
}
