// What no clause says: each call once, and the limits. What is made is let go of by a call of `drop`, in one place: where
// its function ends in several, or without that call, the proof is many times as long.
use crate::made::def;
use std::alloc::Global;
use std::mem;
use ts_base::StoreFault;
use ts_model::{Def, Defs, FORMAT, Kind, OLD_FORMAT};

// Puts a definition into a slot, unless there is no such slot or the name is taken.
fn put(defs: &mut Defs, slot: u16, def: Def) -> Result<bool, StoreFault> {
    let kind = def.kind();
    if slot >= kind.limit() {
        mem::drop(def);
        return Ok(false);
    }
    match defs.find(kind, def.name()) {
        Some(_) => {
            mem::drop(def);
            Ok(false)
        }
        None => match defs.reserve(kind) {
            Ok(()) => {
                defs.set(kind, slot, Some(def));
                Ok(true)
            }
            Err(error) => {
                mem::drop(def);
                Err(StoreFault::Memory(error))
            }
        },
    }
}

// Puts a definition into the lowest empty slot of its kind, and gives that; none where its name is taken or all are
// filled.
fn add(alloc: Global, defs: &mut Defs, kind: Kind, text: &[u8]) -> Result<Option<u16>, StoreFault> {
    let Some(slot) = defs.vacant(kind) else {
        return Ok(None);
    };
    let def = def(alloc, kind, text)?;
    if put(defs, slot, def)? {
        Ok(Some(slot))
    } else {
        Ok(None)
    }
}

// Adds definitions of a kind with these names.
fn add_all(alloc: Global, defs: &mut Defs, kind: Kind, texts: &[&[u8]]) -> Result<(), StoreFault> {
    for text in texts {
        add(alloc, defs, kind, text)?;
    }
    Ok(())
}

// Definitions of a kind with these names, in the slots from 0 on.
fn defs_of(alloc: Global, kind: Kind, texts: &[&[u8]]) -> Result<Defs, StoreFault> {
    let mut defs = Defs::new(alloc);
    match add_all(alloc, &mut defs, kind, texts) {
        Ok(()) => Ok(defs),
        Err(fault) => {
            mem::drop(defs);
            Err(fault)
        }
    }
}

/// Containers, of which the third has a name that is taken.
static CONTAINERS: [&[u8]; 3] = [b"ab", b"a", b"ab"];

/// Where names are found among them.
static FOUND: [(Kind, &[u8], Option<u16>); 5] = [
    (Kind::Container, b"ab", Some(0)),
    (Kind::Container, b"a", Some(1)),
    (Kind::Container, b"abc", None),
    (Kind::Container, b"b", None),
    (Kind::RowType, b"ab", None),
];

fn are_found(defs: &Defs) -> bool {
    for (kind, text, wanted) in &FOUND {
        if defs.find(*kind, text) != *wanted {
            return false;
        }
    }
    defs.vacant(Kind::Container) == Some(2)
}

fn containers_are_found(alloc: Global) -> bool {
    match defs_of(alloc, Kind::Container, &CONTAINERS) {
        Ok(defs) => {
            let are_found = are_found(&defs);
            mem::drop(defs);
            are_found
        }
        Err(_) => false,
    }
}

#[test]
fn a_name_is_found_whole(rt: HostRuntime) {
    assert!(rt; containers_are_found(rt.alloc()));
}

static SERIES: [&[u8]; 4] = [b"b", b"a", b"ab", b"B"];

// Whether the series are in this order, and this slot is the lowest empty one.
fn are_series(defs: &Defs, order: &[u16], vacant: u16) -> bool {
    defs.in_order(Kind::Series) == order && defs.vacant(Kind::Series) == Some(vacant)
}

// Whether they are as one goes and another fills its slot, the lowest empty one.
fn series_keep_their_order(alloc: Global, defs: &mut Defs) -> Result<bool, StoreFault> {
    let before = are_series(defs, &[3, 1, 2, 0], 4);
    defs.set(Kind::Series, 1, None);
    let between = are_series(defs, &[3, 2, 0], 1) && defs.find(Kind::Series, b"a").is_none();
    let added = add(alloc, defs, Kind::Series, b"c")?;
    Ok(before && between && added == Some(1) && are_series(defs, &[3, 2, 0, 1], 4))
}

fn four_series_do(alloc: Global) -> Result<bool, StoreFault> {
    let mut defs = defs_of(alloc, Kind::Series, &SERIES)?;
    let keep = series_keep_their_order(alloc, &mut defs);
    mem::drop(defs);
    keep
}

#[test]
fn keys_are_in_the_order_of_their_bytes(rt: HostRuntime) {
    assert!(rt; matches!(four_series_do(rt.alloc()), Ok(true)));
}

// Whether the definition in slot 0 is the container of this name, and no other is found.
fn is_second(defs: &Defs) -> bool {
    let Some(def) = defs.get(Kind::Container, 0) else {
        return false;
    };
    def.name() == b"second".as_slice()
        && defs.find(Kind::Container, b"first").is_none()
        && defs.find(Kind::Container, b"second") == Some(0)
        && defs.in_order(Kind::Container) == [0].as_slice()
}

// Puts the container `second` into slot 0, and whether it stands there.
fn put_second(alloc: Global, defs: &mut Defs) -> Result<bool, StoreFault> {
    let second = def(alloc, Kind::Container, b"second")?;
    let is_put = put(defs, 0, second)?;
    Ok(is_put && is_second(defs))
}

static FIRST: [&[u8]; 1] = [b"first"];

fn second_stands_there(alloc: Global) -> Result<bool, StoreFault> {
    let mut defs = defs_of(alloc, Kind::Container, &FIRST)?;
    let stands = put_second(alloc, &mut defs);
    mem::drop(defs);
    stands
}

#[test]
fn a_slot_takes_another_definition(rt: HostRuntime) {
    assert!(rt; matches!(second_stands_there(rt.alloc()), Ok(true)));
}

// A name of four letters.
fn letters(number: u16) -> [u8; 4] {
    [
        b'a' + (number / 512 % 16) as u8,
        b'a' + (number / 64 % 8) as u8,
        b'a' + (number / 8 % 8) as u8,
        b'a' + (number % 8) as u8,
    ]
}

// Adds definitions of a kind, each with a name of its own, until one isn't taken; and how many are.
fn fill(alloc: Global, defs: &mut Defs, kind: Kind) -> Result<u16, StoreFault> {
    for number in 0..4097u16 {
        if add(alloc, defs, kind, &letters(number))?.is_none() {
            return Ok(number);
        }
    }
    Ok(4097)
}

// Whether a kind has no empty slot, and another one has none filled.
fn is_full(defs: &Defs, kind: Kind, other: Kind) -> bool {
    defs.vacant(kind).is_none()
        && defs.vacant(other) == Some(0)
        && defs.find(kind, b"aabc") == Some(10)
}

// The same of definitions that are filled by so many.
fn is_full_by(
    alloc: Global,
    defs: &mut Defs,
    kind: Kind,
    most: u16,
    other: Kind,
) -> Result<bool, StoreFault> {
    let count = fill(alloc, defs, kind)?;
    Ok(count == most && is_full(defs, kind, other))
}

// Whether there may be so many definitions of a kind.
fn are_most(alloc: Global, kind: Kind, most: u16, other: Kind) -> Result<bool, StoreFault> {
    let mut defs = Defs::new(alloc);
    let full = is_full_by(alloc, &mut defs, kind, most, other);
    mem::drop(defs);
    full
}

static MOST: [(Kind, u16, Kind); 4] = [
    (Kind::RowType, 64, Kind::Series),
    (Kind::Pattern, 256, Kind::Calendar),
    (Kind::Calendar, 256, Kind::Pattern),
    (Kind::Series, 4096, Kind::RowType),
];

#[test]
fn there_are_so_many_of_a_kind_at_most(rt: HostRuntime) {
    for (kind, most, other) in &MOST {
        assert!(rt; matches!(are_most(rt.alloc(), *kind, *most, *other), Ok(true)));
    }
}

static KINDS: [Kind; 5] = [
    Kind::RowType,
    Kind::Pattern,
    Kind::Calendar,
    Kind::Container,
    Kind::Series,
];

fn copied(alloc: Global, kind: Kind, text: &[u8]) -> Result<Def, StoreFault> {
    let def = def(alloc, kind, text)?;
    let copy = def.copy();
    mem::drop(def);
    Ok(copy?)
}

// Whether a copy of a definition has its kind and its name.
fn is_copied(alloc: Global, kind: Kind, text: &[u8]) -> bool {
    match copied(alloc, kind, text) {
        Ok(copy) => {
            let is_copied = copy.kind() == kind && copy.name() == text;
            mem::drop(copy);
            is_copied
        }
        Err(_) => false,
    }
}

#[test]
fn a_copy_has_the_same_name(rt: HostRuntime) {
    for kind in &KINDS {
        assert!(rt; is_copied(rt.alloc(), *kind, b"rd"));
    }
}

// Whether a copy of definitions finds what they had, once they lose one.
fn copy_is_apart(defs: &mut Defs) -> Result<bool, StoreFault> {
    let copy = defs.copy()?;
    defs.set(Kind::Container, 0, None);
    let is_apart = are_found(&copy) && !are_found(defs);
    mem::drop(copy);
    Ok(is_apart)
}

fn are_copied(alloc: Global) -> Result<bool, StoreFault> {
    let mut defs = defs_of(alloc, Kind::Container, &CONTAINERS)?;
    let is_apart = copy_is_apart(&mut defs);
    mem::drop(defs);
    is_apart
}

#[test]
fn a_copy_finds_what_there_was(rt: HostRuntime) {
    assert!(rt; matches!(are_copied(rt.alloc()), Ok(true)));
}

// Whether there are series in these two slots alone, in this order, and one more is taken.
fn has_gap(alloc: Global, copy: &mut Defs) -> Result<bool, StoreFault> {
    let same = are_series(copy, &[4095, 3], 0) && copy.get(Kind::Series, 4).is_none();
    let added = add(alloc, copy, Kind::Series, b"c")?;
    Ok(same && added == Some(0) && are_series(copy, &[4095, 3, 0], 1))
}

// Puts series into these two slots, and whether a copy has them alone.
fn put_with_gap(alloc: Global, defs: &mut Defs) -> Result<bool, StoreFault> {
    put(defs, 4095, def(alloc, Kind::Series, b"a")?)?;
    put(defs, 3, def(alloc, Kind::Series, b"b")?)?;
    let mut copy = defs.copy()?;
    let has_gap = has_gap(alloc, &mut copy);
    mem::drop(copy);
    has_gap
}

fn gap_is_copied(alloc: Global) -> Result<bool, StoreFault> {
    let mut defs = Defs::new(alloc);
    let is_copied = put_with_gap(alloc, &mut defs);
    mem::drop(defs);
    is_copied
}

#[test]
fn a_copy_has_the_gap_between_two_slots(rt: HostRuntime) {
    assert!(rt; matches!(gap_is_copied(rt.alloc()), Ok(true)));
}

// Whether a copy has no definition of a kind.
fn copy_is_empty(defs: &Defs, kind: Kind) -> Result<bool, StoreFault> {
    let copy = defs.copy()?;
    let is_empty = copy.in_order(kind).is_empty();
    mem::drop(copy);
    Ok(is_empty)
}

// Whether a copy is full.
fn copy_is_full(defs: &Defs, kind: Kind, other: Kind) -> Result<bool, StoreFault> {
    let copy = defs.copy()?;
    let is_full = is_full(&copy, kind, other);
    mem::drop(copy);
    Ok(is_full)
}

// Whether a copy has no definition of a kind, and once they are filled one has the most and takes no other.
fn copies_follow(
    alloc: Global,
    defs: &mut Defs,
    kind: Kind,
    other: Kind,
) -> Result<bool, StoreFault> {
    let is_empty = copy_is_empty(defs, kind)?;
    fill(alloc, defs, kind)?;
    Ok(is_empty && copy_is_full(defs, kind, other)?)
}

// Whether a copy of so many definitions of a kind, the most or none, has as many and takes no other.
fn most_are_copied(alloc: Global, kind: Kind, other: Kind) -> Result<bool, StoreFault> {
    let mut defs = Defs::new(alloc);
    let follow = copies_follow(alloc, &mut defs, kind, other);
    mem::drop(defs);
    follow
}

#[test]
fn a_copy_is_of_none_or_of_the_most(rt: HostRuntime) {
    for (kind, _, other) in &MOST {
        assert!(rt; matches!(most_are_copied(rt.alloc(), *kind, *other), Ok(true)));
    }
}

// Whether definitions keep their names as they take another format, and that one again.
fn format_is_set(alloc: Global) -> Result<bool, StoreFault> {
    let mut defs = defs_of(alloc, Kind::Container, &CONTAINERS)?;
    let new = defs.format() == FORMAT;
    defs.set_format(OLD_FORMAT);
    let old = defs.format() == OLD_FORMAT && are_found(&defs);
    defs.set_format(FORMAT);
    let again = defs.format() == FORMAT && are_found(&defs);
    mem::drop(defs);
    Ok(new && old && again)
}

#[test]
fn another_format_leaves_the_definitions(rt: HostRuntime) {
    assert!(rt; matches!(format_is_set(rt.alloc()), Ok(true)));
}

#[test]
fn the_types_may_go_to_other_threads() {
    goes_to_threads::<Def>();
    goes_to_threads::<Defs>();
    goes_to_threads::<Kind>();
}

fn goes_to_threads<T: Send + Sync>() {}
