// Elements that are kept of entries that are handed on.
use std::alloc::Global;
use std::mem;
use std::test::Fail;
use ts_base::{Name, Stamp};
use ts_entry::{EntryVisitor, KeptElements};
use ts_row::{Column, ColumnKind, Elem, RowType, Value};

// A row type of one small number.
fn kind(alloc: Global) -> Result<RowType, Fail> {
    let (Some(stamp), Some(name)) = (Name::read(alloc, b"t")?, Name::read(alloc, b"n")?) else {
        return Err(Fail::from("no name"));
    };
    let mut columns = Vec::new(alloc);
    columns.push(Column {
        name,
        kind: ColumnKind::SmallInt,
    })?;
    Ok(RowType::make(alloc, stamp, columns)?)
}

// Hands an element on.
fn hand(kept: &mut KeptElements, kind: &RowType, units: i64, row: &[u8]) -> Result<(), Fail> {
    let Some(stamp) = Stamp::of(units) else {
        return Err(Fail::from("no stamp"));
    };
    if row.len() != kind.width() {
        return Err(Fail::from("no row"));
    }
    kept.element(kind, stamp, row)?;
    Ok(())
}

// Hands on two elements, a stamp without one between them, and bytes that are no row's.
fn hand_all(kept: &mut KeptElements, kind: &RowType) -> Result<(), Fail> {
    let Some(between) = Stamp::of(15) else {
        return Err(Fail::from("no stamp"));
    };
    hand(kept, kind, 10, &[1, 1, 4])?;
    kept.blank(kind, between)?;
    hand(kept, kind, 20, &[7, 0, 0])?;
    hand(kept, kind, 30, &[0, 0, 0])
}

// What is kept of these.
fn handed(alloc: Global) -> Result<KeptElements, Fail> {
    let kind = kind(alloc)?;
    let mut kept = KeptElements::new(alloc);
    let handed = hand_all(&mut kept, &kind);
    mem::drop(kind);
    handed?;
    Ok(kept)
}

// Whether an element has this stamp and this number, or NULL where there is none.
fn is(elem: &Elem, units: i64, number: Option<i128>) -> bool {
    let found = match elem.row.values() {
        [Value::Number(found)] => number == Some(*found),
        [Value::Null] => number.is_none(),
        _ => false,
    };
    found && elem.stamp.units() == units
}

// Whether these are the two elements.
fn are_both(kept: &[Elem]) -> bool {
    match kept {
        [first, second] => is(first, 10, Some(260)) && is(second, 30, None),
        _ => false,
    }
}

// Whether they are what is kept.
fn are_kept(alloc: Global) -> Result<bool, Fail> {
    let kept = handed(alloc)?;
    let are_both = are_both(kept.as_slice());
    mem::drop(kept);
    Ok(are_both)
}

#[test]
fn elements_are_kept_in_order(rt: HostRuntime) -> Result<(), Fail> {
    assert!(rt; are_kept(rt.alloc())?);
    Ok(())
}
