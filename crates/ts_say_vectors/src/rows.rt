// Entries and rows of series, as a user reads them.
use std::alloc::Global;
use std::test::Fail;
use ts_base::{Name, Reply, Stamp};
use ts_entry::EntryVisitor;
use ts_row::{Column, ColumnKind, RowType};
use ts_say::{DayText, EntryLines, say_joined, say_line};

// A row type with a column of each kind, and one more integer.
fn kinds(alloc: Global) -> Result<RowType, Fail> {
    let Some(stamp) = Name::read(alloc, b"t")? else {
        return Err(Fail::from("no name"));
    };
    let mut columns = Vec::new(alloc);
    let long = ColumnKind::Decimal {
        digits: 20,
        scale: 3,
    };
    let short = ColumnKind::Decimal {
        digits: 5,
        scale: 2,
    };
    let text = ColumnKind::VarChar { length: 5 };
    let all: [(&[u8], ColumnKind); 7] = [
        (b"a", ColumnKind::SmallInt),
        (b"b", ColumnKind::Integer),
        (b"c", ColumnKind::BigInt),
        (b"d", short),
        (b"e", long),
        (b"f", text),
        (b"g", ColumnKind::Integer),
    ];
    for (name, kind) in all {
        let Some(name) = Name::read(alloc, name)? else {
            return Err(Fail::from("no name"));
        };
        columns.push(Column { name, kind })?;
    }
    Ok(RowType::make(alloc, stamp, columns)?)
}

// The bytes of a row of these kinds: -2, 12345, -1, 1.05, -0.007, 'it''s', null.
const ROW: [u8; 55] = [
    1, 255, 254, 1, 0, 0, 48, 57, 1, 255, 255, 255, 255, 255, 255, 255, 255, 1, 0, 0, 0, 0, 0, 0,
    0, 105, 1, 255, 255, 255, 255, 255, 255, 255, 255, 255, 255, 255, 255, 255, 255, 255, 249, 1,
    4, 105, 116, 39, 115, 0, 0, 0, 0, 0, 0,
];

// An element and a stamp without one, on two days, and an element of the last moment before 1970.
fn entries(alloc: Global, out: &mut Reply) -> Result<(), Fail> {
    let kind = kinds(alloc)?;
    let (Some(first), Some(second), Some(third)) = (
        Stamp::of(1),
        Stamp::of(272_605_567_890),
        Stamp::of(-1),
    ) else {
        return Err(Fail::from("no stamp"));
    };
    if kind.width() != ROW.len() {
        return Err(Fail::from("no row"));
    }
    let mut lines = EntryLines::behind(out);
    lines.element(&kind, first, &ROW)?;
    lines.blank(&kind, second)?;
    lines.element(&kind, third, &ROW)?;
    Ok(())
}

#[test]
fn entries_are_said_from_their_bytes(rt: HostRuntime) -> Result<(), Fail> {
    let mut out = Reply::new(rt.alloc());
    entries(rt.alloc(), &mut out)?;
    let wanted: &[u8] = b"1970-01-01 00:00:00.00001 -2,12345,-1,1.05,-0.007,'it''s',null
1970-02-01 13:14:15.67890 none
1969-12-31 23:59:59.99999 -2,12345,-1,1.05,-0.007,'it''s',null
";
    assert!(rt; out.as_slice() == wanted);
    Ok(())
}

// A row type of one integer.
fn integers(alloc: Global) -> Result<RowType, Fail> {
    let (Some(stamp), Some(name)) = (Name::read(alloc, b"t")?, Name::read(alloc, b"n")?) else {
        return Err(Fail::from("no name"));
    };
    let kind = ColumnKind::Integer;
    let columns = vec![in alloc; Column { name, kind }]?;
    Ok(RowType::make(alloc, stamp, columns)?)
}

// A row in a line, and two series at stamps at which one of them has a row.
fn rows(alloc: Global, out: &mut Reply) -> Result<(), Fail> {
    let first = kinds(alloc)?;
    let second = integers(alloc)?;
    let (Some(row), Some(other), Some(stamp)) = (
        first.decode(&ROW)?,
        second.decode(&[1, 255, 255, 255, 255])?,
        Stamp::of(0),
    ) else {
        return Err(Fail::from("no row"));
    };
    let mut day = DayText::first();
    say_line(out, &mut day, &second, stamp, &other)?;
    say_joined(out, &mut day, &second, &first, stamp, None, Some(&row))?;
    say_joined(out, &mut day, &first, &second, stamp, None, Some(&other))?;
    Ok(())
}

#[test]
fn rows_of_two_series_are_said_side_by_side(rt: HostRuntime) -> Result<(), Fail> {
    let mut out = Reply::new(rt.alloc());
    rows(rt.alloc(), &mut out)?;
    let wanted: &[u8] = b"1970-01-01 00:00:00.00000 -1
1970-01-01 00:00:00.00000 null,-2,12345,-1,1.05,-0.007,'it''s',null
1970-01-01 00:00:00.00000 null,null,null,null,null,null,null,-1
";
    assert!(rt; out.as_slice() == wanted);
    Ok(())
}
