// The texts of statements, each put to the end of what was said.
ghost use Rattle.std.specs.Prelude.{◌≡◌, [], ◌∷◌, ◌++◌, OnOk};
ghost use Rattle.std.specs.List.{flat_map};
ghost use Rattle.ts_base.specs.Moment.{stamp_text};
ghost use Rattle.ts_row.specs.Row.{quoted};
ghost use Rattle.ts_dump_texts.specs.Texts.{quoted_before, kind_before, columns_before, row_type_text};
ghost use Rattle.ts_dump_texts.specs.Texts.{pattern_text, calendar_text, container_text, irregular_text};
ghost use Rattle.ts_dump_texts.specs.Texts.{regular_text, element_text, hiding_text};

use std::alloc::{AllocError, Global};
use ts_base::{Bytes, Key, Name, Stamp};
use ts_calendar::CalendarText;
use ts_pattern::Pattern;
use ts_row::{Column, ColumnKind, Row, RowType};
use ts_text::print_number;

/// Puts the text that makes a row type.
pub(crate) fn print_row_type(
    name: &Name,
    row_type: &RowType,
    out: &mut Bytes,
) -> Result<(), AllocError>
    ensures { OnOk result (out.new ≡ out.old ++ row_type_text name.now row_type.now) }
{
    out.extend_from_slice(b"CreateRowType(")?;
    out.extend_from_slice(name.as_slice())?;
    out.extend_from_slice(b", ")?;
    out.extend_from_slice(row_type.stamp().as_slice())?;
    out.extend_from_slice(b" datetime")?;
    print_columns(row_type.columns(), out)?;
    out.extend_from_slice(b");")
}

// Puts columns, a comma before each.
fn print_columns(columns: &[Column], out: &mut Bytes) -> Result<(), AllocError>
    ensures { OnOk result (out.new ≡ out.old ++ columns_before columns.now []) }
{
    let Some((column, columns)) = columns.split_first() else {
        return Ok(());
    };
    out.extend_from_slice(b", ")?;
    out.extend_from_slice(column.name.as_slice())?;
    out.push(b' ')?;
    print_kind(column.kind, out)?;
    print_columns(columns, out)
}

// Puts the type of a value column.
fn print_kind(kind: ColumnKind, out: &mut Bytes) -> Result<(), AllocError>
    ensures { OnOk result (out.new ≡ out.old ++ kind_before kind []) }
{
    match kind {
        ColumnKind::SmallInt => out.extend_from_slice(b"smallint"),
        ColumnKind::Integer => out.extend_from_slice(b"integer"),
        ColumnKind::BigInt => out.extend_from_slice(b"bigint"),
        ColumnKind::Decimal { digits, scale } => {
            out.extend_from_slice(b"decimal(")?;
            print_number(digits as u32, out)?;
            out.push(b',')?;
            print_number(scale as u32, out)?;
            out.push(b')')
        }
        ColumnKind::VarChar { length } => {
            out.extend_from_slice(b"varchar(")?;
            print_number(length as u32, out)?;
            out.push(b')')
        }
    }
}

/// Puts the text that makes a pattern.
pub(crate) fn print_pattern_statement(
    alloc: Global,
    name: &Name,
    pattern: &Pattern,
    out: &mut Bytes,
) -> Result<(), AllocError>
    ensures { OnOk result (out.new ≡ out.old ++ pattern_text name.now pattern.now) }
{
    let mut text = Bytes::new(alloc);
    pattern.print(&mut text)?;
    out.extend_from_slice(b"CreatePattern(")?;
    out.extend_from_slice(name.as_slice())?;
    out.extend_from_slice(b", ")?;
    print_quoted(text.as_slice(), out)?;
    out.extend_from_slice(b");")
}

/// Puts the text that makes a calendar.
pub(crate) fn print_calendar_statement(
    alloc: Global,
    name: &Name,
    calendar: &CalendarText,
    out: &mut Bytes,
) -> Result<(), AllocError>
    ensures { OnOk result (out.new ≡ out.old ++ calendar_text name.now calendar.now) }
{
    let mut text = Bytes::new(alloc);
    calendar.print(alloc, &mut text)?;
    out.extend_from_slice(b"CreateCalendar(")?;
    out.extend_from_slice(name.as_slice())?;
    out.extend_from_slice(b", ")?;
    print_quoted(text.as_slice(), out)?;
    out.extend_from_slice(b");")
}

/// Puts the text that makes a container.
pub(crate) fn print_container(
    name: &Name,
    row_type: &[u8],
    quota: u32,
    out: &mut Bytes,
) -> Result<(), AllocError>
    ensures { OnOk result (out.new ≡ out.old ++ container_text name.now row_type.now quota) }
{
    out.extend_from_slice(b"TSContainerCreate(")?;
    out.extend_from_slice(name.as_slice())?;
    out.extend_from_slice(b", ")?;
    out.extend_from_slice(row_type)?;
    out.extend_from_slice(b", ")?;
    print_number(quota, out)?;
    out.extend_from_slice(b");")
}

/// Puts the text that makes an irregular series.
pub(crate) fn print_irregular(
    key: &Key,
    container: &[u8],
    out: &mut Bytes,
) -> Result<(), AllocError>
    ensures { OnOk result (out.new ≡ out.old ++ irregular_text key.now container.now) }
{
    out.extend_from_slice(b"TSCreateIrr(")?;
    print_quoted(key.as_slice(), out)?;
    out.extend_from_slice(b", ")?;
    out.extend_from_slice(container)?;
    out.extend_from_slice(b");")
}

/// Puts the text that makes a regular series.
pub(crate) fn print_regular(
    key: &Key,
    calendar: &[u8],
    origin: Stamp,
    container: &[u8],
    out: &mut Bytes,
) -> Result<(), AllocError>
    ensures { OnOk result (out.new ≡ out.old ++ regular_text key.now calendar.now origin container.now) }
{
    out.extend_from_slice(b"TSCreate(")?;
    print_quoted(key.as_slice(), out)?;
    out.extend_from_slice(b", ")?;
    out.extend_from_slice(calendar)?;
    out.extend_from_slice(b", ")?;
    print_stamp(origin, out)?;
    out.extend_from_slice(b", ")?;
    out.extend_from_slice(container)?;
    out.extend_from_slice(b");")
}

/// Puts the text that puts an element.
pub(crate) fn print_element(
    key: &[u8],
    stamp: Stamp,
    row_type: &RowType,
    row: &Row,
    out: &mut Bytes,
) -> Result<(), AllocError>
    ensures { OnOk result (out.new ≡ out.old ++ element_text key.now stamp row_type.now.columns row.now) }
{
    out.extend_from_slice(b"InsElem(")?;
    print_quoted(key, out)?;
    out.extend_from_slice(b", ")?;
    print_stamp(stamp, out)?;
    out.push(b',')?;
    row_type.print(row, out)?;
    out.extend_from_slice(b");")
}

/// Puts the text that hides an element.
pub(crate) fn print_hiding(key: &[u8], stamp: Stamp, out: &mut Bytes) -> Result<(), AllocError>
    ensures { OnOk result (out.new ≡ out.old ++ hiding_text key.now stamp) }
{
    out.extend_from_slice(b"HideElem(")?;
    print_quoted(key, out)?;
    out.extend_from_slice(b", ")?;
    print_stamp(stamp, out)?;
    out.extend_from_slice(b");")
}

// Puts a stamp in quotes.
fn print_stamp(stamp: Stamp, out: &mut Bytes) -> Result<(), AllocError>
    ensures { OnOk result (out.new ≡ out.old ++ quoted_before (stamp_text stamp) []) }
{
    let mut text = [0u8; 25];
    stamp.write_into(&mut text);
    out.push(b'\'')?;
    out.extend_from_slice(&text)?;
    out.push(b'\'')
}

// Puts a text in quotes, each quote in it twice.
fn print_quoted(text: &[u8], out: &mut Bytes) -> Result<(), AllocError>
    ensures { OnOk result (out.new ≡ out.old ++ quoted_before text.now []) }
{
    out.push(b'\'')?;
    print_doubled(text, out)?;
    out.push(b'\'')
}

// Puts a text, each quote in it twice; one without a quote in one piece.
fn print_doubled(text: &[u8], out: &mut Bytes) -> Result<(), AllocError>
    ensures { OnOk result (out.new ≡ out.old ++ flat_map quoted text.now) }
{
    if text.contains(&b'\'') {
        return print_each(text, out);
    }
    out.extend_from_slice(text)
}

// Puts a text byte for byte, each quote twice.
fn print_each(text: &[u8], out: &mut Bytes) -> Result<(), AllocError>
    ensures { OnOk result (out.new ≡ out.old ++ flat_map quoted text.now) }
{
    for byte in text {
        if *byte == b'\'' {
            out.push(b'\'')?;
        }
        out.push(*byte)?;
    }
    Ok(())
}
