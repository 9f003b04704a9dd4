// Lists of expressions, row types and elements for the tests.
use std::alloc::{AllocError, Global};
use ts_base::{Bytes, Name, Refusal, Stamp, Trouble};
use ts_row::{Column, ColumnKind, Elem, Row, RowType, Value};
use ts_running::{BoundExpr, ExprList};

/// Two integers, a bigint, three decimals and a text.
pub(crate) const COLUMNS: [(&[u8], ColumnKind); 7] = [
    (b"v", ColumnKind::Integer),
    (b"w", ColumnKind::Integer),
    (b"b", ColumnKind::BigInt),
    (
        b"half",
        ColumnKind::Decimal {
            digits: 28,
            scale: 14,
        },
    ),
    (
        b"fine",
        ColumnKind::Decimal {
            digits: 28,
            scale: 28,
        },
    ),
    (
        b"one",
        ColumnKind::Decimal {
            digits: 28,
            scale: 1,
        },
    ),
    (b"t", ColumnKind::VarChar { length: 5 }),
];

// The expressions that the first 65536 bytes of a text write.
pub(crate) fn list(alloc: Global, text: &[u8]) -> Result<ExprList, Trouble> {
    ExprList::read(alloc, &text[..text.len().min(65_536)])
}

// So many bytes of one kind, a text, and so many of another.
pub(crate) fn around(
    alloc: Global,
    before: u8,
    text: &[u8],
    after: u8,
    count: usize,
) -> Result<Bytes, AllocError> {
    let mut made = Bytes::new(alloc);
    for _ in 0..count {
        made.push(before)?;
    }
    made.extend_from_slice(text)?;
    for _ in 0..count {
        made.push(after)?;
    }
    Ok(made)
}

// So many texts with commas between them.
pub(crate) fn joined(alloc: Global, text: &[u8], count: usize) -> Result<Bytes, AllocError> {
    let mut made = Bytes::new(alloc);
    for number in 0..count {
        if number > 0 {
            made.push(b',')?;
        }
        made.extend_from_slice(text)?;
    }
    Ok(made)
}

fn name(alloc: Global, text: &[u8]) -> Result<Name, Trouble> {
    match Name::read(alloc, text)? {
        Some(name) => Ok(name),
        None => Err(Trouble::Refused(Refusal::UnknownName)),
    }
}

// The row type of these columns and of a stamp called `time`.
pub(crate) fn row_type(alloc: Global) -> Result<RowType, Trouble> {
    let mut made = Vec::new(alloc);
    for (text, kind) in &COLUMNS {
        let name = name(alloc, text)?;
        made.push(Column { name, kind: *kind })?;
    }
    let stamp = name(alloc, b"time")?;
    RowType::make(alloc, stamp, made)
}

// The expressions over these columns.
pub(crate) fn bound(alloc: Global, text: &[u8]) -> Result<BoundExpr, Trouble> {
    let kind = row_type(alloc)?;
    list(alloc, text)?.bind(&kind)
}

// A number or NULL, as a value.
fn value(number: Option<i128>) -> Value {
    match number {
        Some(number) => Value::Number(number),
        None => Value::Null,
    }
}

// An element with these numbers in its columns.
pub(crate) fn element(alloc: Global, numbers: &[Option<i128>]) -> Result<Elem, Trouble> {
    let mut values = Vec::new(alloc);
    for number in numbers {
        values.push(value(*number))?;
    }
    let Some(stamp) = Stamp::of(0) else {
        return Err(Trouble::Refused(Refusal::PastEnd));
    };
    Ok(Elem {
        stamp,
        row: Row::of(values),
    })
}

fn is_number(value: &Value, wanted: Option<i128>) -> bool {
    match (value, wanted) {
        (Value::Null, None) => true,
        (Value::Number(number), Some(wanted)) => *number == wanted,
        _ => false,
    }
}

// Whether a visible row has these numbers.
pub(crate) fn is_row(row: &Row, wanted: &[Option<i128>]) -> bool {
    let values = row.values();
    if row.hidden() || values.len() != wanted.len() {
        return false;
    }
    values
        .iter()
        .zip(wanted)
        .all(|(value, wanted)| is_number(value, *wanted))
}
