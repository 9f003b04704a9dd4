// Lists, row types and elements for the tests.
ghost use Rattle.std.specs.Prelude.{IfOk, IsTrue, All};
ghost use Rattle.ts_row.specs.Row.{fits};

use std::alloc::{AllocError, Global};
use ts_base::{Bytes, Name, Refusal, Stamp, Trouble};
use ts_expr::AggList;
use ts_row::{Column, ColumnKind, Elem, Literal, Row, RowType, Value};

// The list that the first 65536 bytes of a text write.
pub(crate) fn list(alloc: Global, text: &[u8]) -> Result<AggList, Trouble> {
    AggList::read(alloc, &text[..text.len().min(65_536)])
}

// So many items with commas between them.
pub(crate) fn joined(alloc: Global, item: &[u8], count: usize) -> Result<Bytes, AllocError> {
    let mut text = Bytes::new(alloc);
    for number in 0..count {
        if number > 0 {
            text.push(b',')?;
        }
        text.extend_from_slice(item)?;
    }
    Ok(text)
}

fn name(alloc: Global, text: &[u8]) -> Result<Name, Trouble> {
    match Name::read(alloc, text)? {
        Some(name) => Ok(name),
        None => Err(Trouble::Refused(Refusal::UnknownName)),
    }
}

// A row type of these columns and of a stamp called `time`.
pub(crate) fn row_type(alloc: Global, columns: &[(&[u8], ColumnKind)]) -> Result<RowType, Trouble> {
    let mut made = Vec::new(alloc);
    for (text, kind) in columns {
        let name = name(alloc, text)?;
        made.push(Column { name, kind: *kind })?;
    }
    let stamp = name(alloc, b"time")?;
    RowType::make(alloc, stamp, made)
}

/// A value as a table has it: of a number the units of its column.
#[derive(Clone, Copy)]
pub(crate) enum Given {
    Null,
    Number(i128),
    Text(&'static [u8]),
}

// The literal of a value in a column with so many digits after the point.
fn literal(alloc: Global, given: Given, scale: u8) -> Result<Literal, AllocError> {
    match given {
        Given::Null => Ok(Literal::Null),
        Given::Number(units) => Ok(Literal::Number { units, scale }),
        Given::Text(text) => Ok(Literal::Text(Bytes::from_slice(alloc, text)?)),
    }
}

// The row of these values, hidden or visible; their numbers have so many digits after the point.
pub(crate) fn row(
    alloc: Global,
    kind: &RowType,
    values: &[Given],
    scale: u8,
    hidden: bool,
) -> Result<Row, Trouble>
    ensures { IfOk result (λ row. IsTrue (fits kind.now.columns row)) }
{
    let mut literals = Vec::new(alloc);
    for given in values {
        literals.push(literal(alloc, *given, scale)?)?;
    }
    let mut row = kind.row_of(&literals)?;
    row.mark(hidden);
    Ok(row)
}

// Elements of one column, at rising stamps where they are at most a million.
pub(crate) fn elements(
    alloc: Global,
    kind: &RowType,
    given: &[(Given, bool)],
    scale: u8,
) -> Result<Vec<Elem>, Trouble>
    ensures { IfOk result (λ elems. All (λ e. IsTrue (fits kind.now.columns e.row)) elems.items) }
{
    let mut elems = Vec::new(alloc);
    for (number, (value, hidden)) in given.iter().enumerate() {
        let Some(stamp) = Stamp::of((number % 1_000_000) as i64) else {
            return Err(Trouble::Refused(Refusal::PastEnd));
        };
        let row = row(alloc, kind, &[*value], scale, *hidden)?;
        elems.push(Elem { stamp, row })?;
    }
    Ok(elems)
}

fn is_value(value: &Value, wanted: Given) -> bool {
    match (value, wanted) {
        (Value::Null, Given::Null) => true,
        (Value::Number(number), Given::Number(wanted)) => *number == wanted,
        (Value::Text(text), Given::Text(wanted)) => text.as_slice() == wanted,
        _ => false,
    }
}

// Whether a visible row has these values.
pub(crate) fn is_row(row: &Row, wanted: &[Given]) -> bool {
    let values = row.values();
    if row.hidden() || values.len() != wanted.len() {
        return false;
    }
    values
        .iter()
        .zip(wanted)
        .all(|(value, wanted)| is_value(value, *wanted))
}
