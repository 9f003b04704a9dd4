// Names, row types and rows for the tests.
ghost use Rattle.std.specs.Prelude.{IfOk, IsTrue};
ghost use Rattle.ts_row.specs.Row.{fits};

use std::alloc::Global;
use ts_base::{Name, StoreFault};
use ts_row::{Column, ColumnKind, Literal, Row, RowType};

/// As many names of columns as no row type has.
pub(crate) const NAMES: [&[u8]; 33] = [
    b"a", b"b", b"c", b"d", b"e", b"f", b"g", b"h", b"i", b"j", b"k", b"l", b"m", b"n", b"o", b"p",
    b"q", b"r", b"s", b"t", b"u", b"v", b"w", b"x", b"y", b"z", b"A", b"B", b"C", b"D", b"E", b"F",
    b"G",
];

pub(crate) fn name(alloc: Global, text: &[u8]) -> Result<Name, StoreFault> {
    match Name::read(alloc, text)? {
        Some(name) => Ok(name),
        None => Err(StoreFault::Failed),
    }
}

// Columns of these names and kinds, as far as both go.
pub(crate) fn columns(
    alloc: Global,
    names: &[&[u8]],
    kinds: &[ColumnKind],
) -> Result<Vec<Column>, StoreFault> {
    let mut columns = Vec::new(alloc);
    for (text, kind) in names.iter().zip(kinds) {
        let name = name(alloc, text)?;
        columns.push(Column { name, kind: *kind })?;
    }
    Ok(columns)
}

// A row type of these columns, and of this name for the stamp.
fn row_type_of(
    alloc: Global,
    stamp: &[u8],
    names: &[&[u8]],
    kinds: &[ColumnKind],
) -> Result<RowType, StoreFault> {
    let stamp = name(alloc, stamp)?;
    match RowType::make(alloc, stamp, columns(alloc, names, kinds)?) {
        Ok(made) => Ok(made),
        Err(_) => Err(StoreFault::Failed),
    }
}

// A row type of these kinds.
pub(crate) fn row_type(alloc: Global, kinds: &[ColumnKind]) -> Result<RowType, StoreFault> {
    row_type_of(alloc, b"time", &NAMES, kinds)
}

// A row type of one integer.
pub(crate) fn integers(alloc: Global) -> Result<RowType, StoreFault> {
    row_type_of(alloc, b"t", &[b"v"], &[ColumnKind::Integer])
}

// The row of an integer.
pub(crate) fn integer_row(kind: &RowType, integer: i128) -> Result<Row, StoreFault>
    ensures { IfOk result (λ row. IsTrue (fits kind.now.columns row)) }
{
    let literal = Literal::Number {
        units: integer,
        scale: 0,
    };
    match kind.row_of(&[literal]) {
        Ok(row) => Ok(row),
        Err(_) => Err(StoreFault::Failed),
    }
}
