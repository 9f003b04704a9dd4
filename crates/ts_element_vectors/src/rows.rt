// What no clause says: the worked bytes and texts, each limit and one beyond it, and each call once.
ghost use Rattle.std.specs.Prelude.{IsTrue};
ghost use Rattle.ts_row.specs.Row.{fits};

use crate::made::{NAMES, columns, name, row_type};
use std::alloc::Global;
use ts_base::{Bytes, Refusal, Stamp, Trouble};
use ts_row::{Column, ColumnKind, Elem, Literal, Row, RowType, Shelf, Value, print_value};

const SMALL: ColumnKind = ColumnKind::SmallInt;

const INTEGER: ColumnKind = ColumnKind::Integer;

const BIG: ColumnKind = ColumnKind::BigInt;

const DECIMAL: ColumnKind = ColumnKind::Decimal {
    digits: 5,
    scale: 2,
};

/// A decimal of the most digits that eight bytes hold, none of them after the point, or all.
const WHOLE: ColumnKind = ColumnKind::Decimal {
    digits: 18,
    scale: 0,
};

const PART: ColumnKind = ColumnKind::Decimal {
    digits: 18,
    scale: 18,
};

/// The same of the most digits of all.
const LONG_WHOLE: ColumnKind = ColumnKind::Decimal {
    digits: 28,
    scale: 0,
};

const LONG_PART: ColumnKind = ColumnKind::Decimal {
    digits: 28,
    scale: 28,
};

const FOUR: ColumnKind = ColumnKind::VarChar { length: 4 };

const LONG: ColumnKind = ColumnKind::VarChar { length: 255 };

/// A value as a row of a table has it: of a number the units, and how many digits are behind the point.
#[derive(Clone, Copy)]
enum Given {
    Null,
    Number(i128, u8),
    Text(&'static [u8]),
}

use Given::{Null, Number, Text};

/// What these print in a column of a kind, each with a blank behind it; `refused` where one fits no row.
const PRINTED: [(ColumnKind, &[Given], &[u8]); 15] = [
    (
        SMALL,
        &[
            Number(32_767, 0),
            Number(-32_767, 0),
            Number(32_768, 0),
            Number(-32_768, 0),
        ],
        b"32767 -32767 refused refused ",
    ),
    (
        INTEGER,
        &[
            Number(2_147_483_647, 0),
            Number(-2_147_483_647, 0),
            Number(2_147_483_648, 0),
            Number(-2_147_483_648, 0),
            Number(10, 1),
        ],
        b"2147483647 -2147483647 refused refused refused ",
    ),
    (
        BIG,
        &[
            Number(9_223_372_036_854_775_807, 0),
            Number(-9_223_372_036_854_775_807, 0),
            Number(9_223_372_036_854_775_808, 0),
            Number(-9_223_372_036_854_775_808, 0),
        ],
        b"9223372036854775807 -9223372036854775807 refused refused ",
    ),
    (FOUR, &[Number(1, 0)], b"refused "),
    (
        DECIMAL,
        &[
            Number(1_234, 1),
            Number(1_250, 3),
            Number(1_255, 3),
            Number(1_000, 0),
            Number(999, 0),
            Number(99_999, 2),
            Number(-99_999, 2),
            Number(100_000, 2),
            Number(-5, 1),
            Number(0, 0),
            Number(0, 255),
            Number(1, 255),
        ],
        b"123.40 1.25 refused refused 999.00 999.99 -999.99 refused -0.50 0.00 0.00 refused ",
    ),
    (
        WHOLE,
        &[
            Number(999_999_999_999_999_999, 0),
            Number(1_000_000_000_000_000_000, 0),
            Number(99_999_999_999_999_999_900_000_000_000_000_000_000, 20),
            Number(99_999_999_999_999_999_999_999_999_999_999_999_999, 0),
        ],
        b"999999999999999999 refused 999999999999999999 refused ",
    ),
    (
        PART,
        &[
            Number(10_000_000_000_000_000_000_000_000_000_000_000_000, 38),
            Number(10_000_000_000_000_000_000_000_000_000_000_000_001, 38),
        ],
        b"0.100000000000000000 refused ",
    ),
    (
        LONG_WHOLE,
        &[
            Number(9_999_999_999_999_999_999_999_999_999, 0),
            Number(-9_999_999_999_999_999_999_999_999_999, 0),
            Number(10_000_000_000_000_000_000_000_000_000, 0),
            Number(-10_000_000_000_000_000_000_000_000_000, 0),
            Number(99_999_999_999_999_999_999_999_999_990_000_000_000, 10),
            Number(99_999_999_999_999_999_999_999_999_999_999_999_999, 0),
            Number(18_446_744_073_709_551_616, 0),
            Number(-18_446_744_073_709_551_617, 0),
        ],
        b"9999999999999999999999999999 -9999999999999999999999999999 refused refused 9999999999999999999999999999 refused 18446744073709551616 -18446744073709551617 ",
    ),
    (
        LONG_PART,
        &[
            Number(10_000_000_000_000_000_000_000_000_000_000_000_000, 38),
            Number(10_000_000_000_000_000_000_000_000_000_000_000_001, 38),
            Number(-1, 28),
            Number(9_999_999_999_999_999_999_999_999_999, 28),
            Number(1, 0),
        ],
        b"0.1000000000000000000000000000 refused -0.0000000000000000000000000001 0.9999999999999999999999999999 refused ",
    ),
    (
        FOUR,
        &[
            Text(b""),
            Text(b"it's"),
            Text(b"''''"),
            Text(b"abcde"),
            Text(b" ~\x80\xff"),
            Text(b"a\x1f"),
            Text(b"\x7f"),
            Null,
        ],
        b"'' 'it''s' '''''''''' refused ' ~\x80\xff' refused refused null ",
    ),
    (LONG, &[Text(&[b'x'; 256])], b"refused "),
    (INTEGER, &[Text(b"1")], b"refused "),
    (SMALL, &[Null], b"null "),
    (BIG, &[Null], b"null "),
    (DECIMAL, &[Null], b"null "),
];

fn literal(alloc: Global, given: Given) -> Option<Literal> {
    match given {
        Null => Some(Literal::Null),
        Number(units, scale) => Some(Literal::Number { units, scale }),
        Text(text) => Some(Literal::Text(Bytes::from_slice(alloc, text).ok()?)),
    }
}

// Prints the row of one value, or `refused` where that fits no row; and a blank.
fn print_one(alloc: Global, row_type: &RowType, given: Given, out: &mut Bytes) -> Option<()> {
    let literal = literal(alloc, given)?;
    match row_type.row_of(&[literal]) {
        Ok(row) => row_type.print(&row, out).ok()?,
        Err(Trouble::Refused(_)) => out.extend_from_slice(b"refused").ok()?,
        Err(Trouble::Memory(_)) => return None,
    }
    out.push(b' ').ok()
}

fn printed(alloc: Global, kind: ColumnKind, givens: &[Given]) -> Option<Bytes> {
    let row_type = row_type(alloc, &[kind]).ok()?;
    let mut out = Bytes::new(alloc);
    for given in givens {
        print_one(alloc, &row_type, *given, &mut out)?;
    }
    Some(out)
}

fn prints(alloc: Global, kind: ColumnKind, givens: &[Given], wanted: &[u8]) -> bool {
    match printed(alloc, kind, givens) {
        Some(out) => out.as_slice() == wanted,
        None => false,
    }
}

#[test]
fn values_fit_their_columns_or_are_refused(rt: HostRuntime) {
    for (kind, givens, wanted) in &PRINTED {
        assert!(rt; prints(rt.alloc(), *kind, givens, wanted));
    }
}

// How many bytes the longest text prints, with a blank behind it.
fn longest(alloc: Global) -> Option<usize> {
    Some(
        printed(alloc, LONG, &[Text(&[b'x'; 255])])?
            .as_slice()
            .len(),
    )
}

#[test]
fn a_text_has_at_most_255_bytes(rt: HostRuntime) {
    assert!(rt; longest(rt.alloc()) == Some(258));
}

const ONE_DIGIT: ColumnKind = ColumnKind::Decimal {
    digits: 1,
    scale: 0,
};

const ONE_PART: ColumnKind = ColumnKind::Decimal {
    digits: 1,
    scale: 1,
};

const DIGITS_19: ColumnKind = ColumnKind::Decimal {
    digits: 19,
    scale: 0,
};

/// Kinds that no column may have.
const NO_DIGIT: ColumnKind = ColumnKind::Decimal {
    digits: 0,
    scale: 0,
};

const DIGITS_29: ColumnKind = ColumnKind::Decimal {
    digits: 29,
    scale: 0,
};

const SCALE_29: ColumnKind = ColumnKind::Decimal {
    digits: 28,
    scale: 29,
};

const SCALE_19: ColumnKind = ColumnKind::Decimal {
    digits: 18,
    scale: 19,
};

const SCALE_5: ColumnKind = ColumnKind::Decimal {
    digits: 4,
    scale: 5,
};

const TEXT_0: ColumnKind = ColumnKind::VarChar { length: 0 };

const TEXT_256: ColumnKind = ColumnKind::VarChar { length: 256 };

const TEXT_65535: ColumnKind = ColumnKind::VarChar { length: 65_535 };

/// Texts for which a row with three of 255 bytes has room, or not.
const TEXT_227: ColumnKind = ColumnKind::VarChar { length: 227 };

const TEXT_228: ColumnKind = ColumnKind::VarChar { length: 228 };

const TEXT_1: ColumnKind = ColumnKind::VarChar { length: 1 };

/// The first column that breaks a rule, of columns with these names and kinds beside the stamp `time`.
const COLUMNS: [(&[&[u8]], &[ColumnKind], Option<u8>); 22] = [
    (&NAMES, &[], Some(1)),
    (&NAMES, &[INTEGER; 32], None),
    (&NAMES, &[INTEGER; 33], Some(33)),
    (&NAMES, &[ONE_DIGIT, ONE_PART, PART], None),
    (&NAMES, &[DIGITS_19, LONG_PART], None),
    (&NAMES, &[INTEGER, DIGITS_29], Some(2)),
    (&NAMES, &[SCALE_29], Some(1)),
    (&NAMES, &[INTEGER, NO_DIGIT], Some(2)),
    (&NAMES, &[SCALE_19], Some(1)),
    (&NAMES, &[SCALE_5, TEXT_0], Some(1)),
    (&NAMES, &[TEXT_1, LONG], None),
    (&NAMES, &[INTEGER, INTEGER, TEXT_256], Some(3)),
    (&NAMES, &[TEXT_0], Some(1)),
    (&NAMES, &[LONG, LONG, LONG, TEXT_227], None),
    (&NAMES, &[LONG, LONG, LONG, TEXT_228], Some(4)),
    (&NAMES, &[LONG, LONG, LONG, LONG, TEXT_0], Some(4)),
    (&NAMES, &[TEXT_65535], Some(1)),
    // A name stands once.
    (&[b"v", b"w"], &[INTEGER; 2], None),
    (&[b"v", b"V"], &[INTEGER; 2], None),
    (&[b"time"], &[INTEGER; 1], Some(1)),
    (&[b"v", b"w", b"v", b"time"], &[INTEGER; 4], Some(3)),
    (&[b"v", b"vv", b"time"], &[INTEGER; 3], Some(3)),
];

// The column for which columns are refused.
fn bad_column(alloc: Global, names: &[&[u8]], kinds: &[ColumnKind]) -> Option<Option<u8>> {
    let stamp = name(alloc, b"time").ok()?;
    match RowType::make(alloc, stamp, columns(alloc, names, kinds).ok()?) {
        Ok(_) => Some(None),
        Err(Trouble::Refused(Refusal::BadRowType { column })) => Some(Some(column)),
        Err(_) => None,
    }
}

#[test]
fn the_first_bad_column_is_told(rt: HostRuntime) {
    for (names, kinds, wanted) in &COLUMNS {
        assert!(rt; bad_column(rt.alloc(), names, kinds) == Some(*wanted));
    }
}

/// The column of an integer and a small one for which these numbers are refused.
const MISMATCHES: [(&[i128], Option<u8>); 6] = [
    (&[1, 2], None),
    (&[], Some(1)),
    (&[1], Some(2)),
    (&[1, 2, 3], Some(3)),
    (&[2_147_483_648, 32_768], Some(1)),
    (&[1, 32_768, 3], Some(2)),
];

fn literals(alloc: Global, numbers: &[i128]) -> Option<Vec<Literal>> {
    let mut literals = Vec::new(alloc);
    for units in numbers {
        let literal = Literal::Number {
            units: *units,
            scale: 0,
        };
        literals.push(literal).ok()?;
    }
    Some(literals)
}

fn mismatch(alloc: Global, numbers: &[i128]) -> Option<Option<u8>> {
    let literals = literals(alloc, numbers)?;
    let row_type = row_type(alloc, &[INTEGER, SMALL]).ok()?;
    match row_type.row_of(literals.as_slice()) {
        Ok(_) => Some(None),
        Err(Trouble::Refused(Refusal::RowMismatch { column })) => Some(Some(column)),
        Err(_) => None,
    }
}

#[test]
fn the_first_column_that_misfits_is_told(rt: HostRuntime) {
    for (numbers, wanted) in &MISMATCHES {
        assert!(rt; mismatch(rt.alloc(), numbers) == Some(*wanted));
    }
}

/// A row, and its text.
const ROW: &[u8] =
    b"\x01\xff\xfe\x01\x00\x00\x00\x05\x01\xff\xff\xff\xff\xff\xff\xff\xff\x01\x00\x00\x00\x00\x00\x00\x01\x2c\x01\x02ab\x00\x00\x00\x00\x00\x00\x00\x00";

const ROW_TEXT: &[u8] = b"-2,5,-1,3.00,'ab',null";

/// A row of decimals with sixteen bytes, and its text.
const LONG_ROW: &[u8] =
    b"\x01\x00\x00\x00\x00\x20\x4f\xce\x5e\x3e\x25\x02\x61\x0f\xff\xff\xff\x01\xff\xff\xff\xff\xdf\xb0\x31\xa1\xc1\xda\xfd\x9e\xf0\x00\x00\x01";

const LONG_ROW_TEXT: &[u8] = b"9999999999999999999999999999,-0.9999999999999999999999999999";

// Whether the bytes of a row are these.
fn is_written(row_type: &RowType, row: &Row, wanted: &[u8]) -> Option<bool>
    requires { IsTrue (fits row_type.now.columns row.now) }
{
    let width = row_type.width();
    if width > 64 {
        return None;
    }
    let mut bytes = [0xaa; 64];
    row_type.encode(row, &mut bytes[..width]);
    Some(&bytes[..width] == wanted)
}

// Whether the text of a row is this.
fn is_printed(alloc: Global, row_type: &RowType, row: &Row, wanted: &[u8]) -> Option<bool> {
    let mut out = Bytes::new(alloc);
    row_type.print(row, &mut out).ok()?;
    Some(out.as_slice() == wanted)
}

// Whether bytes are those of a row, which is written as they are, and has this text.
fn is_row_of(alloc: Global, row_type: &RowType, bytes: &[u8], text: &[u8]) -> Option<bool> {
    let row = row_type.decode(bytes).ok()??;
    let is_written = is_written(row_type, &row, bytes)?;
    Some(is_written && is_printed(alloc, row_type, &row, text)?)
}

fn is_row_again(alloc: Global) -> Option<bool> {
    let row_type = row_type(alloc, &[SMALL, INTEGER, BIG, DECIMAL, FOUR, FOUR]).ok()?;
    is_row_of(alloc, &row_type, ROW, ROW_TEXT)
}

fn is_long_row_again(alloc: Global) -> Option<bool> {
    let row_type = row_type(alloc, &[LONG_WHOLE, LONG_PART]).ok()?;
    is_row_of(alloc, &row_type, LONG_ROW, LONG_ROW_TEXT)
}

#[test]
fn rows_are_their_bytes(rt: HostRuntime) {
    assert!(rt; is_row_again(rt.alloc()) == Some(true));
    assert!(rt; is_long_row_again(rt.alloc()) == Some(true));
}

/// Rows of one column, by their text: their bytes where they are visible, and where they are hidden.
const MARKED: [(ColumnKind, &[u8], &[u8], &[u8]); 5] = [
    (
        INTEGER,
        b"5",
        b"\x01\x00\x00\x00\x05",
        b"\x03\x00\x00\x00\x05",
    ),
    (FOUR, b"null", &[0; 6], b"\x02\x00\x00\x00\x00\x00"),
    (FOUR, b"'ab'", b"\x01\x02ab\x00\x00", b"\x03\x02ab\x00\x00"),
    (
        LONG_WHOLE,
        b"9999999999999999999999999999",
        b"\x01\x00\x00\x00\x00\x20\x4f\xce\x5e\x3e\x25\x02\x61\x0f\xff\xff\xff",
        b"\x03\x00\x00\x00\x00\x20\x4f\xce\x5e\x3e\x25\x02\x61\x0f\xff\xff\xff",
    ),
    (
        LONG_WHOLE,
        b"-9999999999999999999999999999",
        b"\x01\xff\xff\xff\xff\xdf\xb0\x31\xa1\xc1\xda\xfd\x9e\xf0\x00\x00\x01",
        b"\x03\xff\xff\xff\xff\xdf\xb0\x31\xa1\xc1\xda\xfd\x9e\xf0\x00\x00\x01",
    ),
];

// Whether the row with these bytes is hidden, where the bytes and the row tell the same.
fn is_hidden(row_type: &RowType, bytes: &[u8]) -> Option<bool> {
    let row = row_type.decode(bytes).ok()??;
    if row_type.is_hidden(bytes) == row.hidden() {
        Some(row.hidden())
    } else {
        None
    }
}

// Whether the row with these bytes has those others once it is marked, as a row and in its bytes; so has its copy.
fn is_marked(
    alloc: Global,
    row_type: &RowType,
    hidden: bool,
    from: &[u8],
    to: &[u8],
) -> Option<bool> {
    let mut row = row_type.decode(from).ok()??;
    row.mark(hidden);
    let is_written = is_written(row_type, &row, to)?;
    let copy_is_marked = row.copy().ok()?.hidden() == hidden;
    let mut bytes = Vec::from_slice(alloc, from).ok()?;
    row_type.mark(hidden, bytes.as_mut_slice());
    Some(is_written && copy_is_marked && bytes.as_slice() == to)
}

// Whether these are the bytes of one row that is visible and hidden, and this its text.
fn are_both(
    alloc: Global,
    kind: ColumnKind,
    text: &[u8],
    visible: &[u8],
    hidden: &[u8],
) -> Option<bool> {
    let row_type = row_type(alloc, &[kind]).ok()?;
    let are_read = is_row_of(alloc, &row_type, visible, text)?
        && is_row_of(alloc, &row_type, hidden, text)?;
    let are_told = !is_hidden(&row_type, visible)? && is_hidden(&row_type, hidden)?;
    let are_marked = is_marked(alloc, &row_type, true, visible, hidden)?
        && is_marked(alloc, &row_type, false, hidden, visible)?
        && is_marked(alloc, &row_type, true, hidden, hidden)?;
    Some(are_read && are_told && are_marked)
}

#[test]
fn a_hidden_row_has_2_more_in_its_first_byte(rt: HostRuntime) {
    for (kind, text, visible, hidden) in &MARKED {
        assert!(rt; are_both(rt.alloc(), *kind, text, visible, hidden) == Some(true));
    }
}

/// Whether bytes are a row's of these columns.
const ROWS: [(&[ColumnKind], &[u8], bool); 31] = [
    (&[SMALL], b"\x01\x80\x01", true),
    (&[SMALL], b"\x01\x80\x00", false),
    (&[SMALL], b"\x00\x00\x00", true),
    (&[SMALL], b"\x00\x00\x01", false),
    (&[SMALL], b"\x01\x00", false),
    (&[SMALL], b"\x01\x00\x00\x00", false),
    (&[INTEGER], b"\x01\x80\x00\x00\x00", false),
    (&[DECIMAL], b"\x01\x00\x00\x00\x00\x00\x01\x86\x9f", true),
    (&[DECIMAL], b"\x01\x00\x00\x00\x00\x00\x01\x86\xa0", false),
    (&[LONG_WHOLE], &[0; 17], true),
    (&[LONG_WHOLE], &[0; 9], false),
    (
        &[LONG_WHOLE],
        b"\x01\x00\x00\x00\x00\x20\x4f\xce\x5e\x3e\x25\x02\x61\x10\x00\x00\x00",
        false,
    ),
    (&[FOUR], b"\x01\x02ab\x00\x00", true),
    (&[FOUR], b"\x01\x02ab\x00\x01", false),
    (&[FOUR], b"\x01\x05abcd", false),
    (&[FOUR], b"\x01\x02a\x1f\x00\x00", false),
    (&[FOUR], b"\x01\x01\x7f\x00\x00\x00", false),
    (&[FOUR], b"", false),
    // Hidden, and with a first byte past those of hidden rows.
    (&[SMALL], b"\x02\x00\x00", true),
    (&[SMALL], b"\x02\x00\x01", false),
    (&[SMALL], b"\x03\x80\x01", true),
    (&[SMALL], b"\x03\x80\x00", false),
    (&[SMALL], b"\x04\x00\x00", false),
    (&[SMALL], b"\x05\x00\x01", false),
    (&[SMALL], b"\xff\x00\x00", false),
    // The mark stands in the first column alone.
    (&[SMALL, SMALL], b"\x01\x00\x05\x01\x00\x06", true),
    (&[SMALL, SMALL], b"\x03\x00\x05\x01\x00\x06", true),
    (&[SMALL, SMALL], b"\x02\x00\x00\x00\x00\x00", true),
    (&[SMALL, SMALL], b"\x01\x00\x05\x03\x00\x06", false),
    (&[SMALL, SMALL], b"\x01\x00\x05\x02\x00\x00", false),
    (&[SMALL, SMALL], b"\x03\x00\x05\x02\x00\x00", false),
];

// Whether they are, where both calls that tell it agree.
fn is_row(alloc: Global, kinds: &[ColumnKind], bytes: &[u8]) -> Option<bool> {
    let row_type = row_type(alloc, kinds).ok()?;
    let told = row_type.is_row(bytes);
    if row_type.decode(bytes).ok()?.is_some() == told {
        Some(told)
    } else {
        None
    }
}

#[test]
fn bytes_of_no_row_are_refused(rt: HostRuntime) {
    for (kinds, bytes, wanted) in &ROWS {
        assert!(rt; is_row(rt.alloc(), kinds, bytes) == Some(*wanted));
    }
}

// How many bytes stay of some that are no row's, which are marked.
fn marked_length(alloc: Global, bytes: &[u8]) -> Option<usize> {
    let row_type = row_type(alloc, &[SMALL]).ok()?;
    let mut bytes = Vec::from_slice(alloc, bytes).ok()?;
    row_type.mark(true, bytes.as_mut_slice());
    Some(bytes.as_slice().len())
}

#[test]
fn bytes_of_no_row_can_be_marked(rt: HostRuntime) {
    assert!(rt; marked_length(rt.alloc(), b"") == Some(0));
    assert!(rt; marked_length(rt.alloc(), b"\xff\x00") == Some(2));
}

/// The texts of values at a scale.
const AT_SCALES: [(Given, u8, &[u8]); 6] = [
    (Number(0, 0), 0, b"0"),
    (Number(-7, 0), 2, b"-0.07"),
    (Number(48_500_000, 0), 6, b"48.500000"),
    (
        Number(i128::MIN, 0),
        34,
        b"-17014.1183460469231731687303715884105728",
    ),
    (Text(b"'"), 3, b"''''"),
    (Null, 3, b"null"),
];

fn value(alloc: Global, given: Given) -> Option<Value> {
    match given {
        Null => Some(Value::Null),
        Number(units, _) => Some(Value::Number(units)),
        Text(text) => Some(Value::Text(Bytes::from_slice(alloc, text).ok()?)),
    }
}

fn at_scale(alloc: Global, given: Given, scale: u8, wanted: &[u8]) -> Option<bool> {
    if scale > 34 {
        return None;
    }
    let value = value(alloc, given)?.copy().ok()?;
    let mut out = Bytes::new(alloc);
    print_value(alloc, &value, scale, &mut out).ok()?;
    Some(out.as_slice() == wanted)
}

#[test]
fn values_are_printed_at_any_scale(rt: HostRuntime) {
    for (given, scale, wanted) in &AT_SCALES {
        assert!(rt; at_scale(rt.alloc(), *given, *scale, wanted) == Some(true));
    }
}

/// Whether a decimal has over 18 digits, and the bytes of a row.
const WIDTHS: [(&[ColumnKind], bool, usize); 5] = [
    (&[BIG, WHOLE], false, 18),
    (&[LONG_WHOLE], true, 17),
    (&[DIGITS_19], true, 17),
    (&[WHOLE, LONG_WHOLE], true, 26),
    (&[LONG], false, 257),
];

fn has_width(alloc: Global, kinds: &[ColumnKind], long: bool, width: usize) -> Option<bool> {
    let kind = row_type(alloc, kinds).ok()?;
    Some(kind.has_long_decimal() == long && kind.width() == width)
}

#[test]
fn decimals_of_over_18_digits_have_sixteen_bytes(rt: HostRuntime) {
    for (kinds, long, width) in &WIDTHS {
        assert!(rt; has_width(rt.alloc(), kinds, *long, *width) == Some(true));
    }
    assert!(rt; DIGITS_19.is_long() && !WHOLE.is_long());
}

// Whether these are the columns `a` and `b`, a decimal and a text.
fn are_columns(columns: &[Column]) -> bool {
    match columns {
        [a, b] => a.kind == DECIMAL && b.kind == FOUR && b.name.as_slice() == b"b".as_slice(),
        _ => false,
    }
}

fn tells(shelf: &Shelf) -> bool {
    shelf.kind.stamp().as_slice() == b"time".as_slice()
        && shelf.kind.width() == 15
        && are_columns(shelf.kind.columns())
}

// Whether a copy of a row type of a decimal and a text tells its columns.
fn tells_its_columns(alloc: Global) -> Option<bool> {
    let kind = row_type(alloc, &[DECIMAL, FOUR]).ok()?.copy().ok()?;
    Some(tells(&Shelf {
        series: 3,
        kind: &kind,
    }))
}

#[test]
fn a_row_type_tells_its_columns(rt: HostRuntime) {
    assert!(rt; tells_its_columns(rt.alloc()) == Some(true));
}

// How many values the row of an element has.
fn values_of_element(alloc: Global) -> Option<usize> {
    let values = vec![in alloc; Value::Number(1), Value::Null].ok()?;
    let stamp = Stamp::of(0)?;
    let elem = Elem {
        stamp,
        row: Row::of(values).copy().ok()?,
    };
    Some(elem.row.values().len())
}

#[test]
fn an_element_has_the_values_of_its_row(rt: HostRuntime) {
    assert!(rt; values_of_element(rt.alloc()) == Some(2));
}

#[test]
fn the_types_may_go_to_other_threads() {
    goes_to_threads::<Column>();
    goes_to_threads::<ColumnKind>();
    goes_to_threads::<Value>();
    goes_to_threads::<Literal>();
    goes_to_threads::<Row>();
    goes_to_threads::<RowType>();
    goes_to_threads::<Elem>();
    goes_to_threads::<Shelf>();
}

fn goes_to_threads<T: Send + Sync>() {}
