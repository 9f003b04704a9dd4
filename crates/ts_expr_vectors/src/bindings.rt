// What lists are bound to: their columns, the digits after their points, and why they aren't.
use crate::made::{list, row_type};
use std::alloc::Global;
use ts_base::{Refusal, Trouble};
use ts_expr::{Bound, BoundItem, Function};
use ts_row::ColumnKind;

/// An integer, a decimal and a text.
const COLUMNS: [(&[u8], ColumnKind); 3] = [
    (b"v", ColumnKind::Integer),
    (
        b"d",
        ColumnKind::Decimal {
            digits: 28,
            scale: 28,
        },
    ),
    (b"t", ColumnKind::VarChar { length: 5 }),
];

fn bound(alloc: Global, text: &[u8]) -> Result<Bound, Trouble> {
    let kind = row_type(alloc, &COLUMNS)?;
    list(alloc, text)?.bind(&kind)
}

/// Lists, and the digits after the points of what their items make.
static SCALES: [(&[u8], &[u8]); 5] = [
    (b"sum($v),avg($v),count($v),min($v)", &[0, 6, 0, 0]),
    (b"sum($d),avg($d),count($d),min($d)", &[28, 34, 0, 28]),
    (b"max($d),first($d),last($d)", &[28, 28, 28]),
    (
        b"count($t),min($t),max($t),first($t),last($t)",
        &[0, 0, 0, 0, 0],
    ),
    (b"AVG($d),AVG($v)", &[34, 6]),
];

#[test]
fn an_item_has_the_digits_of_its_column_and_a_mean_six_more(rt: HostRuntime) {
    for (text, scales) in &SCALES {
        match bound(rt.alloc(), text) {
            Ok(bound) => assert!(rt; bound.scales() == *scales),
            Err(_) => panic!(rt; "not bound"),
        }
    }
}

#[test]
fn an_item_has_the_number_of_its_column(rt: HostRuntime) {
    let Ok(bound) = bound(rt.alloc(), b"last($t),sum($d)") else {
        panic!(rt; "not bound");
    };
    let last = BoundItem {
        function: Function::Last,
        column: 2,
        scale: 0,
    };
    let sum = BoundItem {
        function: Function::Sum,
        column: 1,
        scale: 28,
    };
    assert!(rt; bound.items() == [last, sum].as_slice());
}

/// The mean or the sum of a text.
const TEXT: Refusal = Refusal::BadExpression { place: 0 };

/// Lists, and why they aren't bound.
static BAD: [(&[u8], Refusal); 9] = [
    (b"sum($w)", Refusal::UnknownColumn),
    (b"sum($V)", Refusal::UnknownColumn),
    (b"count($time)", Refusal::UnknownColumn),
    (b"count($w)", Refusal::UnknownColumn),
    (b"sum($t)", TEXT),
    (b"AVG($t)", TEXT),
    (b"sum($w),sum($t)", Refusal::UnknownColumn),
    (b"sum($t),sum($w)", TEXT),
    (b"count($t),sum($v),min($t),avg($t)", TEXT),
];

#[test]
fn the_first_item_that_cannot_be_bound_decides(rt: HostRuntime) {
    for (text, wanted) in &BAD {
        match bound(rt.alloc(), text) {
            Err(Trouble::Refused(why)) => assert!(rt; why == *wanted),
            _ => panic!(rt; "not refused"),
        }
    }
}
