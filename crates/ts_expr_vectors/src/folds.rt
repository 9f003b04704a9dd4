// What lists make of rows.
ghost use Rattle.std.specs.Prelude.{IfOk, IsTrue};
ghost use Rattle.ts_row.specs.Row.{fits};
ghost use Rattle.ts_expr.specs.Running.{IsAfter};

use crate::made::{Given, elements, is_row, list, row, row_type};
use Given::{Null, Number};
use std::alloc::{AllocError, Global};
use ts_base::{Refusal, Trouble};
use ts_expr::{Bound, Running};
use ts_row::{ColumnKind, Row};

/// Every function of the column.
const ALL: &[u8] = b"count($v),sum($v),avg($v),min($v),max($v),first($v),last($v)";

/// A decimal of the most digits, none of them after the point.
const WHOLE: ColumnKind = ColumnKind::Decimal {
    digits: 28,
    scale: 0,
};

/// The greatest number of 28 digits.
const NINES: i128 = 9_999_999_999_999_999_999_999_999_999;

/// Values in order of stamps; those with a mark are hidden.
const VALUES: [(Given, bool); 10] = [
    (Number(-100), true),
    (Null, false),
    (Number(3), false),
    (Number(-7), false),
    (Null, false),
    (Number(10), false),
    (Number(1000), true),
    (Number(2), false),
    (Number(1), true),
    (Null, false),
];

/// What every function makes of them.
const MADE: [Given; 7] = [
    Number(4),
    Number(8),
    Number(2_000_000),
    Number(-7),
    Number(10),
    Number(3),
    Number(2),
];

// What every function makes of integers.
fn made(alloc: Global, values: &[(Given, bool)]) -> Result<Row, Trouble> {
    let kind = row_type(alloc, &[(b"v", ColumnKind::Integer)])?;
    let elems = elements(alloc, &kind, values, 0)?;
    if elems.len() > 1000 {
        return Err(Trouble::Refused(Refusal::TooMany));
    }
    let bound = list(alloc, ALL)?.bind(&kind)?;
    Ok(bound.fold(&elems)?)
}

#[test]
fn a_worked_fold(rt: HostRuntime) {
    match made(rt.alloc(), &VALUES) {
        Ok(row) => assert!(rt; is_row(&row, &MADE)),
        Err(_) => panic!(rt; "no fold"),
    }
}

// The fold of one row, so many times.
fn take_often(bound: &Bound, row: &Row, count: u32) -> Result<Running, AllocError>
    requires { IsTrue (fits bound.now.columns row.now) }
    ensures { IfOk result (λ running. IsAfter bound.now.items running count) }
{
    let mut running = bound.start()?;
    for _ in 0..count {
        running.take(bound, row)?;
    }
    Ok(running)
}

// What a list makes of so many rows of the greatest number of 28 digits, taken one after the other.
fn taken(alloc: Global, text: &[u8], count: u32) -> Result<Row, Trouble> {
    let kind = row_type(alloc, &[(b"v", WHOLE)])?;
    let row = row(alloc, &kind, &[Number(NINES)], 0, false)?;
    let bound = list(alloc, text)?.bind(&kind)?;
    let running = take_often(&bound, &row, count)?;
    Ok(running.finish()?)
}

// A million times this sum has more than 128 bits.
#[test]
fn the_mean_of_great_numbers_fits(rt: HostRuntime) {
    let wanted = [
        Number(20_000),
        Number(199_999_999_999_999_999_999_999_999_980_000),
        Number(9_999_999_999_999_999_999_999_999_999_000_000),
    ];
    match taken(rt.alloc(), b"count($v),sum($v),avg($v)", 20_000) {
        Ok(row) => assert!(rt; is_row(&row, &wanted)),
        Err(_) => panic!(rt; "no fold"),
    }
}
