// Stacks of pages that are written by hand, and what a list makes of each.
use crate::series::integers;
use std::alloc::{AllocError, Global};
use std::mem;
use std::thread::Threads;
use ts_aggregate::{Stack, aggregate_all};
use ts_base::{Stamp, StoreFault, Trouble};
use ts_expr::{AggList, Bound};
use ts_offset::Shape;
use ts_page::{Head, Page};
use ts_parallel::{Gate, MeetGate, OpenGate};
use ts_row::{Row, RowType, Shelf, Value};
use ts_space::Place;

/// How many stacks there are.
const STACKS: u16 = 4096;

/// 0001-01-01 00:00:00.00000
const LEAST: i64 = -6_213_559_680_000_000;

/// 9999-12-31 23:59:59.99999
const GREATEST: i64 = 25_340_230_079_999_999;

// The sum of the only column.
fn sum(alloc: Global, kind: &RowType) -> Result<Bound, Trouble> {
    AggList::read(alloc, b"sum($v)")?.bind(kind)
}

// A byte 1, a stamp, a byte 1 and an integer.
fn cell(stamp: i64, integer: u16) -> [u8; 14] {
    let mut cell = [1; 14];
    cell[1..9].copy_from_slice(&stamp.to_be_bytes());
    cell[10..14].copy_from_slice(&u32::from(integer).to_be_bytes());
    cell
}

// The page of a series: its number once at the least stamp, or also at the greatest.
fn page_of(series: u16, count: u16) -> Page {
    let mut page = Page::zero();
    page.set_head(&Head::Irregular { series, count });
    page.set_cell(0, &cell(LEAST, series));
    if count == 2 {
        page.set_cell(1, &cell(GREATEST, series));
    }
    page
}

// What a place tells of that page.
fn place_of(series: u16) -> Place {
    Place {
        at: LEAST,
        page: 930 + u32::from(series),
        count: series % 3,
    }
}

// The pages of all series: one where the number isn't divided by 3.
fn all_pages(alloc: Global) -> Result<Vec<Page>, AllocError> {
    let mut pages = Vec::new(alloc);
    for series in 0..STACKS {
        let count = series % 3;
        if count > 0 {
            pages.push(page_of(series, count))?;
        }
    }
    Ok(pages)
}

// The stack of a series whose page, if it has one, stands at an index of the list; with the place of that page.
fn stack_of<'a>(kind: &'a RowType, series: u16, first: usize, place: &'a [Place]) -> Stack<'a> {
    let places = if series % 3 > 0 { place } else { &place[..0] };
    Stack {
        shelf: Shelf { series, kind },
        shape: Shape::Irregular,
        places,
        first,
    }
}

// The stacks of all series, each with the place of its own. Of three series two have a page.
fn stacks<'a>(
    alloc: Global,
    kind: &'a RowType,
    places: &'a [Place],
) -> Result<Vec<Stack<'a>>, AllocError> {
    let mut stacks = Vec::new(alloc);
    for (series, place) in (0..STACKS).zip(places.chunks(1)) {
        let first = usize::from(series / 3 * 2 + (series % 3).saturating_sub(1));
        stacks.push(stack_of(kind, series, first, place))?;
    }
    Ok(stacks)
}

// What the sum makes of all stacks. What is made for it is let go of by a call of `drop`, in one place: where its function
// ends in several, or without that call, the proof is many times as long.
fn sums(
    rt: &(impl Threads + Sync),
    alloc: Global,
    gate: &(impl Gate + Sync),
) -> Result<Vec<Row>, StoreFault> {
    let kind = integers(alloc)?;
    let sums = sums_in(rt, alloc, gate, &kind);
    mem::drop(kind);
    sums
}

// The same of rows of this row type.
fn sums_in(
    rt: &(impl Threads + Sync),
    alloc: Global,
    gate: &(impl Gate + Sync),
    kind: &RowType,
) -> Result<Vec<Row>, StoreFault> {
    match sum(alloc, kind) {
        Ok(bound) => {
            let sums = sums_by(rt, alloc, gate, kind, &bound);
            mem::drop(bound);
            sums
        }
        Err(_) => Err(StoreFault::Failed),
    }
}

// The same by a list that is bound.
fn sums_by(
    rt: &(impl Threads + Sync),
    alloc: Global,
    gate: &(impl Gate + Sync),
    kind: &RowType,
    bound: &Bound,
) -> Result<Vec<Row>, StoreFault> {
    let places: Vec<Place> = (0..STACKS).map(place_of).collect(alloc)?;
    sums_over(rt, alloc, gate, kind, bound, &places)
}

// The same over these places.
fn sums_over(
    rt: &(impl Threads + Sync),
    alloc: Global,
    gate: &(impl Gate + Sync),
    kind: &RowType,
    bound: &Bound,
    places: &[Place],
) -> Result<Vec<Row>, StoreFault> {
    let stacks = stacks(alloc, kind, places)?;
    let pages = all_pages(alloc)?;
    sums_of(rt, alloc, gate, bound, &pages, &stacks)
}

// What a list makes of these stacks.
fn sums_of(
    rt: &(impl Threads + Sync),
    alloc: Global,
    gate: &(impl Gate + Sync),
    bound: &Bound,
    pages: &[Page],
    stacks: &[Stack<'_>],
) -> Result<Vec<Row>, StoreFault> {
    let (Some(from), Some(to)) = (Stamp::of(LEAST), Stamp::of(GREATEST)) else {
        return Err(StoreFault::Failed);
    };
    Ok(aggregate_all(rt, alloc, gate, bound, pages, stacks, from, to)?)
}

// Whether a row has this number alone, or NULL.
fn is_sum(row: &Row, wanted: Option<i128>) -> bool {
    match (row.values(), wanted) {
        ([Value::Number(number)], Some(wanted)) => !row.hidden() && *number == wanted,
        ([Value::Null], None) => !row.hidden(),
        _ => false,
    }
}

// What is wanted of a series.
fn wanted(series: u16) -> Option<i128> {
    let times = i128::from(series % 3);
    if times == 0 {
        return None;
    }
    Some(i128::from(series) * times)
}

// Whether these are the rows of all stacks.
fn are_sums(rows: &[Row]) -> bool {
    rows.len() == 4096
        && rows
            .iter()
            .zip(0..STACKS)
            .all(|(row, series)| is_sum(row, wanted(series)))
}

// Whether the last three have these, by hand.
fn ends(rows: &[Row]) -> bool {
    match rows {
        [.., first, second, third] => {
            is_sum(first, Some(4093)) && is_sum(second, Some(8188)) && is_sum(third, None)
        }
        _ => false,
    }
}

// Whether the rows that were made are those of all stacks.
fn are_all(made: Result<Vec<Row>, StoreFault>) -> bool {
    match made {
        Ok(rows) => are_sums(&rows) && ends(&rows),
        Err(_) => false,
    }
}

#[test]
fn each_stack_has_a_row_in_order(rt: HostRuntime) {
    assert!(rt; are_all(sums(&rt, rt.alloc(), &OpenGate)));
}

#[test]
fn two_workers_meet_over_stacks(rt: HostRuntime) {
    let gate = MeetGate::new(0, 4095, 1_000_000_000);
    assert!(rt; are_all(sums(&rt, rt.alloc(), &gate)));
    assert!(rt; gate.met());
}
