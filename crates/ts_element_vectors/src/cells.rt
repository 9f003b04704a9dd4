// What no clause says: the worked bytes, and pages that are none.
ghost use Rattle.std.specs.Prelude.{IsTrue};
ghost use Rattle.ts_row.specs.Row.{fits};

use crate::made::{integer_row, integers, row_type};
use std::alloc::Global;
use ts_base::Stamp;
use ts_cells::{
    Extent, cell_size, extent_of, is_hidden_cell, mark_cell, page_room, stamp_of_cell, write_cell,
};
use ts_page::{HEAD, Head, Page};
use ts_row::{ColumnKind, Row, RowType};

/// 2011-01-03 00:00:00.
const DAY_3: i64 = 129_401_280_000_000;

/// The integer 5 at that time.
const CELL: [u8; 14] = [1, 0, 0, 0x75, 0xb0, 0x95, 0x53, 0xf0, 0, 1, 0, 0, 0, 5];

const LONG: ColumnKind = ColumnKind::VarChar { length: 255 };

// Puts an element into a cell of a page, if there is room.
fn put(kind: &RowType, number: usize, stamp: Stamp, row: &Row, page: &mut Page)
    requires { IsTrue (fits kind.now.columns row.now) }
{
    if number < page_room(kind) {
        let size = cell_size(kind);
        let at = HEAD + number * size;
        write_cell(kind, stamp, row, &mut page.bytes[at..at + size]);
    }
}

// A page with the integer 5 at each of these units behind the third day, in this order, as far as there is room.
fn page_of(alloc: Global, units: &[u16]) -> Option<Page> {
    let kind = integers(alloc).ok()?;
    let five = integer_row(&kind, 5).ok()?;
    let mut page = Page::zero();
    page.set_head(&Head::Irregular {
        series: 7,
        count: (units.len() % 1000) as u16,
    });
    for (number, at) in units.iter().enumerate() {
        let stamp = Stamp::of(DAY_3 + *at as i64)?;
        put(&kind, number, stamp, &five, &mut page);
    }
    Some(page)
}

fn has_cell(page: Option<Page>) -> bool {
    match page {
        Some(page) => &page.bytes[32..46] == CELL.as_slice(),
        None => false,
    }
}

#[test]
fn a_cell_has_the_bytes_of_the_format(rt: HostRuntime) {
    assert!(rt; has_cell(page_of(rt.alloc(), &[0])));
}

/// The units of the stamp in that cell with another byte. A hidden row has a stamp too. No cell: another flag, a stamp
/// past the year 9999, and a first byte of no row.
const BYTES: [(usize, u8, Option<i64>); 5] = [
    (0, 1, Some(DAY_3)),
    (9, 3, Some(DAY_3)),
    (0, 2, None),
    (1, 0x7f, None),
    (9, 4, None),
];

fn stamp_with(kind: &RowType, at: usize, byte: u8) -> Option<i64> {
    if at >= 14 || cell_size(kind) != 14 {
        return None;
    }
    let mut cell = CELL;
    cell[at] = byte;
    Some(stamp_of_cell(kind, &cell)?.units())
}

// Whether the stamps in the cells are these.
fn are_judged(alloc: Global) -> Option<bool> {
    let kind = integers(alloc).ok()?;
    for (at, byte, wanted) in &BYTES {
        if stamp_with(&kind, *at, *byte) != *wanted {
            return Some(false);
        }
    }
    Some(true)
}

#[test]
fn a_cell_is_judged_by_its_bytes(rt: HostRuntime) {
    assert!(rt; are_judged(rt.alloc()) == Some(true));
}

// Whether the cell is visible, and hidden once it is marked so, in a byte 3 before the integer; and visible again.
fn is_marked(alloc: Global) -> Option<bool> {
    let kind = integers(alloc).ok()?;
    if cell_size(&kind) != 14 {
        return None;
    }
    let mut cell = CELL;
    let was_visible = !is_hidden_cell(&kind, &cell);
    mark_cell(&kind, true, &mut cell);
    let is_hidden = is_hidden_cell(&kind, &cell)
        && cell[9] == 3
        && stamp_of_cell(&kind, &cell)?.units() == DAY_3;
    mark_cell(&kind, false, &mut cell);
    Some(was_visible && is_hidden && cell == CELL)
}

#[test]
fn a_cell_is_hidden_and_seen_again(rt: HostRuntime) {
    assert!(rt; is_marked(rt.alloc()) == Some(true));
}

/// A decimal of the most digits, a row of 17 bytes.
const MOST_DIGITS: ColumnKind = ColumnKind::Decimal {
    digits: 28,
    scale: 0,
};

// How many bytes a cell of these columns has, and how many cells a page.
fn sizes(alloc: Global, kinds: &[ColumnKind]) -> Option<(usize, usize)> {
    let kind = row_type(alloc, kinds).ok()?;
    Some((cell_size(&kind), page_room(&kind)))
}

#[test]
fn a_page_has_room_for_so_many_cells(rt: HostRuntime) {
    assert!(rt; sizes(rt.alloc(), &[ColumnKind::Integer]) == Some((14, 290)));
    assert!(rt; sizes(rt.alloc(), &[LONG, LONG, LONG]) == Some((780, 5)));
    assert!(rt; sizes(rt.alloc(), &[MOST_DIGITS]) == Some((26, 156)));
}

/// How many elements a page has, how far the first and the last are behind the third day, and whether some are hidden.
type Ends = (u16, i64, i64, bool);

/// The same of a page of these elements with another byte in its place.
const PAGES: [(&[u16], usize, u8, Option<Ends>); 11] = [
    // As it is; with the first, the second or the last element hidden; and with no row in the first cell.
    (&[0, 1, 50_000], 0, 2, Some((3, 0, 50_000, false))),
    (&[0, 1, 50_000], 41, 3, Some((3, 0, 50_000, true))),
    (&[0, 1, 50_000], 55, 3, Some((3, 0, 50_000, true))),
    (&[0, 1, 50_000], 69, 3, Some((3, 0, 50_000, true))),
    (&[0, 1, 50_000], 41, 4, None),
    // With another byte in its head, behind its cells, and at its end.
    (&[0, 1, 50_000], 20, 1, None),
    (&[0, 1, 50_000], 74, 1, None),
    (&[0, 1, 50_000], 4095, 1, None),
    // Without elements, and with stamps that repeat.
    (&[], 0, 0, None),
    (&[], 0, 2, None),
    (&[0, 0], 0, 2, None),
];

// The same of a page.
fn extent_in(kind: &RowType, page: &Page) -> Option<Ends> {
    let Extent {
        count,
        first,
        last,
        hidden,
    } = extent_of(kind, page)?;
    Some((count, first.units() - DAY_3, last.units() - DAY_3, hidden))
}

// The same of these elements.
fn extent(alloc: Global, units: &[u16], at: usize, byte: u8) -> Option<Option<Ends>> {
    let mut page = page_of(alloc, units)?;
    if at >= 4096 {
        return None;
    }
    page.bytes[at] = byte;
    Some(extent_in(&integers(alloc).ok()?, &page))
}

#[test]
fn a_page_is_judged_by_its_bytes(rt: HostRuntime) {
    for (units, at, byte, wanted) in &PAGES {
        assert!(rt; extent(rt.alloc(), units, *at, *byte) == Some(*wanted));
    }
}

// Whether a page of integers is none of small ones.
fn is_none_of_another_kind(alloc: Global) -> Option<bool> {
    let page = page_of(alloc, &[0, 1, 50_000])?;
    let kind = row_type(alloc, &[ColumnKind::SmallInt]).ok()?;
    Some(extent_of(&kind, &page).is_none())
}

#[test]
fn a_page_is_judged_by_its_row_type(rt: HostRuntime) {
    assert!(rt; is_none_of_another_kind(rt.alloc()) == Some(true));
}

// The extent of a page of so many elements, one unit after the other.
fn extent_of_many(alloc: Global, count: usize) -> Option<Option<Ends>> {
    let mut units = [0; 291];
    for i in 0..291u16 {
        units[i as usize] = i;
    }
    extent(alloc, units.get(..count)?, 0, 2)
}

#[test]
fn a_full_page_is_one_and_a_fuller_is_none(rt: HostRuntime) {
    assert!(rt; extent_of_many(rt.alloc(), 290) == Some(Some((290, 0, 289, false))));
    assert!(rt; extent_of_many(rt.alloc(), 291) == Some(None));
}
