// The rows of a range, in the bytes of their cells.
ghost use Rattle.ts_page.specs.Memory.{memory_contents};
ghost use Rattle.ts_space.specs.Directory.{places_of};
ghost use Rattle.ts_offset.specs.declared.shape.Shape.{Shape as TheShape};
ghost use Rattle.ts_clip.specs.Series.{ArePlaces};
ghost use Rattle.ts_entry.specs.Stamps.{IsNear};

use crate::series::{DAY, DAY_1, SLOT, Series, day, filled, mislead, shape_of};
use std::alloc::{AllocError, Global};
use std::mem;
use ts_base::StoreFault;
use ts_clip::rows;
use ts_entry::{RowVisitor, Stamps};
use ts_page::Page;
use ts_row::{RowType, Shelf};

/// The bytes of the rows, the days at which they stand, how many cells there were, and the bytes before the row of a
/// cell, by call.
#[derive(Drop)]
struct Copied {
    rows: Vec<u8>,
    days: Vec<i64>,
    cells: usize,
    fronts: Vec<usize>,
}

impl RowVisitor for Copied {
    ghost took = { λ _ _ _ _. Unit {0} };

    fn rows(
        &mut self,
        kind: &RowType,
        cells: &[u8],
        front: usize,
        stamps: &Stamps<'_>,
    ) -> Result<(), AllocError> {
        self.fronts.push(front)?;
        for (number, cell) in cells.chunks(front.saturating_add(kind.width())).enumerate() {
            self.cells = self.cells.saturating_add(1);
            if cell.first() == Some(&1) {
                self.rows.extend_from_slice(row_in(cell, front))?;
                self.days.push(day_at(stamps, number, cell))?;
            }
        }
        Ok(())
    }

    ghost none = { λ _ _. tt };

    ghost then = { λ _ _ _ _ _ _ _ _. tt };
}

// The day of January 2011 at which the element of a cell stands; 0 where it has no stamp.
fn day_at(stamps: &Stamps<'_>, number: usize, cell: &[u8]) -> i64
    requires { IsNear stamps.now }
{
    if number > 4064 {
        return 0;
    }
    match stamps.stamp(number, cell) {
        Some(stamp) => stamp.units().wrapping_sub(DAY_1) / DAY + 1,
        None => 0,
    }
}

// The bytes of the row in a cell.
fn row_in(cell: &[u8], front: usize) -> &[u8] {
    if cell.len() < front {
        return &[];
    }
    &cell[front..]
}

// What is handed on from one day to another.
fn handed_on(alloc: Global, regular: bool, from: u8, to: u8) -> Result<Copied, StoreFault> {
    let mut series = filled(alloc, regular)?;
    let copied = copied_of(alloc, &mut series, from, to);
    mem::drop(series);
    copied
}

// The same where the place of the page tells of one element more than stand there.
fn misled(alloc: Global, regular: bool, from: u8, to: u8) -> Result<Copied, StoreFault> {
    let mut series = filled(alloc, regular)?;
    let copied = match mislead(&mut series) {
        Ok(()) => copied_of(alloc, &mut series, from, to),
        Err(fault) => Err(fault),
    };
    mem::drop(series);
    copied
}

// The same of any series.
fn copied_of(alloc: Global, series: &mut Series, from: u8, to: u8) -> Result<Copied, StoreFault>
    requires { (shape : TheShape) → ArePlaces shape series.old.kind.columns
        (memory_contents series.old.pages) (places_of 7 series.old.space) }
{
    let kind = &series.kind;
    let shelf = &Shelf { series: SLOT, kind };
    let page = &mut Page::zero();
    let (from, to) = (day(from)?, day(to)?);
    let shape = &shape_of(&series.counter)?;
    let pages = &mut series.pages;
    let space = &series.space;
    let mut copied = Copied {
        rows: Vec::new(alloc),
        days: Vec::new(alloc),
        cells: 0,
        fronts: Vec::new(alloc),
    };
    rows(pages, page, space, shelf, shape, from, to, &mut copied)?;
    Ok(copied)
}

/// Five bytes a row: 1, or 3 where it is hidden, and the integer.
const ALL: &[u8] = &[1, 0, 0, 0, 1, 1, 0, 0, 0, 2, 3, 0, 0, 0, 3, 1, 0, 0, 0, 4];

const INSIDE: &[u8] = &[1, 0, 0, 0, 2, 3, 0, 0, 0, 3];

// Whether these rows of these days are handed on in so many cells, in calls with these bytes before a row.
fn gives(
    copied: Result<Copied, StoreFault>,
    rows: &[u8],
    days: &[i64],
    cells: usize,
    fronts: &[usize],
) -> bool {
    match copied {
        Ok(copied) => {
            let gives = copied.rows.as_slice() == rows
                && copied.days.as_slice() == days
                && copied.cells == cells
                && copied.fronts.as_slice() == fronts;
            mem::drop(copied);
            gives
        }
        Err(_) => false,
    }
}

/// Whether the series is regular, the first and the last day, and what is handed on: rows, days, how many cells, and the
/// bytes before a row.
type Handed = (
    bool,
    u8,
    u8,
    &'static [u8],
    &'static [i64],
    usize,
    &'static [usize],
);

fn is_handed_on(alloc: Global, handed: &Handed) -> bool {
    let (regular, from, to, rows, days, cells, fronts) = *handed;
    gives(
        handed_on(alloc, regular, from, to),
        rows,
        days,
        cells,
        fronts,
    )
}

static WHOLE: [Handed; 2] = [
    (false, 1, 31, ALL, &[3, 5, 6, 10], 4, &[9]),
    (true, 1, 31, ALL, &[3, 5, 6, 10], 21, &[1]),
];

#[test]
fn all_rows_are_handed_on_in_one_call_a_page(rt: HostRuntime) {
    for handed in &WHOLE {
        assert!(rt; is_handed_on(rt.alloc(), handed));
    }
}

static ENDS: [Handed; 4] = [
    (false, 5, 6, INSIDE, &[5, 6], 2, &[9]),
    (false, 4, 9, INSIDE, &[5, 6], 2, &[9]),
    (true, 5, 6, INSIDE, &[5, 6], 2, &[1]),
    (true, 4, 9, INSIDE, &[5, 6], 4, &[1]),
];

#[test]
fn both_ends_of_a_range_belong_to_it(rt: HostRuntime) {
    for handed in &ENDS {
        assert!(rt; is_handed_on(rt.alloc(), handed));
    }
}

static EMPTY: [Handed; 4] = [
    (false, 8, 9, &[], &[], 0, &[]),
    (true, 8, 9, &[], &[], 0, &[]),
    (false, 10, 3, &[], &[], 0, &[]),
    (true, 10, 3, &[], &[], 0, &[]),
];

#[test]
fn a_range_without_cells_hands_on_nothing(rt: HostRuntime) {
    for handed in &EMPTY {
        assert!(rt; is_handed_on(rt.alloc(), handed));
    }
}

#[test]
fn a_page_that_disagrees_with_its_place_has_no_rows(rt: HostRuntime) {
    for regular in [false, true] {
        assert!(rt; gives(misled(rt.alloc(), regular, 1, 31), &[], &[], 0, &[]));
    }
}
