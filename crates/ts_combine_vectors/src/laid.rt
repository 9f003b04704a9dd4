// Series as a row of a table has them.
ghost use Rattle.std.specs.Prelude.{◌≡◌, IfSome};
ghost use Rattle.ts_combine.specs.Series.{HasCalendar};
ghost use Rattle.ts_offset.specs.Shape.{IsLaidOut};
ghost use Rattle.ts_combine_vectors.specs.Kept.{HasOwn};

use std::alloc::Global;
use ts_base::{Stamp, Unit};
use ts_calendar::Calendar;
use ts_combine::Side;
use ts_offset::{Counter, Grid, Shape};
use ts_pattern::{Pattern, Run};
use ts_row::{Elem, Row};

pub(crate) const JANUARY_2: &[u8] = b"2011-01-02 00:00:00";

// 2011-01-03 is a Monday.
pub(crate) const JANUARY_3: &[u8] = b"2011-01-03 00:00:00";

pub(crate) const JANUARY_4: &[u8] = b"2011-01-04 00:00:00";

pub(crate) const JANUARY_5: &[u8] = b"2011-01-05 00:00:00";

pub(crate) const JANUARY_8: &[u8] = b"2011-01-08 00:00:00";

pub(crate) const JANUARY_9: &[u8] = b"2011-01-09 00:00:00";

pub(crate) const LAST: &[u8] = b"9999-12-31 23:59:59.99999";

/// A calendar that starts with its pattern, whose runs of these counts take turns, and an origin at its first on start.
#[derive(Clone, Copy)]
pub(crate) struct Laid {
    pub(crate) start: &'static [u8],
    pub(crate) unit: Unit,
    pub(crate) on: bool,
    pub(crate) counts: &'static [u32],
}

/// Five days on from Monday 2011-01-03, two off.
pub(crate) const WORK: Laid = Laid {
    start: JANUARY_2,
    unit: Unit::Day,
    on: false,
    counts: &[1, 5, 1],
};

/// All hours from 2011-01-03 on.
pub(crate) const HOURS: Laid = Laid {
    start: JANUARY_3,
    unit: Unit::Hour,
    on: true,
    counts: &[1],
};

/// All seconds from 2011-01-03 on.
pub(crate) const SECONDS: Laid = Laid {
    start: JANUARY_3,
    unit: Unit::Second,
    on: true,
    counts: &[1],
};

/// All weeks from Sunday 2011-01-02 on.
pub(crate) const WEEKS: Laid = Laid {
    start: JANUARY_2,
    unit: Unit::Week,
    on: true,
    counts: &[1],
};

/// A series of one column: where it lies on a grid, its calendar, and the stamps of its elements.
#[derive(Clone, Copy)]
pub(crate) struct Table {
    pub(crate) laid: Option<Laid>,
    pub(crate) stamps: &'static [&'static [u8]],
}

/// The same series as it is kept, with the sums of its calendar.
#[derive(Drop)]
pub(crate) struct Kept {
    pub(crate) elems: Vec<Elem>,
    pub(crate) counter: Option<Counter>,
}

// A pattern of runs of these counts, whose flags take turns.
fn pattern(alloc: Global, laid: &Laid) -> Option<Pattern> {
    let mut runs = Vec::new(alloc);
    let mut on = laid.on;
    for count in laid.counts {
        runs.push(Run { on, count: *count }).ok()?;
        on = !on;
    }
    Pattern::of_runs(laid.unit, runs)
}

fn calendar(alloc: Global, laid: &Laid) -> Option<Calendar> {
    let start = Stamp::read(laid.start)?;
    let pattern = pattern(alloc, laid)?;
    Calendar::make(start, start, pattern).ok()
}

fn elements(alloc: Global, stamps: &[&[u8]]) -> Option<Vec<Elem>> {
    let mut elems = Vec::new(alloc);
    for text in stamps {
        let stamp = Stamp::read(text)?;
        let row = Row::of(Vec::new(alloc));
        elems.push(Elem { stamp, row }).ok()?;
    }
    Some(elems)
}

// The grid of a calendar from its first on start on.
fn grid(counter: &Counter) -> Option<Grid<'_>>
    ensures { IfSome result (λ g. g.calendar ≡ counter.now) }
{
    match Grid::make(counter, counter.calendar().start()) {
        Ok(grid) => Some(grid),
        Err(_) => None,
    }
}

pub(crate) fn made(alloc: Global, table: &Table) -> Option<Kept> {
    let elems = elements(alloc, table.stamps)?;
    let counter = match &table.laid {
        Some(laid) => Some(Counter::make(alloc, calendar(alloc, laid)?).ok()?),
        None => None,
    };
    Some(Kept { elems, counter })
}

impl Kept {
    /// How its elements lie.
    pub(crate) fn shape(&self) -> Option<Shape<'_>>
        ensures { IfSome result (λ shape. HasOwn shape self.now.counter) }
    {
        let Some(counter) = &self.counter else {
            return Some(Shape::Irregular);
        };
        let _laid = counter.calendar().patt_start();
        Some(Shape::Regular(grid(counter)?))
    }

    /// It as it is combined.
    pub(crate) fn side<'a>(&'a self, shape: &'a Shape<'a>) -> Side<'a>
        requires { HasOwn shape.now self.now.counter }
        ensures calendar { HasCalendar result }
        ensures laid { IsLaidOut result.shape.now }
    {
        let calendar = match &self.counter {
            Some(counter) => Some(counter.calendar()),
            None => None,
        };
        Side {
            elems: self.elems.as_slice(),
            columns: 1,
            shape,
            calendar,
        }
    }
}
