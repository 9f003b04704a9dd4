// An irregular and a regular series with four elements, one of them hidden, by the bytes of their pages.
ghost use Rattle.std.specs.Prelude.{◌≡◌, ◌≤◌, IfOk, OnOk, IsTrue, [], ◌∷◌};
ghost use Rattle.ts_page.specs.Memory.{memory_contents};
ghost use Rattle.ts_space.specs.declared.place.Place.{Place as ThePlace};
ghost use Rattle.ts_space.specs.Directory.{places_of};
ghost use Rattle.ts_calendar.specs.Calendars.{IsLaid};
ghost use Rattle.ts_offset.specs.declared.shape.Shape.{Shape as TheShape};
ghost use Rattle.ts_clip.specs.Series.{ArePlaces};
ghost use Rattle.ts_offset.specs.Shape.{IsLaidOut};

use std::alloc::Global;
use ts_base::{Name, Stamp, StoreFault, Unit};
use ts_calendar::Calendar;
use ts_cells::page_room;
use ts_offset::{Counter, Grid, Shape};
use ts_page::{MemoryPages, Page, Pages};
use ts_pattern::{Pattern, Run};
use ts_regular::regular_room;
use ts_row::{Column, ColumnKind, RowType};
use ts_space::{Place, Space};

/// The series.
pub(crate) const SLOT: u16 = 7;

/// 2011-01-01 00:00:00, a Saturday.
pub(crate) const DAY_1: i64 = 129_384_000_000_000;

/// A day.
pub(crate) const DAY: i64 = 8_640_000_000;

/// A series of integers.
#[derive(Drop)]
pub(crate) struct Series {
    pub(crate) pages: MemoryPages,
    pub(crate) space: Space,
    pub(crate) kind: RowType,
    /// None of an irregular series.
    pub(crate) counter: Option<Counter>,
}

/// A day of January 2011.
pub(crate) fn day(number: u8) -> Result<Stamp, StoreFault> {
    Stamp::of(DAY_1 - DAY + i64::from(number) * DAY).ok_or(StoreFault::Failed)
}

// A name.
fn name(alloc: Global, text: &[u8]) -> Result<Name, StoreFault> {
    Name::read(alloc, text)?.ok_or(StoreFault::Failed)
}

/// A row type of one integer, `v`.
pub(crate) fn integers(alloc: Global) -> Result<RowType, StoreFault> {
    let stamp = name(alloc, b"t")?;
    let column = Column {
        name: name(alloc, b"v")?,
        kind: ColumnKind::Integer,
    };
    match RowType::make(alloc, stamp, vec![in alloc; column]?) {
        Ok(made) => Ok(made),
        Err(_) => Err(StoreFault::Failed),
    }
}

// Five days on and two off, from Monday the third on.
fn working_days(alloc: Global) -> Result<Counter, StoreFault> {
    let on = Run { on: true, count: 5 };
    let off = Run {
        on: false,
        count: 2,
    };
    let start = day(3)?;
    let runs = vec![in alloc; on, off]?;
    let pattern = Pattern::of_runs(Unit::Day, runs).ok_or(StoreFault::Failed)?;
    let Ok(calendar) = Calendar::make(start, start, pattern) else {
        return Err(StoreFault::Failed);
    };
    Ok(Counter::make(alloc, calendar)?)
}

/// How the elements lie: on the on days of a calendar from the third on, or anywhere where there is none.
pub(crate) fn shape_of(counter: &Option<Counter>) -> Result<Shape<'_>, StoreFault>
    ensures { IfOk result IsLaidOut }
{
    match counter {
        Some(counter) => Ok(Shape::Regular(grid_of(counter)?)),
        None => Ok(Shape::Irregular),
    }
}

// The grid of a calendar's on days from the third on.
fn grid_of(counter: &Counter) -> Result<Grid<'_>, StoreFault>
    ensures { IfOk result (λ grid. IsLaid grid.calendar) }
{
    let start = day(3)?;
    // It is laid out.
    let _interval = counter.calendar().interval_around(start);
    match Grid::make(counter, start) {
        Ok(grid) => Ok(grid),
        Err(_) => Err(StoreFault::Failed),
    }
}

/// Bytes that stand in a page, each behind so many.
type Patches = &'static [(usize, &'static [u8])];

/// The integers 1 on the third, 2 on the fifth, 3 on the sixth, which is hidden, and 4 on the tenth: a head, and a
/// cell of a byte 1, a stamp and a row for each.
const IRREGULAR: Patches = &[
    (0, b"\x02\x00\x07\x00\x04"),
    (
        32,
        b"\x01\x00\x00\x75\xb0\x95\x53\xf0\x00\x01\x00\x00\x00\x01",
    ),
    (
        46,
        b"\x01\x00\x00\x75\xb4\x9b\x4b\xd0\x00\x01\x00\x00\x00\x02",
    ),
    (
        60,
        b"\x01\x00\x00\x75\xb6\x9e\x47\xc0\x00\x03\x00\x00\x00\x03",
    ),
    (
        74,
        b"\x01\x00\x00\x75\xbe\xaa\x37\x80\x00\x01\x00\x00\x00\x04",
    ),
];

/// The same on working days: a head, and cells of a byte 1 and a row at the offsets 0, 2, 3 and 5.
const REGULAR: Patches = &[
    (0, b"\x01\x00\x07\x00\x04"),
    (32, b"\x01\x01\x00\x00\x00\x01"),
    (44, b"\x01\x01\x00\x00\x00\x02"),
    (50, b"\x01\x03\x00\x00\x00\x03"),
    (62, b"\x01\x01\x00\x00\x00\x04"),
];

// The page of these bytes.
fn page_of(patches: Patches) -> Result<Page, StoreFault> {
    let mut page = Page::zero();
    for (at, bytes) in patches {
        if *at > 4096 || bytes.len() > 4096 - *at {
            return Err(StoreFault::Failed);
        }
        page.bytes[*at..*at + bytes.len()].copy_from_slice(bytes);
    }
    Ok(page)
}

// Pages of which the last is this one, and none is free.
fn pages_of(alloc: Global, page: &Page) -> Result<MemoryPages, StoreFault>
    ensures { IfOk result (λ pages. (memory_contents pages).count ≡ 931) }
{
    let zeros = vec![in alloc; Page::zero(); 931]?;
    let mut pages = MemoryPages::new(zeros, Vec::new(alloc));
    pages.put(930, page)?;
    Ok(pages)
}

// Whether the only place is that of the page, with some elements and no more than so many.
fn is_only_place(places: &[Place], most: usize) -> bool
    ensures { IsTrue result → (place : ThePlace) × (places.now ≡ place ∷ []) × (place.page ≡ 930)
        × (1 ≤ place.count) × (place.count ≤ most) }
{
    places.len() == 1
        && places[0].page == 930
        && places[0].count >= 1
        && places[0].count as usize <= most
}

// The only page holds all elements, and none is free.
fn settled(series: &Series) -> Result<(), StoreFault>
    requires { (memory_contents series.now.pages).count ≡ 931 }
    ensures { OnOk result ((shape : TheShape) → ArePlaces shape series.now.kind.columns
        (memory_contents series.now.pages) (places_of 7 series.now.space)) }
{
    let places = series.space.places(SLOT);
    let irregular = page_room(&series.kind);
    let regular = regular_room(&series.kind);
    if series.pages.spare() > 0
        || !is_only_place(places, irregular)
        || !is_only_place(places, regular)
    {
        return Err(StoreFault::Failed);
    }
    Ok(())
}

// A directory where the only place of the series is that of its page, from a unit or an offset on.
fn space_of(alloc: Global, at: i64) -> Result<Space, StoreFault> {
    let place = Place {
        at,
        page: 930,
        count: 4,
    };
    let mut space = Space::new(alloc)?;
    space.reserve(SLOT, 1)?;
    space.set(SLOT, place);
    Ok(space)
}

// The series of this page and directory.
fn made(alloc: Global, page: &Page, at: i64) -> Result<Series, StoreFault>
    ensures places { IfOk result (λ series. (shape : TheShape) → ArePlaces shape series.kind.columns
        (memory_contents series.pages) (places_of 7 series.space)) }
    ensures count { IfOk result (λ series. (memory_contents series.pages).count ≡ 931) }
{
    let kind = integers(alloc)?;
    let pages = pages_of(alloc, page)?;
    let space = space_of(alloc, at)?;
    let series = Series {
        pages,
        space,
        kind,
        counter: None,
    };
    settled(&series)?;
    Ok(series)
}

/// The integers 1 on the third, 2 on the fifth, 3 on the sixth, which is hidden, and 4 on the tenth.
pub(crate) fn filled(alloc: Global, regular: bool) -> Result<Series, StoreFault>
    ensures places { IfOk result (λ series. (shape : TheShape) → ArePlaces shape series.kind.columns
        (memory_contents series.pages) (places_of 7 series.space)) }
    ensures count { IfOk result (λ series. (memory_contents series.pages).count ≡ 931) }
{
    if !regular {
        return made(alloc, &page_of(IRREGULAR)?, day(3)?.units());
    }
    let mut series = made(alloc, &page_of(REGULAR)?, 0)?;
    series.counter = Some(working_days(alloc)?);
    Ok(series)
}

/// Makes the place of the only page tell of one element more than stand there.
pub(crate) fn mislead(series: &mut Series) -> Result<(), StoreFault>
    requires { (memory_contents series.old.pages).count ≡ 931 }
    ensures places { OnOk result ((shape : TheShape) → ArePlaces shape series.new.kind.columns
        (memory_contents series.new.pages) (places_of 7 series.new.space)) }
{
    let Some(place) = series.space.places(SLOT).first() else {
        return Err(StoreFault::Failed);
    };
    let misled = Place {
        at: place.at,
        page: place.page,
        count: place.count.saturating_add(1),
    };
    series.space.reserve(SLOT, 1)?;
    series.space.set(SLOT, misled);
    settled(series)
}
