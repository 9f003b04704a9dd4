// Definitions for the tests.
ghost use Rattle.std.specs.Prelude.{◌≡◌, ◌<◌, IfOk};
ghost use Rattle.ts_model.specs.Definitions.{limit, kind_of};
ghost use Rattle.ts_page.specs.Memory.{memory_contents};

use std::alloc::Global;
use std::mem;
use ts_base::{Key, Name, Stamp, StoreFault, Unit};
use ts_calendar::Calendar;
use ts_container::write_slot;
use ts_model::{Def, Kind};
use ts_offset::Counter;
use ts_page::{MemoryPages, Page};
use ts_pattern::{Pattern, Run};
use ts_row::{Column, ColumnKind, RowType};

/// A day off, five on, a day off.
pub(crate) const WEEK: [Run; 3] = [
    Run {
        on: false,
        count: 1,
    },
    Run { on: true, count: 5 },
    Run {
        on: false,
        count: 1,
    },
];

/// 2011-01-03 00:00:00.
pub(crate) const START: i64 = 129_401_280_000_000;

pub(crate) fn name(alloc: Global, text: &[u8]) -> Result<Name, StoreFault> {
    match Name::read(alloc, text)? {
        Some(name) => Ok(name),
        None => Err(StoreFault::Failed),
    }
}

// A row type of one integer.
pub(crate) fn integers(alloc: Global) -> Result<RowType, StoreFault> {
    let column = Column {
        name: name(alloc, b"v")?,
        kind: ColumnKind::Integer,
    };
    match RowType::make(alloc, name(alloc, b"t")?, vec![in alloc; column]?) {
        Ok(made) => Ok(made),
        Err(_) => Err(StoreFault::Failed),
    }
}

pub(crate) fn key(alloc: Global, text: &[u8]) -> Result<Key, StoreFault> {
    match Key::read(alloc, text)? {
        Some(key) => Ok(key),
        None => Err(StoreFault::Failed),
    }
}

pub(crate) fn stamp(units: i64) -> Result<Stamp, StoreFault> {
    match Stamp::of(units) {
        Some(stamp) => Ok(stamp),
        None => Err(StoreFault::Failed),
    }
}

fn week(alloc: Global) -> Result<Pattern, StoreFault> {
    let runs = WEEK.as_slice().to_vec(alloc)?;
    match Pattern::of_runs(Unit::Day, runs) {
        Some(pattern) => Ok(pattern),
        None => Err(StoreFault::Failed),
    }
}

// The week from its start on.
pub(crate) fn calendar(alloc: Global) -> Result<Counter, StoreFault> {
    let start = stamp(START)?;
    match Calendar::make(start, start, week(alloc)?) {
        Ok(calendar) => Ok(Counter::make(alloc, calendar)?),
        Err(_) => Err(StoreFault::Failed),
    }
}

// A definition of a kind with this name or key: of integers, the week, of 2 pages, an irregular series of the container
// in slot 3.
pub(crate) fn def(alloc: Global, kind: Kind, text: &[u8]) -> Result<Def, StoreFault>
    ensures { IfOk result (λ def. kind_of def ≡ kind) }
{
    match kind {
        Kind::RowType => {
            let name = name(alloc, text)?;
            let kind = integers(alloc)?;
            Ok(Def::RowType { name, kind })
        }
        Kind::Pattern => Ok(Def::Pattern {
            name: name(alloc, text)?,
            pattern: week(alloc)?,
        }),
        Kind::Calendar => Ok(Def::Calendar {
            name: name(alloc, text)?,
            calendar: calendar(alloc)?,
            by: None,
        }),
        Kind::Container => Ok(Def::Container {
            name: name(alloc, text)?,
            row_type: 0,
            quota: 2,
        }),
        Kind::Series => Ok(Def::Series {
            key: key(alloc, text)?,
            container: 3,
            regular: None,
        }),
    }
}

// Puts a definition of a kind that was made into a slot of a volume.
pub(crate) fn put_def(
    alloc: Global,
    pages: &mut MemoryPages,
    kind: Kind,
    slot: u16,
    made: Result<Def, StoreFault>,
) -> Result<(), StoreFault>
    requires slot { slot < limit kind }
    requires kind { IfOk made (λ def. kind_of def ≡ kind) }
    requires within { (memory_contents pages.old).count ≡ 933 }
    ensures { (memory_contents pages.new).count ≡ 933 }
{
    match made {
        Ok(def) => {
            let written = write_slot(pages, &mut Page::zero(), kind, slot, Some(&def));
            mem::drop(def);
            written
        }
        Err(fault) => Err(fault),
    }
}
