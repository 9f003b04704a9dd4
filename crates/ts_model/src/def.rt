ghost use Rattle.std.specs.Prelude.{◌≡◌, IfOk};
ghost use Rattle.ts_model.specs.Definitions.{name_of, kind_of};

use crate::Kind;
use std::alloc::AllocError;
use ts_base::{Key, Name, Stamp};
use ts_offset::Counter;
use ts_pattern::Pattern;
use ts_row::RowType;

/// The definition of an object: its name or key, and what it is. It names others by their slots.
#[derive(Drop)]
pub enum Def {
    RowType {
        name: Name,
        kind: RowType,
    },
    Pattern {
        name: Name,
        pattern: Pattern,
    },
    /// Kept with its sums, so that no command makes them anew. Where it was made by a pattern's name, `by` is the slot
    /// of that pattern, and its runs are the pattern's.
    Calendar {
        name: Name,
        calendar: Counter,
        by: Option<u8>,
    },
    /// Its row type is the one in slot `row_type`; its series may be charged `quota` pages at most.
    Container {
        name: Name,
        row_type: u8,
        quota: u32,
    },
    /// A series of the container in slot `container`. Where it is regular, `regular` is the slot of its calendar and
    /// its origin, which is an on start of that calendar.
    Series {
        key: Key,
        container: u8,
        regular: Option<(u8, Stamp)>,
    },
}

impl Def {
    /// The name, or the key of a series.
    pub fn name(&self) -> &[u8]
        ensures { result.now ≡ name_of self.now }
    {
        match self {
            Def::RowType { name, .. }
            | Def::Pattern { name, .. }
            | Def::Calendar { name, .. }
            | Def::Container { name, .. } => name.as_slice(),
            Def::Series { key, .. } => key.as_slice(),
        }
    }

    /// What it defines.
    pub fn kind(&self) -> Kind
        ensures { result ≡ kind_of self.now }
    {
        match self {
            Def::RowType { .. } => Kind::RowType,
            Def::Pattern { .. } => Kind::Pattern,
            Def::Calendar { .. } => Kind::Calendar,
            Def::Container { .. } => Kind::Container,
            Def::Series { .. } => Kind::Series,
        }
    }

    pub fn copy(&self) -> Result<Self, AllocError>
        ensures { IfOk result (λ made. made ≡ self.now) }
    {
        Ok(match self {
            Def::RowType { name, kind } => Def::RowType {
                name: name.copy()?,
                kind: kind.copy()?,
            },
            Def::Pattern { name, pattern } => Def::Pattern {
                name: name.copy()?,
                pattern: pattern.copy()?,
            },
            Def::Calendar { name, calendar, by } => Def::Calendar {
                name: name.copy()?,
                calendar: calendar.copy()?,
                by: *by,
            },
            Def::Container {
                name,
                row_type,
                quota,
            } => Def::Container {
                name: name.copy()?,
                row_type: *row_type,
                quota: *quota,
            },
            Def::Series {
                key,
                container,
                regular,
            } => Def::Series {
                key: key.copy()?,
                container: *container,
                regular: *regular,
            },
        })
    }
}
