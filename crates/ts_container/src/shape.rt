// Where the elements of a series can stand.
ghost use Rattle.std.specs.Prelude.{◌≡◌, ◌↔◌, Some, IsTrue};
ghost use Rattle.ts_offset.specs.declared.shape.Shape.TheVariants.{Irregular};
ghost use Rattle.ts_model.specs.Definitions.{IsDefinitions};
ghost use Rattle.ts_layout.specs.Meaning.{IsOnCalendar, HaveOrigins, shape_at};
ghost use Rattle.ts_layout.specs.Meaning.{shape_of as the_shape};

use ts_base::Stamp;
use ts_model::{Def, Defs, Kind};
use ts_offset::{Grid, Shape};

/// Where the elements of the series in a slot can stand: at all stamps, or at the on starts of its calendar from its
/// origin on. Nothing where there is no series, or none of its calendar.
pub fn shape_of(defs: &Defs, slot: u16) -> Option<Shape<'_>>
    requires rules { IsDefinitions defs.now.definitions }
    requires origins { HaveOrigins defs.now.definitions }
    ensures { result ≡ shape_at defs.now.definitions slot }
{
    if slot >= Kind::Series.limit() {
        return None;
    }
    match defs.get(Kind::Series, slot) {
        Some(Def::Series { regular, .. }) => match regular {
            Some((calendar, origin)) => grid_shape(defs, *calendar, *origin),
            None => Some(Shape::Irregular),
        },
        _ => None,
    }
}

// The on starts of the calendar in a slot, if there is one, from an origin on.
fn grid_shape(defs: &Defs, calendar: u8, origin: Stamp) -> Option<Shape<'_>>
    requires { IsOnCalendar defs.now.definitions (calendar, origin) }
    ensures { result ≡ the_shape defs.now.definitions (Some (calendar, origin)) }
{
    match defs.get(Kind::Calendar, calendar as u16) {
        Some(Def::Calendar { calendar, .. }) => Some(Shape::Regular(Grid::at(calendar, origin))),
        _ => None,
    }
}

/// Whether there is a series in a slot, and it is irregular.
pub(crate) fn is_irregular(defs: &Defs, slot: u16) -> bool
    requires { IsDefinitions defs.now.definitions }
    ensures { IsTrue result ↔ (shape_at defs.now.definitions slot ≡ Some Irregular) }
{
    if slot >= Kind::Series.limit() {
        return false;
    }
    match defs.get(Kind::Series, slot) {
        Some(Def::Series { regular, .. }) => regular.is_none(),
        _ => false,
    }
}
