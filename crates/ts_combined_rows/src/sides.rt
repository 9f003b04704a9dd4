// Series as they are combined: some of their elements, and on a grid its calendar.
ghost use Rattle.std.specs.Prelude.{◌≡◌, ◌<◌, IfNone, IfOk, IfSome, Some, option_copied, option_map};
ghost use Rattle.ts_row.specs.Row.{seen};
ghost use Rattle.ts_space.specs.Directory.{places_of};
ghost use Rattle.ts_irregular.specs.Call.{Reads};
ghost use Rattle.ts_sheets.specs.Stamped.{within_range};
ghost use Rattle.ts_offset.specs.declared.shape.Shape.{Shape as TheShape};
ghost use Rattle.ts_clip.specs.Series.{ArePlaces, IsTold};
ghost use Rattle.ts_offset.specs.Shape.{IsLaidOut};
ghost use Rattle.ts_combine.specs.Call.{HaveNoGrid};
ghost use Rattle.ts_combine.specs.Reach.{LiesOn};
ghost use Rattle.ts_combine.specs.Series.{side_of, HasCalendar, IsGivenFor};
ghost use Rattle.ts_model.specs.Definitions.{series_slots, at_slot};
ghost use Rattle.ts_layout.specs.Meaning.{shape_at};
ghost use Rattle.ts_combined_rows.specs.Combining.{HaveGrid, IsThere, side_with};

use std::alloc::Global;
use ts_base::{Refusal, Stamp, StoreFault};
use ts_calendar::Calendar;
use ts_clip::elements;
use ts_combine::Side;
use ts_entry::KeptElements;
use ts_model::{Def, Defs, Kind};
use ts_offset::Shape;
use ts_page::{Page, Pages};
use ts_row::Shelf;
use ts_space::Space;

/// The elements from one stamp to another, both included, that aren't hidden. All pages stay; `page` is room to read
/// one; the memory is for the elements.
pub(crate) fn elements_in<P: Pages>(
    alloc: Global,
    pages: &mut P,
    page: &mut Page,
    space: &Space,
    shelf: &Shelf,
    shape: &Shape<'_>,
    from: Stamp,
    to: Stamp,
) -> Result<KeptElements, StoreFault>
    requires slot { shelf.now.series < series_slots }
    requires laid { IsLaidOut shape.now }
    requires places { ArePlaces shape.now shelf.now.kind.now.columns (P.contents pages.old)
        (places_of shelf.now.series space.now) }
    ensures kept { IfOk result (λ kept. IsTold P.tells shape.now shelf.now.series shelf.now.kind.now.columns
        (places_of shelf.now.series space.now) (P.contents pages.old) (λ es. kept ≡ within_range from to (seen es))) }
    ensures call { Reads P.tells result (P.contents pages.old) (P.contents pages.new) }
    ensures undisturbed { P.undisturbed pages.old pages.new }
{
    let mut kept = KeptElements::new(alloc);
    elements(pages, page, space, shelf, shape, from, to, &mut kept)?;
    Ok(kept)
}

/// A series with these of its elements.
pub(crate) fn side_of<'a>(
    defs: &'a Defs,
    shelf: &Shelf<'_>,
    shape: &'a Shape<'a>,
    kept: &'a KeptElements,
) -> Side<'a>
    requires there { IsThere shape.now shelf.now.series defs.now.definitions }
    ensures side { side_of result ≡ side_with shape.now shelf.now.kind.now.columns kept.now }
    ensures calendar { HasCalendar result }
{
    Side {
        elems: kept.as_slice(),
        columns: shelf.kind.columns().len(),
        shape,
        calendar: calendar_of(defs, shelf.series),
    }
}

/// Why two series that are both regular have no grid in common, if they have none: their definitions alone tell.
pub(crate) fn no_common_grid(
    defs: &Defs,
    first: &(Shelf<'_>, Shape<'_>),
    second: &(Shelf<'_>, Shape<'_>),
) -> Option<Refusal>
    requires first { IsThere first.now.1 first.now.0.series defs.now.definitions }
    requires second { IsThere second.now.1 second.now.0.series defs.now.definitions }
    ensures some { IfSome result (HaveNoGrid first.now.1 second.now.1) }
    ensures none { IfNone result (HaveGrid first.now.1 second.now.1) }
{
    let calendar = grid_calendar(defs, first)?;
    let other = grid_calendar(defs, second)?;
    match calendar.common_grid(other) {
        Ok(_) => None,
        Err(why) => Some(why),
    }
}

// The calendar of a series that is regular.
fn grid_calendar<'a>(defs: &'a Defs, series: &(Shelf<'_>, Shape<'_>)) -> Option<&'a Calendar>
    requires { IsThere series.now.1 series.now.0.series defs.now.definitions }
    ensures { LiesOn series.now.1 result }
{
    let (shelf, shape) = series;
    match shape {
        Shape::Regular(_) => calendar_of(defs, shelf.series),
        Shape::Irregular => None,
    }
}

// The calendar of the series in a slot, if it is regular.
fn calendar_of(defs: &Defs, slot: u16) -> Option<&Calendar>
    requires { slot < series_slots }
    ensures { (shape : TheShape) → shape_at defs.now.definitions slot ≡ Some shape → IsGivenFor shape result }
{
    match defs.get(Kind::Series, slot) {
        Some(
            Def::Series {
                regular: Some((calendar, _)),
                ..
            },
        ) => calendar_in(defs, *calendar),
        _ => None,
    }
}

// The calendar in a slot.
fn calendar_in(defs: &Defs, slot: u8) -> Option<&Calendar>
    ensures { option_copied result ≡ option_map (λ c. c.calendar) (at_slot slot defs.now.definitions.calendars) }
{
    match defs.get(Kind::Calendar, slot as u16) {
        Some(Def::Calendar { calendar, .. }) => Some(calendar.calendar()),
        _ => None,
    }
}
