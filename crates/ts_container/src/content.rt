// What stands on one element page.
ghost use Rattle.std.specs.Prelude.{◌≡◌, ◌<◌, IsSome, Some, option_copied};
ghost use Rattle.ts_page.specs.Pages.{head_of};
ghost use Rattle.ts_model.specs.Definitions.{IsDefinitions, series_slots, container_slots};
ghost use Rattle.ts_layout.specs.Meaning.{KeepLimits, HaveOrigins, heading_in, heading_at};
ghost use Rattle.ts_container.specs.Elements.{IsContentOf, slot_in};

use crate::shape::shape_of;
use crate::span::{Span, span_of_stamps, span_on_grid};
use ts_model::{Def, Defs, Kind};
use ts_offset::Shape;
use ts_page::{Head, Page};
use ts_row::RowType;

/// Nothing, or elements of a series, with their span.
#[derive(Clone, Copy)]
pub enum Content {
    Free,
    Series(Span),
}

/// What stands on the element page of a number, if it is one of the format of the volume, of a series that is there and
/// of its kind.
pub fn content_of(number: u32, page: &Page, defs: &Defs) -> Option<Content>
    requires limits { KeepLimits defs.now.definitions }
    requires rules { IsDefinitions defs.now.definitions }
    requires origins { HaveOrigins defs.now.definitions }
    ensures { IsContentOf defs.now.definitions number page.now.bytes result }
{
    match page.head()? {
        Head::Free => Some(Content::Free),
        Head::Irregular { series, .. } => series_content(number, page, defs, series),
        Head::Regular { series, .. } => series_content(number, page, defs, series),
    }
}

// The elements of the series that the head of a page tells.
fn series_content(number: u32, page: &Page, defs: &Defs, slot: u16) -> Option<Content>
    requires limits { KeepLimits defs.now.definitions }
    requires rules { IsDefinitions defs.now.definitions }
    requires origins { HaveOrigins defs.now.definitions }
    requires told { slot_in (head_of page.now.bytes) ≡ Some slot }
    ensures { IsContentOf defs.now.definitions number page.now.bytes result }
{
    let kind = row_type_of(defs, slot)?;
    let format = defs.format();
    match shape_of(defs, slot)? {
        Shape::Irregular => span_of_stamps(kind, format, number, slot, page).map(Content::Series),
        Shape::Regular(grid) => {
            span_on_grid(kind, &grid, format, number, slot, page).map(Content::Series)
        }
    }
}

/// The row type of the series in a slot, if there is one.
pub fn row_type_of(defs: &Defs, slot: u16) -> Option<&RowType>
    requires limits { KeepLimits defs.now.definitions }
    requires rules { IsDefinitions defs.now.definitions }
    ensures value { option_copied result ≡ heading_at defs.now.definitions slot }
    ensures within { IsSome result → slot < series_slots }
{
    if slot >= Kind::Series.limit() {
        return None;
    }
    match defs.get(Kind::Series, slot) {
        Some(Def::Series { container, .. }) => row_type_in(defs, *container),
        _ => None,
    }
}

/// The row type of the container in a slot, if there is one.
pub fn row_type_in(defs: &Defs, container: u8) -> Option<&RowType>
    requires limits { KeepLimits defs.now.definitions }
    requires slot { container < container_slots }
    ensures { option_copied result ≡ heading_in defs.now.definitions container }
{
    match defs.get(Kind::Container, container as u16) {
        Some(Def::Container { row_type, .. }) => match defs.get(Kind::RowType, *row_type as u16) {
            Some(Def::RowType { kind, .. }) => Some(kind),
            _ => None,
        },
        _ => None,
    }
}
