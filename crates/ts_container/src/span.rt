// The span of a page of a series.
ghost use Rattle.std.specs.Prelude.{◌≡◌, ◌<◌, ◌^◌, ◌↔◌, ℕ, List, Some, IsTrue};
ghost use Rattle.ts_page.specs.Pages.{head_of};
ghost use Rattle.ts_regular.specs.RegularPage.{Cell, elements_from, HasExtent};
ghost use Rattle.ts_sheets.specs.Stamped.{HaveStarts};
ghost use Rattle.ts_offset.specs.declared.shape.Shape.TheVariants.{Irregular, Regular as OnGrid};
ghost use Rattle.ts_container.specs.Elements.{slot_in};
ghost use Rattle.ts_container.specs.Spans.{IsSpanFound};

use crate::format::may_hide;
use ts_cells::extent_of;
use ts_offset::Grid;
use ts_page::Page;
use ts_regular::{RegularExtent, regular_extent_of};
use ts_row::RowType;

/// A page of a series, as it is found: the slot of the series, how many elements the page has, its number, and where it
/// begins and ends. A page of an irregular series begins and ends at its first and its last stamp. One of a regular
/// series does both at the offset of its first cell, since two of them overlap exactly where they begin at one offset.
#[derive(Clone, Copy, Debug)]
pub struct Span {
    pub slot: u16,
    pub count: u16,
    pub page: u32,
    pub first: i64,
    pub last: i64,
    /// Whether an element of the page is hidden.
    pub hidden: bool,
}

/// The span of the page of a number, whose head tells a series in a slot, if it is a page of an irregular series of
/// this row type.
pub(crate) fn span_of_stamps(
    kind: &RowType,
    format: u8,
    number: u32,
    slot: u16,
    page: &Page,
) -> Option<Span>
    requires { slot_in (head_of page.now.bytes) ≡ Some slot }
    ensures { IsSpanFound Irregular slot kind.now.columns format number page.now.bytes result }
{
    // By the columns of a row type the bytes of a page are those of one list of elements at most.
    let _columns = kind.columns();
    let extent = extent_of(kind, page)?;
    if !may_hide(format, extent.hidden) {
        return None;
    }
    Some(Span {
        slot,
        count: extent.count,
        page: number,
        first: extent.first.units(),
        last: extent.last.units(),
        hidden: extent.hidden,
    })
}

/// The same of a regular series: each element has an on start.
pub(crate) fn span_on_grid(
    kind: &RowType,
    grid: &Grid<'_>,
    format: u8,
    number: u32,
    slot: u16,
    page: &Page,
) -> Option<Span>
    requires { slot_in (head_of page.now.bytes) ≡ Some slot }
    ensures { IsSpanFound (OnGrid grid.now) slot kind.now.columns format number page.now.bytes result }
{
    // So it is with the cells of a page.
    let _columns = kind.columns();
    let extent = regular_extent_of(kind, page)?;
    if !have_starts(grid, &extent) || !may_hide(format, extent.hidden) {
        return None;
    }
    Some(Span {
        slot,
        count: extent.count,
        page: number,
        first: extent.base as i64,
        last: extent.base as i64,
        hidden: extent.hidden,
    })
}

// Whether the elements of a page with this extent all have on starts; they have where the last one has.
fn have_starts(grid: &Grid<'_>, extent: &RegularExtent) -> bool
    ensures starts { (base : ℕ) (cells : List Cell) → HasExtent base cells extent.now →
        IsTrue result ↔ HaveStarts grid.now (elements_from base cells) }
    ensures low { IsTrue result → extent.now.base < 2 ^ 63 }
{
    match extent.base.checked_add(extent.last as u64) {
        Some(last) => grid.stamp_of(last).is_some(),
        None => false,
    }
}
