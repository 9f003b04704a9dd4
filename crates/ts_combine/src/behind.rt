// A series against itself, so many on starts earlier.
ghost use Rattle.std.specs.Prelude.{◌≡◌, ◌<◌, ◌⊎◌, length, filter_map, IfOk, All};
ghost use Rattle.ts_combine.specs.Combine.{lagged};
ghost use Rattle.ts_combine.specs.Series.{side_of, IsSeries};
ghost use Rattle.ts_offset.specs.Shape.{IsLaidOut};
ghost use Rattle.ts_entry.specs.Entry.{elements_in};
ghost use Rattle.ts_combine.specs.Rows.{IsTooLarge, IsRefusedFor};
ghost use Rattle.ts_combine.specs.Call.{AnswersRows, IsNotOnGrid};
ghost use Rattle.ts_combine.specs.Moved.{offset_behind, start_behind, moved, last_offset, lagged_row, GathersLagged};

use crate::joined::Lagged;
use crate::rows::Rows;
use crate::side::Side;
use std::alloc::{AllocError, Global};
use ts_base::{Refusal, Stamp, Trouble};
use ts_offset::{Grid, Shape};
use ts_row::Elem;

/// At each on start from the origin to the last element of a series on a grid, the element that stands so many on
/// starts before it, if one does; a negative number leads to later elements. NotRegular where the series isn't on a
/// grid, TooLarge where these are more than 1000000.
pub fn lag(alloc: Global, side: &Side, by: i64) -> Result<Vec<Lagged>, Trouble>
    requires laid { IsLaidOut side.now.shape.now }
    ensures rows { let a = side_of side.now in IsSeries a
        → AnswersRows (lagged_row a.elements) (lagged a.shape by a.elements) result }
    ensures within { IfOk result (λ rows. All (λ l. l.index < length side.now.elems.now) rows.items) }
    ensures cause { IsRefusedFor (λ why. IsNotOnGrid side.now.shape.now why ⊎ IsTooLarge why) result }
{
    match side.shape {
        Shape::Regular(grid) => lagged(alloc, grid, side.elems, by)?.done(),
        Shape::Irregular => Err(Trouble::Refused(Refusal::NotRegular)),
    }
}

// Each element at the on start so many behind its own, in order.
fn lagged(
    alloc: Global,
    grid: &Grid<'_>,
    elems: &[Elem],
    by: i64,
) -> Result<Rows<Lagged>, AllocError>
    ensures { IfOk result (let es = elements_in elems.now in GathersLagged elems.now
        (filter_map (moved grid.now by (last_offset grid.now es)) es)) }
{
    let last = last_offset(grid, elems);
    let mut rows = Rows::new(alloc);
    for (index, elem) in elems.iter().enumerate() {
        if let Some(stamp) = start_behind(grid, by, last, elem.stamp) {
            rows.push(Lagged { stamp, index })?;
        }
    }
    Ok(rows)
}

// The offset of the last element.
fn last_offset(grid: &Grid<'_>, elems: &[Elem]) -> u64
    ensures { result ≡ last_offset grid.now (elements_in elems.now) }
{
    match elems.last() {
        Some(elem) => grid.offset_from(elem.stamp),
        None => 0,
    }
}

/// The on start so many behind a stamp, where it lies from the origin on, up to a last offset.
pub fn start_behind(grid: &Grid<'_>, by: i64, last: u64, stamp: Stamp) -> Option<Stamp>
    ensures { result ≡ start_behind grid.now by last stamp }
{
    let offset = offset_behind(grid.offset_from(stamp), by, last)?;
    grid.stamp_of(offset)
}

// The offset so many behind another.
fn offset_behind(offset: u64, by: i64, last: u64) -> Option<u64>
    ensures { result ≡ offset_behind by last offset }
{
    let behind = i128::from(offset) + i128::from(by);
    if behind < 0 || behind > i128::from(last) {
        return None;
    }
    Some(behind as u64)
}
