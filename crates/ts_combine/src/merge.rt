// Two series at the stamps of their elements.
ghost use Rattle.std.specs.Prelude.{◌≡◌, ◌<◌, ◌^◌, ◌&&◌, ◌⊎◌, Some, IfOk, IsSome};
ghost use Rattle.ts_combine.specs.Combine.{is_kept, rows_there};
ghost use Rattle.ts_base.specs.Moment.{is_between};
ghost use Rattle.ts_combine.specs.Series.{side_of};
ghost use Rattle.ts_combine.specs.Call.{GathersJoined};
ghost use Rattle.ts_combine.specs.Merge.{stamp_at, IsTaken, behind};

use crate::joined::Joined;
use crate::rows::Rows;
use crate::side::Side;
use std::alloc::{AllocError, Global};
use ts_base::Stamp;
use ts_pattern::Junction;
use ts_row::Elem;

/// The rows that two series have at the stamps of their elements, from one stamp to another.
pub(crate) fn merged(
    alloc: Global,
    junction: Junction,
    first: &Side,
    second: &Side,
    from: Stamp,
    to: Stamp,
) -> Result<Rows<Joined>, AllocError>
    ensures { IfOk result
        (GathersJoined first.now second.now (rows_there junction (side_of first.now) (side_of second.now) from to)) }
{
    let mut rows = Rows::new(alloc);
    let mut i = 0;
    let mut j = 0;
    while i < first.elems.len() || j < second.elems.len() {
        let here = stamp_at(first.elems, i);
        let there = stamp_at(second.elems, j);
        let row = next_of(here, i, there, j);
        rows.push_if(belongs(junction, &row, from, to), row)?;
        i = behind(row.first, i);
        j = behind(row.second, j);
    }
    Ok(rows)
}

// The stamp of an element, if there is one of this index.
fn stamp_at(elems: &[Elem], k: usize) -> Option<Stamp>
    ensures { result ≡ stamp_at elems.now k }
{
    if k < elems.len() {
        Some(elems[k].stamp)
    } else {
        None
    }
}

// The row at the next stamp of two lists, which have these elements next.
fn next_of(first: Option<Stamp>, i: usize, second: Option<Stamp>, j: usize) -> Joined
    requires { IsSome first ⊎ IsSome second }
    ensures first { IsTaken first i result.stamp result.first }
    ensures second { IsTaken second j result.stamp result.second }
    ensures some { IsSome result.first ⊎ IsSome result.second }
{
    match (first, second) {
        (Some(a), Some(b)) => earlier(a, i, b, j),
        (Some(a), None) => Joined {
            stamp: a,
            first: Some(i),
            second: None,
        },
        (None, Some(b)) => Joined {
            stamp: b,
            first: None,
            second: Some(j),
        },
        (None, None) => unreachable!(),
    }
}

// The row at the earlier of two stamps.
fn earlier(a: Stamp, i: usize, b: Stamp, j: usize) -> Joined
    ensures first { IsTaken (Some a) i result.stamp result.first }
    ensures second { IsTaken (Some b) j result.stamp result.second }
    ensures some { IsSome result.first ⊎ IsSome result.second }
{
    if a.units() < b.units() {
        return Joined {
            stamp: a,
            first: Some(i),
            second: None,
        };
    }
    if b.units() < a.units() {
        return Joined {
            stamp: b,
            first: None,
            second: Some(j),
        };
    }
    Joined {
        stamp: a,
        first: Some(i),
        second: Some(j),
    }
}

// Whether a stamp stands from one to another, both included.
fn is_between(stamp: Stamp, from: Stamp, to: Stamp) -> bool
    ensures { result ≡ is_between from to stamp }
{
    stamp.units() >= from.units() && stamp.units() <= to.units()
}

// Whether a row is kept of those from one stamp to another.
fn belongs(junction: Junction, row: &Joined, from: Stamp, to: Stamp) -> bool
    ensures { result ≡ (is_between from to row.now.stamp && is_kept junction row.now.first row.now.second) }
{
    is_between(row.stamp, from, to) && is_kept(junction, row.first, row.second)
}

/// Whether a row with these elements is kept.
pub(crate) fn is_kept(junction: Junction, first: Option<usize>, second: Option<usize>) -> bool
    ensures { result ≡ is_kept junction first second }
{
    match junction {
        Junction::And => first.is_some() && second.is_some(),
        Junction::Or => first.is_some() || second.is_some(),
    }
}

// The number behind an element, where it is taken.
fn behind(index: Option<usize>, k: usize) -> usize
    requires { k < 2 ^ 63 }
    ensures { result ≡ behind index k }
{
    match index {
        Some(_) => k + 1,
        None => k,
    }
}
