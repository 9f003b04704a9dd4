// The directory of the pages that were found.
ghost use Rattle.std.specs.Prelude.{◌≡◌, ◌≤◌, ◌<◌, IfOk, All, length, map, slice_range};
ghost use Rattle.std.specs.List.{AllWithin};
ghost use Rattle.ts_container.specs.Spans.{AreSorted, AreApart, IsSpan, Lists, place_in};

use crate::span::Span;
use std::alloc::{AllocError, Global};
use ts_space::{Place, Space};

/// So many slots there are for series.
const SERIES_SLOTS: u16 = 4096;

/// The directory of pages whose spans are sorted and apart.
pub(crate) fn directory_of(alloc: Global, spans: &[Span]) -> Result<Space, AllocError>
    requires order { AreSorted spans.now }
    requires ends { All IsSpan spans.now }
    requires apart { AreApart spans.now }
    ensures { IfOk result (Lists spans.now) }
{
    let mut space = Space::new(alloc)?;
    let mut first = 0;
    for slot in 0..SERIES_SLOTS {
        // So the directory has lists up to the last one with places alone, and a copy of it is as short.
        if first == spans.len() {
            return Ok(space);
        }
        let end = end_of(slot, spans);
        space.restore(slot, places_of(alloc, spans, first, end)?);
        first = end;
    }
    Ok(space)
}

// How many spans stand before those of later series.
fn end_of(slot: u16, spans: &[Span]) -> usize
    requires { AreSorted spans.now }
    ensures within { result ≤ length spans.now }
    ensures before { AllWithin (λ a. a.slot ≤ slot) spans.now 0 result }
    ensures behind { AllWithin (λ a. slot < a.slot) spans.now result (length spans.now) }
{
    spans.partition_point(|span| span.slot <= slot)
}

// The places of the pages from one index up to another.
fn places_of(
    alloc: Global,
    spans: &[Span],
    first: usize,
    end: usize,
) -> Result<Vec<Place>, AllocError>
    requires order { first ≤ end }
    requires within { end ≤ length spans.now }
    ensures { IfOk result (λ places. places.items ≡ map place_in (slice_range spans.now first end)) }
{
    let own = &spans[first..end];
    let mut places = Vec::with_capacity(alloc, own.len())?;
    for span in own {
        places.push(Place {
            at: span.first,
            page: span.page,
            count: span.count,
        })?;
    }
    Ok(places)
}
