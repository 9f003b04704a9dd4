// The spans of all pages, sorted and judged: those of one series are apart, and two neighbours of an irregular one
// never fit one page.
ghost use Rattle.std.specs.Prelude.{◌≡◌, ◌↔◌, IsTrue, IsPermutation, All, MatchBool, MatchOption};
ghost use Rattle.ts_model.specs.Definitions.{IsDefinitions};
ghost use Rattle.ts_layout.specs.Meaning.{KeepLimits};
ghost use Rattle.ts_volume.specs.FirstBad.{IsLeast};
ghost use Rattle.ts_container.specs.Spans.{AreSorted, AreDifferent, IsSpan, IsApart, AreApart, AreMore, AreDense};
ghost use Rattle.ts_container.specs.Spans.{AreApartTo, HasClashTo, IsClash, IsThin, IsThinPair};

use crate::content::row_type_of;
use crate::lower::lower;
use crate::shape::is_irregular;
use crate::span::Span;
use ts_cells::page_room;
use ts_model::Defs;

/// Sorts them by their series, and those of one series by where they begin.
pub(crate) fn sort(spans: &mut Vec<Span>)
    ensures all { IsPermutation spans.old.items spans.new.items }
    ensures order { AreSorted spans.new.items }
{
    spans.sort_unstable_by_key(|span| (span.slot, span.first));
}

/// The least page that overlaps a lower page of its series.
pub(crate) fn overlapping(spans: &[Span]) -> Option<u32>
    requires order { AreSorted spans.now }
    requires ends { All IsSpan spans.now }
    requires pages { AreDifferent spans.now }
    ensures { MatchOption result (AreApart spans.now) (IsLeast (IsClash spans.now)) }
{
    for i in 1..spans.len() {
        let (first, second) = (&spans[i - 1], &spans[i]);
        if !are_apart(first, second) {
            return Some(least_overlapping(spans, first.page.max(second.page)));
        }
    }
    None
}

// Whether the first of two pages ends before the second begins, where they are of one series.
fn are_apart(first: &Span, second: &Span) -> bool
    ensures { IsTrue result ↔ IsApart first.now second.now }
{
    first.slot != second.slot || first.last < second.first
}

// The least page that overlaps a lower page of its series, where one up to a number does. It passes over the pages up
// to the middle of what is left, again and again.
fn least_overlapping(spans: &[Span], high: u32) -> u32
    requires order { AreSorted spans.now }
    requires ends { All IsSpan spans.now }
    requires pages { AreDifferent spans.now }
    requires some { HasClashTo high spans.now }
    ensures { IsLeast (IsClash spans.now) result }
{
    let mut low = 0;
    let mut high = high;
    while high - low > 1 {
        let middle = low + (high - low) / 2;
        if are_apart_to(spans, middle) {
            low = middle;
        } else {
            high = middle;
        }
    }
    high
}

// Whether of the pages up to a number no two of one series overlap.
fn are_apart_to(spans: &[Span], limit: u32) -> bool
    requires order { AreSorted spans.now }
    requires ends { All IsSpan spans.now }
    requires pages { AreDifferent spans.now }
    ensures { MatchBool result (AreApartTo limit spans.now) (HasClashTo limit spans.now) }
{
    let mut before: Option<usize> = None;
    for i in 0..spans.len() {
        if spans[i].page <= limit {
            if let Some(k) = before {
                if !are_apart(&spans[k], &spans[i]) {
                    return false;
                }
            }
            before = Some(i);
        }
    }
    true
}

/// The least page that fits one page with the next one of its series, which is irregular.
pub(crate) fn sparse(defs: &Defs, spans: &[Span]) -> Option<u32>
    requires limits { KeepLimits defs.now.definitions }
    requires rules { IsDefinitions defs.now.definitions }
    ensures { MatchOption result (AreDense defs.now.definitions spans.now)
        (IsLeast (IsThin defs.now.definitions spans.now)) }
{
    let mut least = None;
    for i in 1..spans.len() {
        least = lower(least, sparse_page(defs, &spans[i - 1], &spans[i]));
    }
    least
}

// The first page of two, where they are of one irregular series and fit one page.
fn sparse_page(defs: &Defs, first: &Span, second: &Span) -> Option<u32>
    requires limits { KeepLimits defs.now.definitions }
    requires rules { IsDefinitions defs.now.definitions }
    ensures { MatchOption result (AreMore defs.now.definitions first.now second.now)
        (λ page. (page ≡ first.now.page) × IsThinPair defs.now.definitions first.now second.now) }
{
    if first.slot != second.slot || !is_irregular(defs, first.slot) {
        return None;
    }
    match row_type_of(defs, first.slot) {
        Some(kind) if first.count as usize + second.count as usize <= page_room(kind) => {
            Some(first.page)
        }
        _ => None,
    }
}
