// What is read of a series, whatever its shape.
ghost use Rattle.std.specs.Prelude.{◌≡◌, ◌<◌, IfOk, length};
ghost use Rattle.ts_space.specs.Directory.{places_of};
ghost use Rattle.ts_irregular.specs.Call.{Reads};
ghost use Rattle.ts_entry.specs.Entry.{AreTaken, reading, clipped, counted, entry_number};
ghost use Rattle.ts_base.specs.Answer.{within_rows};
ghost use Rattle.ts_clip.specs.Series.{ArePlaces, IsTold};
ghost use Rattle.ts_offset.specs.Shape.{IsLaidOut};
ghost use Rattle.ts_clip.specs.Call.{IsRead, IsShown, AreElementsTaken};

use crate::chain::{chain_clip, chain_clip_count, chain_clip_len, chain_elements, chain_nth};
use crate::grid::{grid_clip, grid_clip_count, grid_clip_len, grid_nth};
use crate::grid_range::grid_elements;
use ts_base::{Refusal, Stamp, StoreFault};
use ts_entry::EntryVisitor;
use ts_offset::Shape;
use ts_page::{Page, Pages};
use ts_row::Shelf;
use ts_space::Space;

/// Hands the entries from one stamp to another, both included, to a visitor, and tells how many they are; TooLarge
/// where they are more than 1000000, and then none is handed on. Of an irregular series the pages of the range are
/// read, twice where they may have more elements than that; of a regular one those of the range, and before them the
/// pages from the last one backwards, up to the first that has an element which isn't hidden. All pages stay; `page` is
/// room to read one.
pub fn clip<P: Pages, V: EntryVisitor>(
    pages: &mut P,
    page: &mut Page,
    space: &Space,
    shelf: &Shelf,
    shape: &Shape<'_>,
    from: Stamp,
    to: Stamp,
    visitor: &mut V,
) -> Result<Result<u64, Refusal>, StoreFault>
    requires slot { shelf.now.series < 4096 }
    requires laid { IsLaidOut shape.now }
    requires places { ArePlaces shape.now shelf.now.kind.now.columns (P.contents pages.old)
        (places_of shelf.now.series space.now) }
    ensures read { IfOk result (λ done. IsTold P.tells shape.now shelf.now.series shelf.now.kind.now.columns
        (places_of shelf.now.series space.now) (P.contents pages.old)
        (λ es. IsRead (λ entries. V.took shelf.now.kind.now.columns visitor.old entries visitor.new)
        (within_rows (clipped from to (reading shape.now es))) done)) }
    ensures call { Reads P.tells result (P.contents pages.old) (P.contents pages.new) }
    ensures undisturbed { P.undisturbed pages.old pages.new }
{
    match shape {
        Shape::Irregular => chain_clip(pages, page, space, shelf, from, to, visitor),
        Shape::Regular(grid) => grid_clip(pages, page, space, shelf, grid, from, to, visitor),
    }
}

/// How many entries stand from one stamp to another, both included. Of a regular series the pages are read from the
/// last one backwards, up to the first that has an element that isn't hidden; of an irregular one those of the range.
pub fn clip_len<P: Pages>(
    pages: &mut P,
    page: &mut Page,
    space: &Space,
    shelf: &Shelf,
    shape: &Shape<'_>,
    from: Stamp,
    to: Stamp,
) -> Result<u64, StoreFault>
    requires slot { shelf.now.series < 4096 }
    requires laid { IsLaidOut shape.now }
    requires places { ArePlaces shape.now shelf.now.kind.now.columns (P.contents pages.old)
        (places_of shelf.now.series space.now) }
    ensures read { IfOk result (λ count. IsTold P.tells shape.now shelf.now.series shelf.now.kind.now.columns
        (places_of shelf.now.series space.now) (P.contents pages.old)
        (λ es. count ≡ length (clipped from to (reading shape.now es)))) }
    ensures call { Reads P.tells result (P.contents pages.old) (P.contents pages.new) }
    ensures undisturbed { P.undisturbed pages.old pages.new }
{
    clip_len_shown(pages, page, space, shelf, shape, false, from, to)
}

/// The same, where `shown` may tell that no element of the series is hidden, and is right: of an irregular series the
/// two pages at the ends of the range are read then, and no others.
pub fn clip_len_shown<P: Pages>(
    pages: &mut P,
    page: &mut Page,
    space: &Space,
    shelf: &Shelf,
    shape: &Shape<'_>,
    shown: bool,
    from: Stamp,
    to: Stamp,
) -> Result<u64, StoreFault>
    requires slot { shelf.now.series < 4096 }
    requires laid { IsLaidOut shape.now }
    requires places { ArePlaces shape.now shelf.now.kind.now.columns (P.contents pages.old)
        (places_of shelf.now.series space.now) }
    ensures read { IfOk result (λ count. IsTold P.tells shape.now shelf.now.series shelf.now.kind.now.columns
        (places_of shelf.now.series space.now) (P.contents pages.old)
        (λ es. IsShown shown es → count ≡ length (clipped from to (reading shape.now es)))) }
    ensures call { Reads P.tells result (P.contents pages.old) (P.contents pages.new) }
    ensures undisturbed { P.undisturbed pages.old pages.new }
{
    match shape {
        Shape::Irregular => chain_clip_len(pages, page, space, shelf, shown, from, to),
        Shape::Regular(grid) => grid_clip_len(pages, page, space, shelf, grid, from, to),
    }
}

/// Hands the first n entries from a stamp on to a visitor, or, where n is negative, the last -n up to it, in rising
/// order; tells how many they are, which are fewer where there are fewer.
pub fn clip_count<P: Pages, V: EntryVisitor>(
    pages: &mut P,
    page: &mut Page,
    space: &Space,
    shelf: &Shelf,
    shape: &Shape<'_>,
    stamp: Stamp,
    n: i64,
    visitor: &mut V,
) -> Result<u64, StoreFault>
    requires slot { shelf.now.series < 4096 }
    requires laid { IsLaidOut shape.now }
    requires places { ArePlaces shape.now shelf.now.kind.now.columns (P.contents pages.old)
        (places_of shelf.now.series space.now) }
    ensures read { IfOk result (λ count. IsTold P.tells shape.now shelf.now.series shelf.now.kind.now.columns
        (places_of shelf.now.series space.now) (P.contents pages.old)
        (λ es. AreTaken (λ entries. V.took shelf.now.kind.now.columns visitor.old entries visitor.new)
        (counted stamp n (reading shape.now es)) count)) }
    ensures call { Reads P.tells result (P.contents pages.old) (P.contents pages.new) }
    ensures undisturbed { P.undisturbed pages.old pages.new }
{
    match shape {
        Shape::Irregular => chain_clip_count(pages, page, space, shelf, stamp, n, visitor),
        Shape::Regular(grid) => grid_clip_count(pages, page, space, shelf, grid, stamp, n, visitor),
    }
}

/// Hands the entry of a number, counted from 0, to a visitor, and tells how many that are: one, or none where there are
/// fewer. Of a regular series its page is read, and before it the pages from the last one backwards, up to the first
/// that has an element which isn't hidden; of an irregular one all pages up to its own.
pub fn nth<P: Pages, V: EntryVisitor>(
    pages: &mut P,
    page: &mut Page,
    space: &Space,
    shelf: &Shelf,
    shape: &Shape<'_>,
    n: u64,
    visitor: &mut V,
) -> Result<u64, StoreFault>
    requires slot { shelf.now.series < 4096 }
    requires laid { IsLaidOut shape.now }
    requires places { ArePlaces shape.now shelf.now.kind.now.columns (P.contents pages.old)
        (places_of shelf.now.series space.now) }
    ensures read { IfOk result (λ count. IsTold P.tells shape.now shelf.now.series shelf.now.kind.now.columns
        (places_of shelf.now.series space.now) (P.contents pages.old)
        (λ es. AreTaken (λ entries. V.took shelf.now.kind.now.columns visitor.old entries visitor.new)
        (entry_number n (reading shape.now es)) count)) }
    ensures call { Reads P.tells result (P.contents pages.old) (P.contents pages.new) }
    ensures undisturbed { P.undisturbed pages.old pages.new }
{
    nth_shown(pages, page, space, shelf, shape, false, n, visitor)
}

/// The same, where `shown` may tell that no element of the series is hidden, and is right: of an irregular series the
/// page of the entry is read then, and no other.
pub fn nth_shown<P: Pages, V: EntryVisitor>(
    pages: &mut P,
    page: &mut Page,
    space: &Space,
    shelf: &Shelf,
    shape: &Shape<'_>,
    shown: bool,
    n: u64,
    visitor: &mut V,
) -> Result<u64, StoreFault>
    requires slot { shelf.now.series < 4096 }
    requires laid { IsLaidOut shape.now }
    requires places { ArePlaces shape.now shelf.now.kind.now.columns (P.contents pages.old)
        (places_of shelf.now.series space.now) }
    ensures read { IfOk result (λ count. IsTold P.tells shape.now shelf.now.series shelf.now.kind.now.columns
        (places_of shelf.now.series space.now) (P.contents pages.old)
        (λ es. IsShown shown es
        → AreTaken (λ entries. V.took shelf.now.kind.now.columns visitor.old entries visitor.new)
        (entry_number n (reading shape.now es)) count)) }
    ensures call { Reads P.tells result (P.contents pages.old) (P.contents pages.new) }
    ensures undisturbed { P.undisturbed pages.old pages.new }
{
    match shape {
        Shape::Irregular => chain_nth(pages, page, space, shelf, shown, n, visitor),
        Shape::Regular(grid) => grid_nth(pages, page, space, shelf, grid, n, visitor),
    }
}

/// Hands the elements from one stamp to another, both included, to a visitor, those that aren't hidden; of a regular
/// series perhaps with entries without one between them, of the pages alone that have elements.
pub fn elements<P: Pages, V: EntryVisitor>(
    pages: &mut P,
    page: &mut Page,
    space: &Space,
    shelf: &Shelf,
    shape: &Shape<'_>,
    from: Stamp,
    to: Stamp,
    visitor: &mut V,
) -> Result<(), StoreFault>
    requires slot { shelf.now.series < 4096 }
    requires laid { IsLaidOut shape.now }
    requires places { ArePlaces shape.now shelf.now.kind.now.columns (P.contents pages.old)
        (places_of shelf.now.series space.now) }
    ensures read { IfOk result (λ done. IsTold P.tells shape.now shelf.now.series shelf.now.kind.now.columns
        (places_of shelf.now.series space.now) (P.contents pages.old)
        (λ es. AreElementsTaken
        (λ entries. V.took shelf.now.kind.now.columns visitor.old entries visitor.new) from to es)) }
    ensures call { Reads P.tells result (P.contents pages.old) (P.contents pages.new) }
    ensures undisturbed { P.undisturbed pages.old pages.new }
{
    match shape {
        Shape::Irregular => chain_elements(pages, page, space, shelf, from, to, visitor),
        Shape::Regular(grid) => grid_elements(pages, page, space, shelf, grid, from, to, visitor),
    }
}
