// The edits of a series on its pages, each by its shape.
ghost use Rattle.std.specs.Prelude.{◌≡◌, ◌+◌, ◌*◌, ◌^◌, ◌<◌, ◌≤◌, false, IsTrue, IfOk, Ok, Err, length};
ghost use Rattle.ts_base.specs.declared.refusal.Refusal.TheVariants.{Missing};
ghost use Rattle.ts_row.specs.Row.{fits};
ghost use Rattle.ts_space.specs.Place.{IsRising, count_of};
ghost use Rattle.ts_space.specs.Directory.{places_of};
ghost use Rattle.ts_page.specs.Pages.{Answered};
ghost use Rattle.ts_cells.specs.IrregularPage.{page_room};
ghost use Rattle.ts_model.specs.Definitions.{series_slots};
ghost use Rattle.ts_answer.specs.CarriedOut.{Grows};
ghost use Rattle.ts_elements.specs.Stamps.{ArePlaces};
ghost use Rattle.ts_offset.specs.Shape.{IsLaidOut};
ghost use Rattle.ts_elements.specs.Calls.{IsEdited, IsMarked, IsRemoved, IsCleared};

use std::alloc::Global;
use ts_base::{Refusal, Stamp, StoreFault};
use ts_chain::{chain_mark, chain_remove};
use ts_offset::Shape;
use ts_page::{Page, Pages};
use ts_regular_edits::{clear_at, delete_at, edit_at, mark_at};
use ts_row::{Row, Shelf};
use ts_series::{EditKind, Edited, del_clip, edit};
use ts_space::{Moved, Space};

/// Edits the element that a stamp addresses. `room` is how many pages the series may be charged for, no more than there
/// are spare pages and own ones. A refusal leaves all pages; after an error pages may have changed in part. `page` is
/// room to read one.
pub(crate) fn edit_in<P: Pages>(
    pages: &mut P,
    page: &mut Page,
    space: &Space,
    shelf: &Shelf,
    shape: &Shape<'_>,
    how: EditKind,
    stamp: Stamp,
    row: &Row,
    room: u64,
) -> Result<Edited, StoreFault>
    requires slot { shelf.now.series < series_slots }
    requires laid { IsLaidOut shape.now }
    requires some { 0 < page_room shelf.now.kind.now.columns }
    requires rising { IsRising (places_of shelf.now.series space.now) }
    requires places { ArePlaces shape.now shelf.now.kind.now.columns (P.contents pages.old)
        (places_of shelf.now.series space.now) }
    requires fits { IsTrue (fits shelf.now.kind.now.columns row.now) }
    requires countable { count_of (places_of shelf.now.series space.now) < 2 ^ 32 }
    requires room { room ≤ length (P.contents pages.old).free + length (places_of shelf.now.series space.now) }
    ensures ok { IfOk result
        (IsEdited P.tells shape.now shelf.now.series shelf.now.kind.now.columns how stamp row.now room
        (places_of shelf.now.series space.now) (P.contents pages.old) (P.contents pages.new)) }
    ensures call { Answered result (P.contents pages.old) (P.contents pages.new) }
    ensures grows { IfOk result (λ edited. Grows 1 (P.contents pages.old) (P.contents pages.new)) }
    ensures change { (P.contents pages.new).change_bytes ≤ (P.contents pages.old).change_bytes + 16424 }
    ensures undisturbed { P.undisturbed pages.old pages.new }
{
    match shape {
        Shape::Irregular => edit(pages, page, space, shelf, how, stamp, row, room),
        Shape::Regular(grid) => edit_at(pages, page, space, shelf, grid, how, stamp, row, room),
    }
}

/// Hides the element that a stamp addresses, or shows it again, and tells the stamp at which it stands; refused where
/// it addresses none, and where none stands there. A refusal leaves all pages. `page` is room to read one.
pub(crate) fn mark_in<P: Pages>(
    pages: &mut P,
    page: &mut Page,
    space: &Space,
    shelf: &Shelf,
    shape: &Shape<'_>,
    stamp: Stamp,
    hidden: bool,
) -> Result<Result<Stamp, Refusal>, StoreFault>
    requires slot { shelf.now.series < series_slots }
    requires laid { IsLaidOut shape.now }
    requires places { ArePlaces shape.now shelf.now.kind.now.columns (P.contents pages.old)
        (places_of shelf.now.series space.now) }
    ensures ok { IfOk result (IsMarked P.tells shape.now shelf.now.series shelf.now.kind.now.columns stamp hidden
        (places_of shelf.now.series space.now) (P.contents pages.old) (P.contents pages.new)) }
    ensures call { Answered result (P.contents pages.old) (P.contents pages.new) }
    ensures change { (P.contents pages.new).change_bytes ≤ (P.contents pages.old).change_bytes + 4101 }
    ensures undisturbed { P.undisturbed pages.old pages.new }
{
    match shape {
        Shape::Irregular => {
            let there = chain_mark(pages, page, space, shelf, stamp, hidden)?;
            Ok(stamp_if(there, stamp))
        }
        Shape::Regular(grid) => mark_at(pages, page, space, shelf, grid, stamp, hidden),
    }
}

// The stamp of an element that is there, or that it is missing.
fn stamp_if(there: bool, stamp: Stamp) -> Result<Stamp, Refusal>
    ensures there { IsTrue there → result ≡ Ok stamp }
    ensures none { there ≡ false → result ≡ Err Missing }
{
    if there {
        Ok(stamp)
    } else {
        Err(Refusal::Missing)
    }
}

/// Takes away the element that a stamp addresses, and tells which places go and come: none, and no page changes, where
/// it addresses none that is there. `page` is room to read one.
pub(crate) fn remove_in<P: Pages>(
    pages: &mut P,
    page: &mut Page,
    space: &Space,
    shelf: &Shelf,
    shape: &Shape<'_>,
    stamp: Stamp,
) -> Result<Option<Moved>, StoreFault>
    requires slot { shelf.now.series < series_slots }
    requires laid { IsLaidOut shape.now }
    requires some { 0 < page_room shelf.now.kind.now.columns }
    requires places { ArePlaces shape.now shelf.now.kind.now.columns (P.contents pages.old)
        (places_of shelf.now.series space.now) }
    ensures ok { IfOk result (IsRemoved P.tells shape.now shelf.now.series shelf.now.kind.now.columns stamp
        (places_of shelf.now.series space.now) (P.contents pages.old) (P.contents pages.new)) }
    ensures call { Answered result (P.contents pages.old) (P.contents pages.new) }
    ensures change { (P.contents pages.new).change_bytes ≤ (P.contents pages.old).change_bytes + 4106 }
    ensures undisturbed { P.undisturbed pages.old pages.new }
{
    match shape {
        Shape::Irregular => chain_remove(pages, page, space, shelf, stamp),
        Shape::Regular(grid) => delete_at(pages, page, space, shelf, grid, stamp),
    }
}

/// Takes all elements from one stamp to another away, both included; gives how many they were, and which places go and
/// come: none, and no page changes, where none stands there. `page` is room to read one; the memory is for the numbers
/// of the pages that are freed, 4 bytes each.
pub(crate) fn clear_in<P: Pages>(
    alloc: Global,
    pages: &mut P,
    page: &mut Page,
    space: &Space,
    shelf: &Shelf,
    shape: &Shape<'_>,
    from: Stamp,
    to: Stamp,
) -> Result<(u64, Option<Moved>), StoreFault>
    requires slot { shelf.now.series < series_slots }
    requires laid { IsLaidOut shape.now }
    requires some { 0 < page_room shelf.now.kind.now.columns }
    requires places { ArePlaces shape.now shelf.now.kind.now.columns (P.contents pages.old)
        (places_of shelf.now.series space.now) }
    ensures ok { IfOk result (λ r. IsCleared P.tells shape.now shelf.now.series shelf.now.kind.now.columns from to
        (places_of shelf.now.series space.now) (P.contents pages.old) (P.contents pages.new) r.0 r.1) }
    ensures call { Answered result (P.contents pages.old) (P.contents pages.new) }
    ensures change { (P.contents pages.new).change_bytes
        ≤ (P.contents pages.old).change_bytes + 8202 + 5 * length (places_of shelf.now.series space.now) }
    ensures grows { IfOk result (λ done. Grows 1 (P.contents pages.old) (P.contents pages.new)) }
    ensures undisturbed { P.undisturbed pages.old pages.new }
{
    match shape {
        Shape::Irregular => del_clip(alloc, pages, page, space, shelf, from, to),
        Shape::Regular(grid) => clear_at(alloc, pages, page, space, shelf, grid, from, to),
    }
}
