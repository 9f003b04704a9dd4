// An edit at a stamp that puts a row at the start of its interval: as a new element, or in place of the row that stands
// there.
ghost use Rattle.std.specs.Prelude.{◌≡◌, ◌+◌, ◌^◌, ◌<◌, ◌≤◌, false, None, IsTrue, IfOk, OnErr, length};
ghost use Rattle.ts_row.specs.Row.{fits};
ghost use Rattle.ts_space.specs.Place.{IsRising};
ghost use Rattle.ts_space.specs.Directory.{places_of};
ghost use Rattle.ts_page.specs.Pages.{Answered, image_entry_size};
ghost use Rattle.ts_regular.specs.Places.{ArePlaces};
ghost use Rattle.ts_regular.specs.Call.{AreLeft};
ghost use Rattle.ts_series.specs.declared.edits.EditKind.{EditKind as TheKind};
ghost use Rattle.ts_series.specs.declared.edits.EditKind.TheVariants.{Insert, Update};
ghost use Rattle.ts_series.specs.Edit.{GrowsWithin};
ghost use Rattle.ts_regular_edits.specs.Edit.{IsEdited, IsDone, IsRefusedFor, NeedsPage, most_edit};

use crate::address::addressed;
use ts_base::{Refusal, Stamp, StoreFault};
use ts_offset::Grid;
use ts_page::{Page, Pages};
use ts_regular::{base_of, regular_find, regular_put};
use ts_row::{Row, Shelf};
use ts_series::{EditKind, Edited};
use ts_space::{Space, search};

/// Edits the element that a stamp addresses, and tells the start of its interval and which place goes and comes, also
/// where the row replaces one; refused as the grid does where it addresses none. `room` is how many pages the series
/// may have, no more than there are spare pages and own ones: it is full where an element would come on a page that it
/// doesn't have, and one page more is over that. One page is read, twice where an element must stand there or must not,
/// and the same one written. A refusal leaves all pages; after an error all pages are as before, and one may be taken.
/// `page` is room to read one.
pub fn edit_at<P: Pages>(
    pages: &mut P,
    page: &mut Page,
    space: &Space,
    shelf: &Shelf,
    grid: &Grid<'_>,
    how: EditKind,
    stamp: Stamp,
    row: &Row,
    room: u64,
) -> Result<Edited, StoreFault>
    requires slot { shelf.now.series < 4096 }
    requires places { ArePlaces shelf.now.kind.now.columns (P.contents pages.old)
        (places_of shelf.now.series space.now) }
    requires fits { IsTrue (fits shelf.now.kind.now.columns row.now) }
    requires room { room ≤ length (P.contents pages.old).free + length (places_of shelf.now.series space.now) }
    ensures ok { IfOk result
        (IsEdited P.tells shelf.now.series shelf.now.kind.now.columns grid.now how stamp row.now room
        (places_of shelf.now.series space.now) (P.contents pages.old) (P.contents pages.new)) }
    ensures err { OnErr result (AreLeft P.tells (P.contents pages.old) (P.contents pages.new)) }
    ensures call { Answered result (P.contents pages.old) (P.contents pages.new) }
    ensures grows { IfOk result (λ done. GrowsWithin most_edit (P.contents pages.old) (P.contents pages.new)) }
    ensures change { (P.contents pages.new).change_bytes ≤ (P.contents pages.old).change_bytes + image_entry_size }
    ensures undisturbed { P.undisturbed pages.old pages.new }
{
    match addressed(grid, stamp) {
        Ok(at) => edit_offset(
            pages, page, space, shelf, how, at.offset, at.start, row, room,
        ),
        Err(why) => Ok(Edited::Refused(why)),
    }
}

// Edits the element at an offset, whose interval starts at a stamp.
fn edit_offset<P: Pages>(
    pages: &mut P,
    page: &mut Page,
    space: &Space,
    shelf: &Shelf,
    how: EditKind,
    offset: u64,
    start: Stamp,
    row: &Row,
    room: u64,
) -> Result<Edited, StoreFault>
    requires slot { shelf.now.series < 4096 }
    requires limit { offset < 2 ^ 63 }
    requires places { ArePlaces shelf.now.kind.now.columns (P.contents pages.old)
        (places_of shelf.now.series space.now) }
    requires fits { IsTrue (fits shelf.now.kind.now.columns row.now) }
    requires room { room ≤ length (P.contents pages.old).free + length (places_of shelf.now.series space.now) }
    ensures done { IsDone P.tells shelf.now.series shelf.now.kind.now.columns how offset start row.now room
        (places_of shelf.now.series space.now) (P.contents pages.old) (P.contents pages.new) result }
    ensures undisturbed { P.undisturbed pages.old pages.new }
{
    match how {
        EditKind::Put | EditKind::PutNoDups => {
            put(pages, page, space, shelf, offset, start, row, room)
        }
        EditKind::Insert => insert(pages, page, space, shelf, offset, start, row, room),
        EditKind::Update => update(pages, page, space, shelf, offset, start, row, room),
    }
}

// Puts a row at an offset, where that is allowed.
fn put<P: Pages>(
    pages: &mut P,
    page: &mut Page,
    space: &Space,
    shelf: &Shelf,
    offset: u64,
    start: Stamp,
    row: &Row,
    room: u64,
) -> Result<Edited, StoreFault>
    requires slot { shelf.now.series < 4096 }
    requires limit { offset < 2 ^ 63 }
    requires places { ArePlaces shelf.now.kind.now.columns (P.contents pages.old)
        (places_of shelf.now.series space.now) }
    requires fits { IsTrue (fits shelf.now.kind.now.columns row.now) }
    requires room { room ≤ length (P.contents pages.old).free + length (places_of shelf.now.series space.now) }
    ensures done { (how : TheKind) → IsRefusedFor P.tells shelf.now.series shelf.now.kind.now.columns how offset
        (places_of shelf.now.series space.now) (P.contents pages.old) None
        → IsDone P.tells shelf.now.series shelf.now.kind.now.columns how offset start row.now room
        (places_of shelf.now.series space.now) (P.contents pages.old) (P.contents pages.new) result }
    ensures undisturbed { P.undisturbed pages.old pages.new }
{
    if is_full(space, shelf, offset, room) {
        return Ok(Edited::Full);
    }
    let moved = regular_put(pages, page, space, shelf, offset, row)?;
    Ok(Edited::Put {
        stamp: start,
        moved,
    })
}

// Puts one where no element stands.
fn insert<P: Pages>(
    pages: &mut P,
    page: &mut Page,
    space: &Space,
    shelf: &Shelf,
    offset: u64,
    start: Stamp,
    row: &Row,
    room: u64,
) -> Result<Edited, StoreFault>
    requires slot { shelf.now.series < 4096 }
    requires limit { offset < 2 ^ 63 }
    requires places { ArePlaces shelf.now.kind.now.columns (P.contents pages.old)
        (places_of shelf.now.series space.now) }
    requires fits { IsTrue (fits shelf.now.kind.now.columns row.now) }
    requires room { room ≤ length (P.contents pages.old).free + length (places_of shelf.now.series space.now) }
    ensures done { IsDone P.tells shelf.now.series shelf.now.kind.now.columns Insert offset start row.now room
        (places_of shelf.now.series space.now) (P.contents pages.old) (P.contents pages.new) result }
    ensures undisturbed { P.undisturbed pages.old pages.new }
{
    let there = regular_find(pages, page, space, shelf, offset)?.is_some();
    if there {
        return Ok(Edited::Refused(Refusal::Duplicate));
    }
    put(pages, page, space, shelf, offset, start, row, room)
}

// Puts one in place of that which stands there.
fn update<P: Pages>(
    pages: &mut P,
    page: &mut Page,
    space: &Space,
    shelf: &Shelf,
    offset: u64,
    start: Stamp,
    row: &Row,
    room: u64,
) -> Result<Edited, StoreFault>
    requires slot { shelf.now.series < 4096 }
    requires limit { offset < 2 ^ 63 }
    requires places { ArePlaces shelf.now.kind.now.columns (P.contents pages.old)
        (places_of shelf.now.series space.now) }
    requires fits { IsTrue (fits shelf.now.kind.now.columns row.now) }
    requires room { room ≤ length (P.contents pages.old).free + length (places_of shelf.now.series space.now) }
    ensures done { IsDone P.tells shelf.now.series shelf.now.kind.now.columns Update offset start row.now room
        (places_of shelf.now.series space.now) (P.contents pages.old) (P.contents pages.new) result }
    ensures undisturbed { P.undisturbed pages.old pages.new }
{
    let there = regular_find(pages, page, space, shelf, offset)?.is_some();
    if !there {
        return Ok(Edited::Refused(Refusal::Missing));
    }
    put(pages, page, space, shelf, offset, start, row, room)
}

// Whether an element at an offset needs a page more than a series may have.
fn is_full(space: &Space, shelf: &Shelf, offset: u64, room: u64) -> bool
    requires slot { shelf.now.series < 4096 }
    requires limit { offset < 2 ^ 63 }
    ensures needs { IsTrue result → NeedsPage shelf.now.kind.now.columns offset (places_of shelf.now.series space.now) }
    ensures over { IsTrue result → room ≤ length (places_of shelf.now.series space.now) }
    ensures rising { IsRising (places_of shelf.now.series space.now) }
    ensures no { result ≡ false → NeedsPage shelf.now.kind.now.columns offset (places_of shelf.now.series space.now)
        → length (places_of shelf.now.series space.now) < room }
{
    let places = space.places(shelf.series);
    if (places.len() as u64) < room {
        return false;
    }
    search(places, base_of(shelf.kind, offset) as i64).is_err()
}
