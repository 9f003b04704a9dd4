// An edit at a stamp that puts a row: as a new element, or in place of the row that stands there.
ghost use Rattle.std.specs.Prelude.{◌≡◌, ◌+◌, ◌^◌, ◌<◌, ◌≤◌, ℕ, IsTrue, IfOk, length};
ghost use Rattle.ts_row.specs.Row.{fits};
ghost use Rattle.ts_space.specs.Place.{count_of};
ghost use Rattle.ts_space.specs.Directory.{places_of};
ghost use Rattle.ts_page.specs.Pages.{Answered};
ghost use Rattle.ts_sheets.specs.Places.{ArePlaces};
ghost use Rattle.ts_series.specs.declared.edits.EditKind.TheVariants.{Put, PutNoDups, Insert, Update};
ghost use Rattle.ts_series.specs.Edit.{IsEdited, IsDone, GrowsWithin, charge_with_one};

use ts_base::{Refusal, Stamp, StoreFault};
use ts_cells::page_room;
use ts_chain::{chain_find, chain_insert, chain_place, chain_replace};
use ts_page::{Page, Pages};
use ts_row::{Row, Shelf};
use ts_space::{Moved, Space, charge_irregular};

/// What an edit does with its row at a stamp.
#[derive(Clone, Copy, Debug, PartialEq, Eq)]
pub enum EditKind {
    /// Adds an element there; where one stands there already, behind the last one of that second.
    Put,
    /// Adds an element there, or gives the one that stands there this row.
    PutNoDups,
    /// Adds an element where none stands.
    Insert,
    /// Gives the element that stands there this row.
    Update,
}

/// What an edit did. Nothing is refused for want of room in a container before all else is tried.
#[derive(Clone, Copy, Debug, PartialEq, Eq)]
pub enum Edited {
    /// An element was added at this stamp; these places go and come.
    Put { stamp: Stamp, moved: Moved },
    /// The element at the stamp has the row; all places stay.
    Replaced,
    /// Nothing: one stands there (Duplicate), none does (Missing), or its second has no place left (SecondFull).
    Refused(Refusal),
    /// Nothing: an element would be added, and the series would be charged more than there is room for.
    Full,
}

/// Edits the element at a stamp of a series. `room` is how many pages the series may be charged for, no more than there
/// are spare pages and own ones. Where one element more would be charged within it, an insert is tried first, so that
/// most edits read one page. A refusal leaves all pages; after an error pages may have changed in part. `page` is room
/// to read one.
pub fn edit<P: Pages>(
    pages: &mut P,
    page: &mut Page,
    space: &Space,
    shelf: &Shelf,
    how: EditKind,
    stamp: Stamp,
    row: &Row,
    room: u64,
) -> Result<Edited, StoreFault>
    requires slot { shelf.now.series < 4096 }
    requires places { ArePlaces shelf.now.kind.now.columns (P.contents pages.old)
        (places_of shelf.now.series space.now) }
    requires fits { IsTrue (fits shelf.now.kind.now.columns row.now) }
    requires countable { count_of (places_of shelf.now.series space.now) < 2 ^ 32 }
    requires room { room ≤ length (P.contents pages.old).free + length (places_of shelf.now.series space.now) }
    ensures ok { IfOk result (IsEdited P.tells shelf.now.series shelf.now.kind.now.columns how stamp row.now room
        (places_of shelf.now.series space.now)
        (P.contents pages.old) (P.contents pages.new)) }
    ensures call { Answered result (P.contents pages.old) (P.contents pages.new) }
    ensures grows { IfOk result (λ edited. GrowsWithin 16424 (P.contents pages.old) (P.contents pages.new)) }
    ensures change { (P.contents pages.new).change_bytes ≤ (P.contents pages.old).change_bytes + 16424 }
    ensures undisturbed { P.undisturbed pages.old pages.new }
{
    match how {
        EditKind::Put => put(pages, page, space, shelf, stamp, row, room),
        EditKind::PutNoDups => put_no_dups(pages, page, space, shelf, stamp, row, room),
        EditKind::Insert => insert(pages, page, space, shelf, stamp, row, room),
        EditKind::Update => update(pages, page, space, shelf, stamp, row),
    }
}

// Adds an element at a stamp; where one stands there, behind the last one of its second.
fn put<P: Pages>(
    pages: &mut P,
    page: &mut Page,
    space: &Space,
    shelf: &Shelf,
    stamp: Stamp,
    row: &Row,
    room: u64,
) -> Result<Edited, StoreFault>
    requires slot { shelf.now.series < 4096 }
    requires places { ArePlaces shelf.now.kind.now.columns (P.contents pages.old)
        (places_of shelf.now.series space.now) }
    requires fits { IsTrue (fits shelf.now.kind.now.columns row.now) }
    requires countable { count_of (places_of shelf.now.series space.now) < 2 ^ 32 }
    requires room { room ≤ length (P.contents pages.old).free + length (places_of shelf.now.series space.now) }
    ensures done { IsDone P.tells shelf.now.series shelf.now.kind.now.columns Put stamp row.now room
        (places_of shelf.now.series space.now)
        (P.contents pages.old) (P.contents pages.new) result }
    ensures undisturbed { P.undisturbed pages.old pages.new }
{
    if !has_room(space, shelf, room) {
        return Ok(match chain_place(pages, page, space, shelf, stamp)? {
            Some(_) => Edited::Full,
            None => Edited::Refused(Refusal::SecondFull),
        });
    }
    match chain_insert(pages, page, space, shelf, stamp, row)? {
        Some(moved) => Ok(Edited::Put { stamp, moved }),
        None => put_behind(pages, page, space, shelf, stamp, row, room),
    }
}

// Adds an element at the place that a stamp gets, where there is room for one.
fn put_behind<P: Pages>(
    pages: &mut P,
    page: &mut Page,
    space: &Space,
    shelf: &Shelf,
    stamp: Stamp,
    row: &Row,
    room: u64,
) -> Result<Edited, StoreFault>
    requires slot { shelf.now.series < 4096 }
    requires places { ArePlaces shelf.now.kind.now.columns (P.contents pages.old)
        (places_of shelf.now.series space.now) }
    requires fits { IsTrue (fits shelf.now.kind.now.columns row.now) }
    requires countable { count_of (places_of shelf.now.series space.now) < 2 ^ 32 }
    requires within { charge_with_one shelf.now.kind.now.columns (places_of shelf.now.series space.now) ≤ room }
    requires room { room ≤ length (P.contents pages.old).free + length (places_of shelf.now.series space.now) }
    ensures done { IsDone P.tells shelf.now.series shelf.now.kind.now.columns Put stamp row.now room
        (places_of shelf.now.series space.now)
        (P.contents pages.old) (P.contents pages.new) result }
    ensures undisturbed { P.undisturbed pages.old pages.new }
{
    let Some(at) = chain_place(pages, page, space, shelf, stamp)? else {
        return Ok(Edited::Refused(Refusal::SecondFull));
    };
    match chain_insert(pages, page, space, shelf, at, row)? {
        Some(moved) => Ok(Edited::Put { stamp: at, moved }),
        // No element stands at a place that is given.
        None => Ok(Edited::Refused(Refusal::SecondFull)),
    }
}

// Adds an element at a stamp, or gives the one that stands there a row.
fn put_no_dups<P: Pages>(
    pages: &mut P,
    page: &mut Page,
    space: &Space,
    shelf: &Shelf,
    stamp: Stamp,
    row: &Row,
    room: u64,
) -> Result<Edited, StoreFault>
    requires slot { shelf.now.series < 4096 }
    requires places { ArePlaces shelf.now.kind.now.columns (P.contents pages.old)
        (places_of shelf.now.series space.now) }
    requires fits { IsTrue (fits shelf.now.kind.now.columns row.now) }
    requires countable { count_of (places_of shelf.now.series space.now) < 2 ^ 32 }
    requires room { room ≤ length (P.contents pages.old).free + length (places_of shelf.now.series space.now) }
    ensures done { IsDone P.tells shelf.now.series shelf.now.kind.now.columns PutNoDups stamp row.now room
        (places_of shelf.now.series space.now)
        (P.contents pages.old) (P.contents pages.new) result }
    ensures undisturbed { P.undisturbed pages.old pages.new }
{
    if !has_room(space, shelf, room) {
        let replaced = chain_replace(pages, page, space, shelf, stamp, row)?;
        return Ok(if replaced {
            Edited::Replaced
        } else {
            Edited::Full
        });
    }
    match chain_insert(pages, page, space, shelf, stamp, row)? {
        Some(moved) => Ok(Edited::Put { stamp, moved }),
        None => update(pages, page, space, shelf, stamp, row),
    }
}

// Adds an element at a stamp where none stands.
fn insert<P: Pages>(
    pages: &mut P,
    page: &mut Page,
    space: &Space,
    shelf: &Shelf,
    stamp: Stamp,
    row: &Row,
    room: u64,
) -> Result<Edited, StoreFault>
    requires slot { shelf.now.series < 4096 }
    requires places { ArePlaces shelf.now.kind.now.columns (P.contents pages.old)
        (places_of shelf.now.series space.now) }
    requires fits { IsTrue (fits shelf.now.kind.now.columns row.now) }
    requires countable { count_of (places_of shelf.now.series space.now) < 2 ^ 32 }
    requires room { room ≤ length (P.contents pages.old).free + length (places_of shelf.now.series space.now) }
    ensures done { IsDone P.tells shelf.now.series shelf.now.kind.now.columns Insert stamp row.now room
        (places_of shelf.now.series space.now)
        (P.contents pages.old) (P.contents pages.new) result }
    ensures undisturbed { P.undisturbed pages.old pages.new }
{
    if !has_room(space, shelf, room) {
        let found = chain_find(pages, page, space, shelf, stamp)?;
        return Ok(if found.is_some() {
            Edited::Refused(Refusal::Duplicate)
        } else {
            Edited::Full
        });
    }
    match chain_insert(pages, page, space, shelf, stamp, row)? {
        Some(moved) => Ok(Edited::Put { stamp, moved }),
        None => Ok(Edited::Refused(Refusal::Duplicate)),
    }
}

// Gives the element that stands at a stamp a row.
fn update<P: Pages>(
    pages: &mut P,
    page: &mut Page,
    space: &Space,
    shelf: &Shelf,
    stamp: Stamp,
    row: &Row,
) -> Result<Edited, StoreFault>
    requires slot { shelf.now.series < 4096 }
    requires places { ArePlaces shelf.now.kind.now.columns (P.contents pages.old)
        (places_of shelf.now.series space.now) }
    requires fits { IsTrue (fits shelf.now.kind.now.columns row.now) }
    ensures done { (room : ℕ) → IsDone P.tells shelf.now.series shelf.now.kind.now.columns Update stamp row.now room
        (places_of shelf.now.series space.now)
        (P.contents pages.old) (P.contents pages.new) result }
    ensures undisturbed { P.undisturbed pages.old pages.new }
{
    let replaced = chain_replace(pages, page, space, shelf, stamp, row)?;
    if replaced {
        Ok(Edited::Replaced)
    } else {
        Ok(Edited::Refused(Refusal::Missing))
    }
}

// Whether one element more of a series is charged within so many pages.
fn has_room(space: &Space, shelf: &Shelf, room: u64) -> bool
    requires slot { shelf.now.series < 4096 }
    requires countable { count_of (places_of shelf.now.series space.now) < 2 ^ 32 }
    ensures yes { IsTrue result
        → charge_with_one shelf.now.kind.now.columns (places_of shelf.now.series space.now) ≤ room }
    ensures no { ¬ IsTrue result
        → room < charge_with_one shelf.now.kind.now.columns (places_of shelf.now.series space.now) }
{
    charge_with_one(space, shelf) <= room
}

/// How many pages a series is charged for with one element more, by its places.
pub fn charge_with_one(space: &Space, shelf: &Shelf) -> u64
    requires slot { shelf.now.series < 4096 }
    requires countable { count_of (places_of shelf.now.series space.now) < 2 ^ 32 }
    ensures value { result ≡ charge_with_one shelf.now.kind.now.columns (places_of shelf.now.series space.now) }
    ensures bound { result < 2 ^ 34 }
{
    // A page has room for one row at least, by the greatest width.
    let _width = shelf.kind.width();
    let count = space.count(shelf.series);
    charge_irregular(count + 1, page_room(shelf.kind) as u64)
}
