// The element that a stamp addresses is read, marked or taken away.
ghost use Rattle.std.specs.Prelude.{◌≡◌, ◌+◌, ◌<◌, ◌≤◌, false, All, IsTrue, IfOk, IfSome, OnErr, Ok, Err, option_map};
ghost use Rattle.std.specs.Prelude.{length};
ghost use Rattle.ts_base.specs.declared.refusal.Refusal.TheVariants.{Missing};
ghost use Rattle.ts_row.specs.Row.{fits};
ghost use Rattle.ts_space.specs.Directory.{places_of};
ghost use Rattle.ts_page.specs.Pages.{Answered, image_entry_size};
ghost use Rattle.ts_regular.specs.Places.{ArePlaces, CanBeRead};
ghost use Rattle.ts_regular.specs.Call.{AreLeft, Reads};
ghost use Rattle.ts_regular_edits.specs.Element.{IsFoundAt, IsMarkedAt, IsRemovedAt};

use crate::address::addressed;
use ts_base::{Refusal, Stamp, StoreFault};
use ts_offset::Grid;
use ts_page::{Page, Pages};
use ts_regular::{regular_find, regular_mark, regular_remove};
use ts_row::{Row, Shelf};
use ts_space::{Moved, Space};

/// The element that a stamp addresses, hidden or not, with the start of its interval as its stamp; none where it
/// addresses none. One page is read, and all stay; `page` is room to read it.
pub fn find_at<P: Pages>(
    pages: &mut P,
    page: &mut Page,
    space: &Space,
    shelf: &Shelf,
    grid: &Grid<'_>,
    stamp: Stamp,
) -> Result<Option<(Stamp, Row)>, StoreFault>
    requires slot { shelf.now.series < 4096 }
    requires readable { All (CanBeRead (P.contents pages.old)) (places_of shelf.now.series space.now) }
    ensures found { IfOk result (IsFoundAt P.tells shelf.now.series shelf.now.kind.now.columns grid.now stamp
        (places_of shelf.now.series space.now) (P.contents pages.old)) }
    ensures fits { IfOk result (λ found. IfSome found (λ e. IsTrue (fits shelf.now.kind.now.columns e.1))) }
    ensures call { Reads P.tells result (P.contents pages.old) (P.contents pages.new) }
    ensures undisturbed { P.undisturbed pages.old pages.new }
{
    match addressed(grid, stamp) {
        Ok(at) => {
            let found = regular_find(pages, page, space, shelf, at.offset)?;
            Ok(stamped(at.start, found))
        }
        Err(_) => Ok(None),
    }
}

// An element with its stamp, where there is one.
fn stamped(start: Stamp, found: Option<Row>) -> Option<(Stamp, Row)>
    ensures { result ≡ option_map (λ row. (start, row)) found }
{
    match found {
        Some(row) => Some((start, row)),
        None => None,
    }
}

/// Hides the element that a stamp addresses, or reveals it, and tells the start of its interval. Its values and all
/// places stay; setting a mark twice is no error. Refused as the grid does where the stamp addresses none, and as
/// missing where none stands there; a refusal leaves all pages. One page is read, and the same one written; after an
/// error all pages are as before. `page` is room to read one.
pub fn mark_at<P: Pages>(
    pages: &mut P,
    page: &mut Page,
    space: &Space,
    shelf: &Shelf,
    grid: &Grid<'_>,
    stamp: Stamp,
    hidden: bool,
) -> Result<Result<Stamp, Refusal>, StoreFault>
    requires slot { shelf.now.series < 4096 }
    requires places { ArePlaces shelf.now.kind.now.columns (P.contents pages.old)
        (places_of shelf.now.series space.now) }
    ensures ok { IfOk result (IsMarkedAt P.tells shelf.now.series shelf.now.kind.now.columns grid.now stamp hidden
        (places_of shelf.now.series space.now) (P.contents pages.old) (P.contents pages.new)) }
    ensures err { OnErr result (AreLeft P.tells (P.contents pages.old) (P.contents pages.new)) }
    ensures call { Answered result (P.contents pages.old) (P.contents pages.new) }
    ensures change { (P.contents pages.new).change_bytes ≤ (P.contents pages.old).change_bytes + image_entry_size }
    ensures undisturbed { P.undisturbed pages.old pages.new }
{
    match addressed(grid, stamp) {
        Ok(at) => {
            let there = regular_mark(pages, page, space, shelf, at.offset, hidden)?;
            Ok(start_if(there, at.start))
        }
        Err(why) => Ok(Err(why)),
    }
}

// The start of an element that is there, or that it is missing.
fn start_if(there: bool, start: Stamp) -> Result<Stamp, Refusal>
    ensures there { IsTrue there → result ≡ Ok start }
    ensures none { there ≡ false → result ≡ Err Missing }
{
    if there {
        Ok(start)
    } else {
        Err(Refusal::Missing)
    }
}

/// Takes away the element that a stamp addresses, and tells which places go and come: none, and no page changes, where
/// none stands there or the stamp addresses none. One page is read, and the same one written, or freed where it has no
/// other element; after an error all pages are as before. `page` is room to read one.
pub fn delete_at<P: Pages>(
    pages: &mut P,
    page: &mut Page,
    space: &Space,
    shelf: &Shelf,
    grid: &Grid<'_>,
    stamp: Stamp,
) -> Result<Option<Moved>, StoreFault>
    requires slot { shelf.now.series < 4096 }
    requires places { ArePlaces shelf.now.kind.now.columns (P.contents pages.old)
        (places_of shelf.now.series space.now) }
    ensures ok { IfOk result (IsRemovedAt P.tells shelf.now.series shelf.now.kind.now.columns grid.now stamp
        (places_of shelf.now.series space.now) (P.contents pages.old) (P.contents pages.new)) }
    ensures err { OnErr result (AreLeft P.tells (P.contents pages.old) (P.contents pages.new)) }
    ensures call { Answered result (P.contents pages.old) (P.contents pages.new) }
    ensures change { (P.contents pages.new).change_bytes ≤ (P.contents pages.old).change_bytes + image_entry_size }
    ensures taken { length (P.contents pages.old).free ≤ length (P.contents pages.new).free }
    ensures undisturbed { P.undisturbed pages.old pages.new }
{
    match addressed(grid, stamp) {
        Ok(at) => regular_remove(pages, page, space, shelf, at.offset),
        Err(_) => Ok(None),
    }
}
