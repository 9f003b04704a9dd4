// The row at a stamp.
ghost use Rattle.std.specs.Prelude.{◌≡◌, ◌<◌, All, IsTrue, IfOk, IfSome, None};
ghost use Rattle.ts_row.specs.Row.{fits};
ghost use Rattle.ts_space.specs.Place.{IsRising, AreAbove};
ghost use Rattle.ts_space.specs.Directory.{places_of};
ghost use Rattle.ts_irregular.specs.Call.{Reads};
ghost use Rattle.ts_sheets.specs.Places.{CanBeRead, IsHolder};
ghost use Rattle.ts_chain.specs.Call.{IsRowIn};

use ts_base::{Stamp, StoreFault};
use ts_irregular::{count_told, row_at};
use ts_page::{HEAD, Page, Pages};
use ts_row::{Row, Shelf};
use ts_space::{Place, Space, search};

/// The row of the element at a stamp of a series. One page is read: that of the place which holds the stamp. Its head
/// is compared with the place; one that disagrees is taken as a page without elements. All pages stay; `page` is room
/// to read one.
pub fn chain_find<P: Pages>(
    pages: &mut P,
    page: &mut Page,
    space: &Space,
    shelf: &Shelf,
    stamp: Stamp,
) -> Result<Option<Row>, StoreFault>
    requires slot { shelf.now.series < 4096 }
    requires readable { All (CanBeRead (P.contents pages.old)) (places_of shelf.now.series space.now) }
    ensures found { IfOk result (IsRowIn P.tells shelf.now.series shelf.now.kind.now.columns stamp
        (places_of shelf.now.series space.now)
        (P.contents pages.old)) }
    ensures fits { IfOk result (λ found. IfSome found (λ row. IsTrue (fits shelf.now.kind.now.columns row))) }
    ensures call { Reads P.tells result (P.contents pages.old) (P.contents pages.new) }
    ensures undisturbed { P.undisturbed pages.old pages.new }
{
    let places = space.places(shelf.series);
    let Some(index) = holder(places, stamp) else {
        return Ok(None);
    };
    let place = &places[index];
    pages.get(place.page, page)?;
    let count = count_told(shelf, place, page);
    Ok(row_at(shelf.kind, &page.bytes[HEAD..], count, stamp)?)
}

/// The index of the place that begins last among those that begin at a stamp or before it; none where all begin later.
pub fn holder(places: &[Place], stamp: Stamp) -> Option<usize>
    requires { IsRising places.now }
    ensures some { IfSome result (IsHolder stamp places.now) }
    ensures none { result ≡ None → AreAbove stamp places.now }
{
    match search(places, stamp.units()) {
        Ok(index) => Some(index),
        Err(0) => None,
        Err(index) => Some(index - 1),
    }
}
