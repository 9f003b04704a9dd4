// The row at an offset.
ghost use Rattle.std.specs.Prelude.{◌≡◌, ◌<◌, ◌^◌, pos, All, IsTrue, IfOk, IfSome, length};
ghost use Rattle.ts_row.specs.Row.{fits};
ghost use Rattle.ts_space.specs.Place.{IsRising, search_of};
ghost use Rattle.ts_space.specs.Directory.{places_of};
ghost use Rattle.ts_regular.specs.Places.{CanBeRead};
ghost use Rattle.ts_regular.specs.Call.{Reads, IsRowIn};

use crate::cell::base_of;
use crate::page::{agrees, row_at};
use ts_base::StoreFault;
use ts_page::{HEAD, Page, Pages};
use ts_row::{Row, Shelf};
use ts_space::{Place, Space, search};

/// The row of the element at an offset of a series, hidden or not. One page is read: that of the place whose cells the
/// offset is among. Its head is compared with the place; one that disagrees is taken as a page without elements. All
/// pages stay; `page` is room to read one.
pub fn regular_find<P: Pages>(
    pages: &mut P,
    page: &mut Page,
    space: &Space,
    shelf: &Shelf,
    offset: u64,
) -> Result<Option<Row>, StoreFault>
    requires slot { shelf.now.series < 4096 }
    requires limit { offset < 2 ^ 63 }
    requires readable { All (CanBeRead (P.contents pages.old)) (places_of shelf.now.series space.now) }
    ensures found { IfOk result (IsRowIn P.tells shelf.now.series shelf.now.kind.now.columns offset
        (places_of shelf.now.series space.now)
        (P.contents pages.old)) }
    ensures fits { IfOk result (λ found. IfSome found (λ row. IsTrue (fits shelf.now.kind.now.columns row))) }
    ensures call { Reads P.tells result (P.contents pages.old) (P.contents pages.new) }
    ensures undisturbed { P.undisturbed pages.old pages.new }
{
    let base = base_of(shelf.kind, offset);
    let places = space.places(shelf.series);
    let Ok(index) = holder(places, base) else {
        return Ok(None);
    };
    let place = &places[index];
    pages.get(place.page, page)?;
    if !agrees(shelf, place.count, base, page) {
        return Ok(None);
    }
    Ok(row_at(shelf.kind, &page.bytes[HEAD..], (offset - base) as usize)?)
}

/// The index of the place whose page has its first cell at this offset; where none has, that of the first place above.
pub(crate) fn holder(places: &[Place], base: u64) -> Result<usize, usize>
    requires rising { IsRising places.now }
    requires limit { base < 2 ^ 63 }
    ensures ok { result ≡ search_of (pos base) places.now }
    ensures there { IfOk result (λ index. index < length places.now) }
{
    search(places, base as i64)
}
