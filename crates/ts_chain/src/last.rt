// The last element that isn't hidden.
ghost use Rattle.std.specs.Prelude.{◌<◌, All, IsTrue, IfOk, IfSome, [], ◌∷◌};
ghost use Rattle.ts_row.specs.Row.{fits};
ghost use Rattle.ts_space.specs.Directory.{places_of};
ghost use Rattle.ts_irregular.specs.Call.{Reads, IsLast};
ghost use Rattle.ts_sheets.specs.Places.{CanBeRead};
ghost use Rattle.ts_chain.specs.Call.{IsLastIn};

use ts_base::{Stamp, StoreFault};
use ts_irregular::{count_told, last_among};
use ts_page::{HEAD, Page, Pages};
use ts_row::{Row, Shelf};
use ts_space::{Place, Space};

/// The last element of a series, of those that aren't hidden. The pages are read from the last one backwards, each
/// once, up to the first that has such an element. The head of each is compared with its place; one that disagrees is
/// taken as a page without elements. All pages stay; `page` is room to read one.
pub fn chain_last<P: Pages>(
    pages: &mut P,
    page: &mut Page,
    space: &Space,
    shelf: &Shelf,
) -> Result<Option<(Stamp, Row)>, StoreFault>
    requires slot { shelf.now.series < 4096 }
    requires readable { All (CanBeRead (P.contents pages.old)) (places_of shelf.now.series space.now) }
    ensures last { IfOk result (IsLastIn P.tells shelf.now.series shelf.now.kind.now.columns
        (places_of shelf.now.series space.now)
        (P.contents pages.old)) }
    ensures fits { IfOk result (λ last. IfSome last (λ e. IsTrue (fits shelf.now.kind.now.columns e.1))) }
    ensures call { Reads P.tells result (P.contents pages.old) (P.contents pages.new) }
    ensures undisturbed { P.undisturbed pages.old pages.new }
{
    let places = space.places(shelf.series);
    let mut left = places.len();
    while left > 0 {
        let place = &places[left - 1];
        if let Some(last) = last_on(pages, page, shelf, place)? {
            return Ok(Some(last));
        }
        left -= 1;
    }
    Ok(None)
}

// That of one page.
fn last_on<P: Pages>(
    pages: &mut P,
    page: &mut Page,
    shelf: &Shelf,
    place: &Place,
) -> Result<Option<(Stamp, Row)>, StoreFault>
    requires readable { CanBeRead (P.contents pages.old) place.now }
    ensures last { IfOk result (IsLast P.tells shelf.now.series shelf.now.kind.now.columns (place.now ∷ [])
        (P.contents pages.old)) }
    ensures fits { IfOk result (λ last. IfSome last (λ e. IsTrue (fits shelf.now.kind.now.columns e.1))) }
    ensures call { Reads P.tells result (P.contents pages.old) (P.contents pages.new) }
    ensures undisturbed { P.undisturbed pages.old pages.new }
{
    pages.get(place.page, page)?;
    let count = count_told(shelf, place, page);
    Ok(last_among(shelf.kind, &page.bytes[HEAD..], count)?)
}
