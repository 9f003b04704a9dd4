// The first element of an irregular series that isn't hidden.
ghost use Rattle.std.specs.Prelude.{◌≡◌, ◌<◌, IsTrue, IfOk, IfSome};
ghost use Rattle.ts_row.specs.Row.{fits};
ghost use Rattle.ts_space.specs.Directory.{places_of};
ghost use Rattle.ts_irregular.specs.Call.{Reads};
ghost use Rattle.ts_sheets.specs.Places.{ArePlaces, CanBeRead};
ghost use Rattle.ts_entry.specs.Entry.{first_seen};
ghost use Rattle.ts_clip.specs.Chain.{HoldsOfChain, HoldsOfPage};

use crate::chain_cells::first_among;
use ts_base::{Stamp, StoreFault};
use ts_irregular::count_told;
use ts_page::{HEAD, Page, Pages};
use ts_row::{Row, Shelf};
use ts_space::{Place, Space};

/// `first_elem`. The pages are read from the first one on, up to the first that has such an element.
pub(crate) fn chain_first<P: Pages>(
    pages: &mut P,
    page: &mut Page,
    space: &Space,
    shelf: &Shelf,
) -> Result<Option<(Stamp, Row)>, StoreFault>
    requires slot { shelf.now.series < 4096 }
    requires places { ArePlaces shelf.now.kind.now.columns (P.contents pages.old)
        (places_of shelf.now.series space.now) }
    ensures first { IfOk result (λ first. HoldsOfChain P.tells shelf.now space.now (P.contents pages.old)
        (λ es. first ≡ first_seen es)) }
    ensures fits { IfOk result (λ first. IfSome first (λ e. IsTrue (fits shelf.now.kind.now.columns e.1))) }
    ensures call { Reads P.tells result (P.contents pages.old) (P.contents pages.new) }
    ensures undisturbed { P.undisturbed pages.old pages.new }
{
    let places = space.places(shelf.series);
    for place in places {
        if let Some(first) = first_on(pages, page, shelf, place)? {
            return Ok(Some(first));
        }
    }
    Ok(None)
}

// That of one page.
fn first_on<P: Pages>(
    pages: &mut P,
    page: &mut Page,
    shelf: &Shelf,
    place: &Place,
) -> Result<Option<(Stamp, Row)>, StoreFault>
    requires readable { CanBeRead (P.contents pages.old) place.now }
    ensures first { IfOk result (λ first. HoldsOfPage P.tells shelf.now place.now (P.contents pages.old)
        (λ es. first ≡ first_seen es)) }
    ensures fits { IfOk result (λ first. IfSome first (λ e. IsTrue (fits shelf.now.kind.now.columns e.1))) }
    ensures call { Reads P.tells result (P.contents pages.old) (P.contents pages.new) }
    ensures undisturbed { P.undisturbed pages.old pages.new }
{
    pages.get(place.page, page)?;
    let count = count_told(shelf, place, page);
    Ok(first_among(shelf.kind, &page.bytes[HEAD..], count)?)
}
