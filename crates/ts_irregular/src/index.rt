// Where a stamp stands on the page of a series.
ghost use Rattle.std.specs.Prelude.{◌<◌, IfOk, IfSome};
ghost use Rattle.ts_cells.specs.IrregularPage.{page_room};
ghost use Rattle.ts_irregular.specs.OnePage.{IsPlace};
ghost use Rattle.ts_irregular.specs.Call.{Reads, IsIndexOn};

use crate::find::count_told;
use crate::stamps::search;
use ts_base::{Stamp, StoreFault};
use ts_page::{HEAD, Page, Pages};
use ts_row::Shelf;
use ts_space::Place;

/// Reads the page of a series, and gives the index of the element at a stamp, if one is there. The page isn't judged
/// again: its head is compared with its place, and the stamp is searched once; one that disagrees is taken as a page
/// without elements. All pages stay.
pub(crate) fn index_on<P: Pages>(
    pages: &mut P,
    page: &mut Page,
    shelf: &Shelf,
    place: &Place,
    stamp: Stamp,
) -> Result<Option<usize>, StoreFault>
    requires place { IsPlace shelf.now.kind.now.columns (P.contents pages.old) place.now }
    ensures found { IfOk result
        (IsIndexOn P.tells shelf.now.series shelf.now.kind.now.columns stamp place.now page.new.bytes
        (P.contents pages.old) (P.contents pages.new)) }
    ensures within { IfOk result (λ found. IfSome found (λ index. index < page_room shelf.now.kind.now.columns)) }
    ensures call { Reads P.tells result (P.contents pages.old) (P.contents pages.new) }
    ensures undisturbed { P.undisturbed pages.old pages.new }
{
    pages.get(place.page, page)?;
    let count = count_told(shelf, place, page);
    Ok(search(shelf.kind, &page.bytes[HEAD..], count, stamp).ok())
}
