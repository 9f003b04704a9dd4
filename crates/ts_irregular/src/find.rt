// The row at a stamp, where the page was judged before.
ghost use Rattle.std.specs.Prelude.{◌≡◌, ◌↔◌, ◌<◌, ◌≤◌, IsTrue, List, length};
ghost use Rattle.ts_page.specs.Pages.{head_of, zero_page};
ghost use Rattle.ts_row.specs.Row.{Element};
ghost use Rattle.ts_cells.specs.IrregularPage.{page_room};
ghost use Rattle.ts_irregular.specs.OnePage.{IsOn, told_in};

use ts_cells::page_room;
use ts_page::{Head, Page};
use ts_row::{RowType, Shelf};
use ts_space::Place;

/// How many elements of the series a page has by its head; none where that disagrees with its place.
pub fn count_told(shelf: &Shelf, place: &Place, page: &Page) -> usize
    ensures told { (es : List Element) → IsOn shelf.now.series shelf.now.kind.now.columns page.now.bytes place.now es
        → length es ≡ result }
    ensures room { result ≤ page_room shelf.now.kind.now.columns }
    ensures few { result ≤ place.now.count }
{
    let Some((series, count)) = told(page) else {
        return 0;
    };
    if series != shelf.series {
        return 0;
    }
    if !is_count(shelf.kind, place, count) {
        return 0;
    }
    count as usize
}

/// `count_told` for an edit: where the head disagrees with the place, the page becomes one without elements, of zeros.
pub fn count_taken(shelf: &Shelf, place: &Place, page: &mut Page) -> usize
    ensures told { (es : List Element) → IsOn shelf.now.series shelf.now.kind.now.columns page.old.bytes place.now es
        → (length es ≡ result) × (page.new.bytes ≡ page.old.bytes) }
    ensures none { result ≡ 0 → page.new.bytes ≡ zero_page }
    ensures room { result ≤ page_room shelf.now.kind.now.columns }
    ensures few { result ≤ place.now.count }
{
    let count = count_told(shelf, place, page);
    if count == 0 {
        *page = Page::zero();
    }
    count
}

// The slot of the series and the number of elements that the head of an irregular page tells.
fn told(page: &Page) -> Option<(u16, u16)>
    ensures { result ≡ told_in (head_of page.now.bytes) }
{
    match page.head() {
        Some(Head::Irregular { series, count }) => Some((series, count)),
        _ => None,
    }
}

// That of the place, and no more than a page has room for.
fn is_count(kind: &RowType, place: &Place, count: u16) -> bool
    ensures { IsTrue result ↔ (count ≡ place.now.count) × (count ≤ page_room kind.now.columns) }
{
    count == place.count && count as usize <= page_room(kind)
}
