// The page of a place, read and compared with it; and the places of a range.
ghost use Rattle.std.specs.Prelude.{◌≡◌, ◌↔◌, ◌<◌, ◌≤◌, ◌<ℤ◌, ◌^◌, pos, IsTrue, IfOk, IfSome, IfNone, Some, length};
ghost use Rattle.ts_page.specs.Pages.{head_of};
ghost use Rattle.ts_page.specs.declared.page.Head.TheVariants.{Regular};
ghost use Rattle.ts_space.specs.Place.{IsRising, rank_of};
ghost use Rattle.ts_irregular.specs.Call.{Reads};
ghost use Rattle.ts_regular.specs.Places.{OffsetPage, CanBeRead, IsOn};
ghost use Rattle.ts_clip.specs.Grid.{HoldsOfCellPage};
ghost use Rattle.ts_clip.specs.Between.{AreBetween};

use ts_base::StoreFault;
use ts_page::{Head, Page, Pages};
use ts_regular::base_of;
use ts_row::{RowType, Shelf};
use ts_space::{Place, search};

/// Reads the page of a place, and gives the offset of its first cell; none where the page's head disagrees with the
/// place.
pub(crate) fn read_base<P: Pages>(
    pages: &mut P,
    page: &mut Page,
    shelf: &Shelf,
    place: &Place,
) -> Result<Option<u64>, StoreFault>
    requires readable { CanBeRead (P.contents pages.old) place.now }
    ensures read { IfOk result (λ base. HoldsOfCellPage P.tells shelf.now place.now (P.contents pages.old)
        (λ p. (base ≡ Some p.0) × IsOn shelf.now.series shelf.now.kind.now.columns page.new.bytes place.now p)) }
    ensures limit { IfOk result (λ base. IfSome base (λ n. n < 2 ^ 63)) }
    ensures call { Reads P.tells result (P.contents pages.old) (P.contents pages.new) }
    ensures undisturbed { P.undisturbed pages.old pages.new }
{
    pages.get(place.page, page)?;
    Ok(base_on(shelf, place, page))
}

/// The offset of the first cell of the page of a place, once it was read; none where the page's head disagrees with the
/// place.
pub(crate) fn base_on(shelf: &Shelf, place: &Place, page: &Page) -> Option<u64>
    ensures base { (p : OffsetPage) → IsOn shelf.now.series shelf.now.kind.now.columns page.now.bytes place.now p
        → result ≡ Some p.0 }
    ensures limit { IfSome result (λ n. n < 2 ^ 63) }
{
    let base = base_in(place)?;
    if agrees(shelf, place, base, page) {
        Some(base)
    } else {
        None
    }
}

// The offset of the first cell of the page of a place.
fn base_in(place: &Place) -> Option<u64>
    ensures found { IfSome result (λ base. place.now.at ≡ pos base) }
    ensures limit { IfSome result (λ base. base < 2 ^ 63) }
    ensures none { IfNone result (place.now.at <ℤ pos 0) }
{
    let at = place.at;
    if at < 0 { None } else { Some(at as u64) }
}

// Whether the head of a page tells the elements of the series that its place tells of, from this offset on.
fn agrees(shelf: &Shelf, place: &Place, base: u64, page: &Page) -> bool
    ensures { IsTrue result ↔ (head_of page.now.bytes ≡ Some (Regular shelf.now.series place.now.count base)) }
{
    match page.head() {
        Some(
            Head::Regular {
                series,
                count,
                base: begins,
            },
        ) => series == shelf.series && count == place.count && begins == base,
        _ => false,
    }
}

/// The places whose pages have cells for offsets from one up to, not including, another; none has another page with
/// such cells.
pub(crate) fn places_between<'a>(
    kind: &RowType,
    places: &'a [Place],
    lower: u64,
    upper: u64,
) -> &'a [Place]
    requires rising { IsRising places.now }
    requires order { lower ≤ upper }
    requires limit { upper < 2 ^ 63 }
    ensures between { AreBetween kind.now.columns lower upper places.now result.now }
{
    let behind = &places[rank(places, base_of(kind, lower))..];
    &behind[..rank(behind, upper)]
}

// How many places begin below an offset.
fn rank(places: &[Place], offset: u64) -> usize
    requires rising { IsRising places.now }
    requires limit { offset < 2 ^ 63 }
    ensures rank { result ≡ rank_of (pos offset) places.now }
    ensures within { result ≤ length places.now }
{
    match search(places, offset as i64) {
        Ok(index) => index,
        Err(index) => index,
    }
}
