// The header of a volume: its first page.
ghost use Rattle.std.specs.Prelude.{◌≡◌, ◌↔◌, ◌<◌, ℕ, IsTrue, IfSome, IfNone};
ghost use Rattle.ts_model.specs.Definitions.{IsFormat};
ghost use Rattle.ts_layout.specs.Slot.{header_bytes};

use crate::pad::pad;
use ts_model::{FORMAT, OLD_FORMAT};
use ts_page::Page;

/// Writes the header of a volume of a format with so many element pages.
#[tactic(auto, unfolding(ts_layout::specs::Slot::header_bytes))]
pub fn write_header(format: u8, element_pages: u32, page: &mut Page)
    ensures { page.new.bytes ≡ header_bytes format element_pages }
{
    let count = element_pages.to_be_bytes();
    let front = [
        b'T', b'S', b'V', b'O', b'L', b'U', b'M', b'E', format, count[0], count[1], count[2],
        count[3],
    ];
    pad(&front, &mut page.bytes);
}

/// The format that a page tells, if it is the header of a volume with so many element pages.
pub fn format_of(element_pages: u32, page: &Page) -> Option<u8>
    ensures found { IfSome result (λ format. IsFormat format × (page.now.bytes ≡ header_bytes format element_pages)) }
    ensures none { IfNone result ((format : ℕ) → IsFormat format → page.now.bytes ≡ header_bytes format element_pages
        → ⊥) }
{
    if is_header(FORMAT, element_pages, page) {
        return Some(FORMAT);
    }
    if is_header(OLD_FORMAT, element_pages, page) {
        return Some(OLD_FORMAT);
    }
    None
}

// Whether a page is the header of a volume of a format with so many element pages.
fn is_header(format: u8, element_pages: u32, page: &Page) -> bool
    ensures { IsTrue result ↔ (page.now.bytes ≡ header_bytes format element_pages) }
{
    let mut wanted = Page::zero();
    write_header(format, element_pages, &mut wanted);
    let wanted: &[u8] = &wanted.bytes;
    let bytes: &[u8] = &page.bytes;
    wanted == bytes
}
