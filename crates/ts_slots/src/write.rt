// One slot is written into its page, or the header.
ghost use Rattle.std.specs.Prelude.{◌≡◌, ◌+◌, ◌<◌, ◌≤◌, IfSome, option_copied, length, replicate};
ghost use Rattle.ts_page.specs.Pages.{page_size, first_element_page, image_entry_size};
ghost use Rattle.ts_model.specs.Definitions.{kind_of, limit};
ghost use Rattle.ts_layout.specs.Slot.{slot_size, slot_bytes};
ghost use Rattle.ts_layout.specs.Changed.{with_slot_bytes};
ghost use Rattle.ts_slots.specs.Writing.{SlotWritten, HeaderWritten};

use crate::header::write_header;
use crate::slot::write_def;
use ts_base::StoreFault;
use ts_layout::{byte_of_slot, page_of_slot, slot_size};
use ts_model::{Def, Kind};
use ts_page::{Page, Pages};

/// Writes a definition over its slot, or zeros. Every other slot and every other page stays; after an error all pages
/// stay. `page` is room to read one.
pub fn write_slot<P: Pages>(
    pages: &mut P,
    page: &mut Page,
    kind: Kind,
    slot: u16,
    def: Option<&Def>,
) -> Result<(), StoreFault>
    requires slot { slot < limit kind }
    requires kind { IfSome (option_copied def) (λ d. kind_of d ≡ kind) }
    requires within { first_element_page ≤ (P.contents pages.old).count }
    ensures written { SlotWritten P.tells kind slot (option_copied def.entry) result (P.contents pages.old)
        (P.contents pages.new) }
    ensures bytes { (P.contents pages.new).change_bytes ≤ (P.contents pages.old).change_bytes + image_entry_size }
    ensures undisturbed { P.undisturbed pages.old pages.new }
{
    let number = page_of_slot(kind, slot);
    pages.get(number, page)?;
    put_slot(kind, slot, def, page);
    pages.put(number, page)
}

/// Writes the header of a volume with so many element pages, in a format. Every other page stays; after an error all
/// pages stay.
pub fn put_header<P: Pages>(pages: &mut P, format: u8, element_pages: u32) -> Result<(), StoreFault>
    requires { 0 < (P.contents pages.old).count }
    ensures written { HeaderWritten P.tells format element_pages result (P.contents pages.old) (P.contents pages.new) }
    ensures bytes { (P.contents pages.new).change_bytes ≤ (P.contents pages.old).change_bytes + image_entry_size }
    ensures undisturbed { P.undisturbed pages.old pages.new }
{
    let mut page = Page::zero();
    write_header(format, element_pages, &mut page);
    pages.put(0, &page)
}

// Writes a slot into its page.
fn put_slot(kind: Kind, slot: u16, def: Option<&Def>, page: &mut Page)
    requires slot { slot < limit kind }
    requires kind { IfSome (option_copied def) (λ d. kind_of d ≡ kind) }
    ensures bytes { page.new.bytes ≡ with_slot_bytes kind slot (option_copied def.entry) page.old.bytes }
    ensures before { length page.old.bytes ≡ page_size }
    ensures after { length page.new.bytes ≡ page_size }
{
    let at = byte_of_slot(kind, slot);
    let size = slot_size(kind);
    write_bytes(kind, def, &mut page.bytes[at..at + size]);
}

// Writes the bytes of a slot.
fn write_bytes(kind: Kind, def: Option<&Def>, slot: &mut [u8])
    requires kind { IfSome (option_copied def) (λ d. kind_of d ≡ kind) }
    requires room { length slot.old ≡ slot_size kind }
    ensures { slot.new ≡ slot_bytes kind (option_copied def.entry) }
{
    match def {
        Some(def) => write_def(def, slot),
        None => clear(slot),
    }
}

fn clear(slot: &mut [u8])
    ensures { slot.new ≡ replicate (length slot.old) 0 }
{
    slot.fill(0);
}
