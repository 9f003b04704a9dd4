// The definition pages, read one after the other.
ghost use Rattle.std.specs.Prelude.{◌≡◌, ◌<◌, ◌≤◌, ◌+◌, IfOk, length};
ghost use Rattle.ts_page.specs.Pages.{first_element_page};
ghost use Rattle.ts_model.specs.Definitions.{limit, with_format, no_definitions};
ghost use Rattle.ts_layout.specs.Slot.{slot_size, first_definition_page};
ghost use Rattle.ts_layout.specs.Rank.{rank, rank_of_page};
ghost use Rattle.ts_slots.specs.Written.{IsWritten, kind_written};
ghost use Rattle.ts_container.specs.Reading.{IsReadTo, Admitted, SlotRead, PageRead};
ghost use Rattle.ts_container.specs.Survey.{DefinitionsRead};

use crate::complete::complete;
use crate::fault::SurveyFault;
use crate::found::{Broken, Found};
use crate::judge::{has_definition, judge_pages};
use crate::read::read;
use crate::rules::{is_resolved, is_taken};
use std::alloc::{AllocError, Global};
use ts_layout::{ROW_TYPES, slot_size, slots_in_page};
use ts_model::{Defs, Kind};
use ts_page::{FIRST_ELEMENT_PAGE, Page, Pages};
use ts_row::is_zero;
use ts_slots::{Reading, Written, read_slot};

/// Reads all definition pages into definitions of which there are none, by their format. The answer is the calendars
/// that break a rule, in the order of their slots; they are left out.
pub(crate) fn read_definitions<P: Pages>(
    alloc: Global,
    pages: &mut P,
    page: &mut Page,
    defs: &mut Defs,
) -> Result<Vec<Broken>, SurveyFault>
    requires within { first_element_page ≤ (P.contents pages.old).count }
    requires empty { defs.old.definitions ≡ with_format defs.old.definitions.format no_definitions }
    ensures read { DefinitionsRead P.tells defs.old.definitions.format result defs.new.definitions
        (P.contents pages.old) (P.contents pages.new) }
    ensures undisturbed { P.undisturbed pages.old pages.new }
{
    let format = defs.format();
    let mut broken = Vec::new(alloc);
    for number in ROW_TYPES..FIRST_ELEMENT_PAGE {
        read(pages, number, page)?;
        match read_page(alloc, number, page, defs, &mut broken)? {
            Found::Good => {}
            Found::Bad => return Err(SurveyFault::NotAStore { page: number }),
            Found::Unresolved => {
                judge_pages(alloc, pages, page, format, number)?;
                return Err(SurveyFault::NotAStore { page: number });
            }
        }
    }
    Ok(broken)
}

// Reads the slots of a definition page.
fn read_page(
    alloc: Global,
    number: u32,
    page: &Page,
    defs: &mut Defs,
    broken: &mut Vec<Broken>,
) -> Result<Found, AllocError>
    requires low { first_definition_page ≤ number }
    requires high { number < first_element_page }
    requires before { IsReadTo defs.old.definitions.format (rank_of_page number) defs.old.definitions broken.old.items }
    ensures { IfOk result (PageRead defs.old.definitions.format number page.now.bytes
        (defs.old.definitions, broken.old.items)
        (defs.new.definitions, broken.new.items)) }
{
    let on = slots_in_page(number);
    let size = slot_size(on.kind);
    for k in 0..on.count {
        let at = size * k as usize;
        let bytes = &page.bytes[at..at + size];
        match read_into(alloc, on.kind, on.first + k, bytes, defs, broken)? {
            Found::Good => {}
            Found::Unresolved => return Ok(Found::Unresolved),
            Found::Bad => return Ok(Found::Bad),
        }
    }
    if !is_zero(&page.bytes[size * on.count as usize..]) {
        return Ok(Found::Bad);
    }
    Ok(Found::Good)
}

// Reads a slot.
fn read_into(
    alloc: Global,
    kind: Kind,
    slot: u16,
    bytes: &[u8],
    defs: &mut Defs,
    broken: &mut Vec<Broken>,
) -> Result<Found, AllocError>
    requires slot { slot < limit kind }
    requires size { length bytes.now ≡ slot_size kind }
    requires before { IsReadTo defs.old.definitions.format (rank kind slot) defs.old.definitions broken.old.items }
    ensures { IfOk result (SlotRead defs.old.definitions.format kind slot bytes.now
        (defs.old.definitions, broken.old.items)
        (defs.new.definitions, broken.new.items)) }
{
    match read_slot(alloc, defs.format(), kind, bytes)? {
        Reading::Bad => Ok(Found::Bad),
        Reading::Empty => Ok(Found::Good),
        Reading::Filled(written) => {
            has_definition(&written);
            admit(alloc, kind, slot, written, defs, broken)
        }
    }
}

// Puts what is written in a slot there, if its name is new and what it refers to is there; a calendar that breaks a
// rule is listed instead.
fn admit(
    alloc: Global,
    kind: Kind,
    slot: u16,
    written: Written,
    defs: &mut Defs,
    broken: &mut Vec<Broken>,
) -> Result<Found, AllocError>
    requires slot { slot < limit kind }
    requires kind { kind_written written ≡ kind }
    requires limits { IsWritten defs.old.definitions.format written }
    ensures { IfOk result (Admitted kind slot written (defs.old.definitions, broken.old.items)
        (defs.new.definitions, broken.new.items)) }
{
    if is_taken(defs, broken, kind, written.name()) || !is_resolved(defs, broken, &written) {
        return Ok(Found::Unresolved);
    }
    match complete(alloc, written, defs)? {
        Ok(def) => {
            defs.reserve(kind)?;
            defs.set(kind, slot, Some(def));
        }
        Err(name) => broken.push(Broken { slot, name })?,
    }
    Ok(Found::Good)
}
