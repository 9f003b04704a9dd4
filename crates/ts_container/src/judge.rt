// Whether definition pages have slots of definitions, whatever these mean together.
ghost use Rattle.std.specs.Prelude.{◌≡◌, ◌↔◌, ◌<◌, ◌≤◌, IfOk, IsTrue, MatchBool, length, ℕ};
ghost use Rattle.ts_page.specs.Pages.{first_element_page};
ghost use Rattle.ts_layout.specs.Slot.{slot_size, first_definition_page};
ghost use Rattle.ts_container.specs.Reading.{IsSlot, IsPageOf, IsNoPageOf, StandsFor};
ghost use Rattle.ts_container.specs.Survey.{PagesJudged};

use crate::fault::SurveyFault;
use crate::read::read;
use std::alloc::{AllocError, Global};
use ts_layout::{slot_size, slots_in_page};
use ts_model::Kind;
use ts_page::{FIRST_ELEMENT_PAGE, Page, Pages};
use ts_row::is_zero;
use ts_slots::{CalendarForm, Part, Reading, Written, read_slot};

/// Judges the definition pages of a volume of a format, from a number on: the least that is none is told.
pub(crate) fn judge_pages<P: Pages>(
    alloc: Global,
    pages: &mut P,
    page: &mut Page,
    format: u8,
    first: u32,
) -> Result<(), SurveyFault>
    requires within { first_element_page ≤ (P.contents pages.old).count }
    requires low { first_definition_page ≤ first }
    ensures judged { PagesJudged P.tells format first result (P.contents pages.old) (P.contents pages.new) }
    ensures undisturbed { P.undisturbed pages.old pages.new }
{
    for number in first..FIRST_ELEMENT_PAGE {
        read(pages, number, page)?;
        if !is_page_of(alloc, format, number, page)? {
            return Err(SurveyFault::NotAStore { page: number });
        }
    }
    Ok(())
}

// Whether a definition page has slots of the format, and zeros behind them.
fn is_page_of(alloc: Global, format: u8, number: u32, page: &Page) -> Result<bool, AllocError>
    requires low { first_definition_page ≤ number }
    requires high { number < first_element_page }
    ensures { IfOk result (λ is. MatchBool is (IsPageOf format number page.now.bytes)
        (IsNoPageOf format number page.now.bytes)) }
{
    let on = slots_in_page(number);
    let size = slot_size(on.kind);
    for k in 0..on.count {
        let at = size * k as usize;
        if !is_slot(alloc, format, on.kind, &page.bytes[at..at + size])? {
            return Ok(false);
        }
    }
    Ok(is_zero(&page.bytes[size * on.count as usize..]))
}

// Whether bytes are those of an empty slot or of a definition of the format.
fn is_slot(alloc: Global, format: u8, kind: Kind, bytes: &[u8]) -> Result<bool, AllocError>
    requires { length bytes.now ≡ slot_size kind }
    ensures { IfOk result (λ is. IsTrue is ↔ IsSlot format kind bytes.now) }
{
    match read_slot(alloc, format, kind, bytes)? {
        Reading::Bad => Ok(false),
        Reading::Empty => Ok(true),
        Reading::Filled(written) => {
            has_definition(&written);
            Ok(true)
        }
    }
}

/// What is written in a slot is so of some definition.
pub(crate) fn has_definition(written: &Written)
    ensures { (format : ℕ) → StandsFor format written.now }
{
    match written {
        Written::Whole(_) => {}
        Written::Form(form) => form_has_definition(form),
    }
}

// So it is of a calendar's form.
fn form_has_definition(form: &CalendarForm)
    ensures { (format : ℕ) → StandsFor format (Written.Form form.now) }
{
    // Names, stamps and patterns keep their limits.
    let _name = form.name.as_slice();
    let _start = form.start.units();
    let _patt_start = form.patt_start.units();
    match &form.part {
        Part::Own(pattern) => {
            let _runs = pattern.runs();
        }
        Part::By(slot) => {
            let _slot = *slot;
        }
    }
}
