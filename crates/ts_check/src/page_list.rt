// Element pages that are read one after the other, and then judged by several workers.
ghost use Rattle.std.specs.Prelude.{◌≡◌, ◌+◌, ◌≤◌, ◌<◌, ◌^◌, ℕ, IfOk, OnOk, IfErr, length};
ghost use Rattle.ts_page.specs.Pages.{first_element_page, IsElementPage};
ghost use Rattle.ts_model.specs.Definitions.{Definitions, IsDefinitions};
ghost use Rattle.ts_layout.specs.Meaning.{KeepLimits, HaveOrigins};
ghost use Rattle.ts_container.specs.Elements.{IsContentOf};
ghost use Rattle.ts_container.specs.Survey.{PageGot};
ghost use Rattle.ts_check.specs.Judged.{ListRead, AreAnswers, ListAdded};

use std::alloc::{AllocError, Global};
use std::thread::Threads;
use ts_container::{Content, Elements, SurveyFault, content_of};
use ts_model::Defs;
use ts_page::{Page, Pages};
use ts_parallel::{Gate, map_in_order};

/// A page that was read, and its number.
#[derive(Clone, Copy)]
pub(crate) struct PageRead {
    pub(crate) number: u32,
    pub(crate) page: Page,
}

/// Memory for so many pages.
pub(crate) fn blank_list(alloc: Global, len: usize) -> Result<Vec<PageRead>, AllocError>
    ensures { IfOk result (λ list. length list.items ≡ len) }
{
    let blank = PageRead {
        number: 0,
        page: Page::zero(),
    };
    vec![in alloc; blank; len]
}

/// Reads pages into a list, as many as it has room for, from a number on.
pub(crate) fn read_list<P: Pages>(
    pages: &mut P,
    first: u32,
    list: &mut [PageRead],
) -> Result<(), SurveyFault>
    requires within { first + length list.old ≤ (P.contents pages.old).count }
    requires elements { first_element_page ≤ first }
    requires few { first + length list.old < 2 ^ 32 }
    ensures read { ListRead P.tells first list.new result (P.contents pages.old) (P.contents pages.new) }
    ensures undisturbed { P.undisturbed pages.old pages.new }
{
    for place in 0..list.len() {
        read_page(pages, first + place as u32, &mut list[place])?;
    }
    Ok(())
}

// Reads the page of a number.
fn read_page<P: Pages>(pages: &mut P, number: u32, into: &mut PageRead) -> Result<(), SurveyFault>
    requires within { number < (P.contents pages.old).count }
    requires element { IsElementPage number }
    ensures got { PageGot P.tells number into.new.page.bytes result (P.contents pages.old) (P.contents pages.new) }
    ensures number { into.new.number ≡ number }
    ensures undisturbed { P.undisturbed pages.old pages.new }
{
    into.number = number;
    pages.get(number, &mut into.page)?;
    Ok(())
}

/// Judges the pages of a list, and adds what they have. The first that is bad ends it.
pub(crate) fn judge_list<G: Gate + Sync>(
    rt: &(impl Threads + Sync),
    alloc: Global,
    gate: &G,
    list: &[PageRead],
    defs: &Defs,
    elements: &mut Elements,
) -> Result<(), SurveyFault>
    requires limits { KeepLimits defs.now.definitions }
    requires rules { IsDefinitions defs.now.definitions }
    requires origins { HaveOrigins defs.now.definitions }
    ensures { ListAdded defs.now.definitions list.now result elements.old elements.new }
{
    let answers = map_in_order(
        rt,
        alloc,
        gate,
        list,
        &|read: &PageRead| -> Option<Content>
            requires limits { KeepLimits defs.now.definitions }
            requires rules { IsDefinitions defs.now.definitions }
            requires origins { HaveOrigins defs.now.definitions }
            ensures { IsContentOf defs.entry.now.definitions read.entry.now.number read.entry.now.page.bytes result }
        { content_of(read.number, &read.page, defs) },
    )?;
    add_all(list, answers.as_slice(), elements)
}

// Adds what was found of the pages of a list.
fn add_all(
    list: &[PageRead],
    answers: &[Option<Content>],
    elements: &mut Elements,
) -> Result<(), SurveyFault>
    requires as_many { length answers.now ≡ length list.now }
    ensures { (d : Definitions) → AreAnswers d list.now answers.now
        → ListAdded d list.now result elements.old elements.new }
{
    for (place, answer) in answers.iter().enumerate() {
        let number = list[place].number;
        let Some(content) = answer else {
            return Err(SurveyFault::NotAStore { page: number });
        };
        elements.add(number, *content)?;
    }
    Ok(())
}
