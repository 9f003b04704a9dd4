// The survey of all pages, as an opening makes it, with the element pages in lists.
ghost use Rattle.std.specs.Prelude.{◌≡◌, ◌+◌, ◌-◌, ◌≤◌, ◌<◌, IfOk, IfErr, IsTrue};
ghost use Rattle.ts_page.specs.Pages.{first_element_page, most_element_pages};
ghost use Rattle.ts_model.specs.Definitions.{IsDefinitions};
ghost use Rattle.ts_layout.specs.Meaning.{KeepLimits, HaveOrigins};
ghost use Rattle.ts_volume.specs.FirstBad.{IsFirstBad};
ghost use Rattle.ts_container.specs.Elements.{ElementsRead};
ghost use Rattle.ts_container.specs.Survey.{Reads, IfRefused, IsFound};

use crate::page_list::{blank_list, judge_list, read_list};
use std::alloc::Global;
use std::thread::Threads;
use ts_container::{Elements, SurveyFault, Surveyed, finish, survey_definitions};
use ts_model::Defs;
use ts_page::{FIRST_ELEMENT_PAGE, Page, Pages};
use ts_parallel::Gate;

/// So many element pages are read into a list before they are judged; into the last one as many as are left.
const LIST: u32 = 4096;

/// Reads all pages of a volume but the journal's, each once, as `survey` of ts_container does: `count` is the number of
/// all. The element pages are judged by several workers.
pub(crate) fn survey_in_lists<P: Pages, G: Gate + Sync>(
    rt: &(impl Threads + Sync),
    alloc: Global,
    gate: &G,
    pages: &mut P,
    count: u32,
) -> Result<Surveyed, SurveyFault>
    requires count { count ≡ (P.contents pages.old).count }
    requires some { first_element_page + 1 ≤ count }
    requires most { count ≤ first_element_page + most_element_pages }
    ensures ok { IfOk result
        (λ s. IsFound P.tells count (P.contents pages.old) s.defs.definitions s.space s.free.items) }
    ensures refused { IfErr result (λ e. IfRefused e (λ page. IsTrue P.tells
        → IsFirstBad count (P.contents pages.old).page page)) }
    ensures call { Reads P.tells result (P.contents pages.old) (P.contents pages.new) }
    ensures undisturbed { P.undisturbed pages.old pages.new }
{
    let mut page = Page::zero();
    let defs = survey_definitions(alloc, pages, count, &mut page)?;
    let elements = judge_elements(rt, alloc, gate, pages, count, &defs)?;
    finish(alloc, defs, elements, count)
}

// Reads all element pages, list after list, and judges each list before the next one is read.
fn judge_elements<P: Pages, G: Gate + Sync>(
    rt: &(impl Threads + Sync),
    alloc: Global,
    gate: &G,
    pages: &mut P,
    count: u32,
    defs: &Defs,
) -> Result<Elements, SurveyFault>
    requires within { count ≤ (P.contents pages.old).count }
    requires some { first_element_page ≤ count }
    requires limits { KeepLimits defs.now.definitions }
    requires rules { IsDefinitions defs.now.definitions }
    requires origins { HaveOrigins defs.now.definitions }
    ensures read { ElementsRead P.tells (count - first_element_page) defs.now.definitions result (P.contents pages.old)
        (P.contents pages.new) }
    ensures undisturbed { P.undisturbed pages.old pages.new }
{
    let mut elements = Elements {
        spans: Vec::new(alloc),
        free: Vec::new(alloc),
    };
    let mut list = blank_list(alloc, LIST.min(count - FIRST_ELEMENT_PAGE) as usize)?;
    let mut number = FIRST_ELEMENT_PAGE;
    while number < count {
        list.truncate((count - number) as usize);
        read_list(pages, number, &mut list)?;
        judge_list(rt, alloc, gate, &list, defs, &mut elements)?;
        number += list.len() as u32;
    }
    Ok(elements)
}
