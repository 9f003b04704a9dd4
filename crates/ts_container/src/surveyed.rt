// The survey of a volume's pages.
ghost use Rattle.std.specs.Prelude.{◌≡◌, ◌+◌, ◌-◌, ◌≤◌, IfOk, IfErr, IsErrOf, IsTrue, MatchOption};
ghost use Rattle.ts_page.specs.Pages.{first_element_page, most_element_pages};
ghost use Rattle.ts_model.specs.Definitions.{IsDefinitions};
ghost use Rattle.ts_layout.specs.Meaning.{AreSound};
ghost use Rattle.ts_layout.specs.Rank.{all_slots};
ghost use Rattle.ts_volume.specs.FirstBad.{IsLeast, IsFirstBad};
ghost use Rattle.ts_container.specs.declared.fault.SurveyFault.TheVariants.{Failed};
ghost use Rattle.ts_container.specs.Reading.{AreBroken};
ghost use Rattle.ts_container.specs.Survey.{Reads, IfRefused, IsFound, AreGranted, IsUngranted, AreRight, IsWrong};
ghost use Rattle.ts_container.specs.Survey.{IsMarked, SoundRead};
ghost use Rattle.ts_container.specs.Spans.{AreMarked};
ghost use Rattle.ts_container.specs.Elements.{AreElements, IsFinished, IsLateBad};

use crate::charges::keep_quotas;
use crate::definitions::read_definitions;
use crate::directory::directory_of;
use crate::elements::{Elements, read_elements};
use crate::fault::SurveyFault;
use crate::found::Broken;
use crate::hidden::hidden_in;
use crate::origins::first_astray;
use crate::read::read;
use crate::rules::sum_of_quotas;
use crate::sorted::{overlapping, sort, sparse};
use std::alloc::Global;
use ts_layout::{CONTAINERS, page_of_slot};
use ts_model::{Defs, Kind};
use ts_page::{FIRST_ELEMENT_PAGE, Page, Pages};
use ts_slots::format_of;
use ts_space::Space;

/// What is kept in memory of a volume.
#[derive(Drop)]
pub struct Surveyed {
    pub defs: Defs,
    pub space: Space,
    /// The free element pages, rising.
    pub free: Vec<u32>,
    /// Of each slot of a series whether it is marked: no element of one that isn't is hidden.
    pub hidden: Vec<bool>,
}

/// Reads all pages of a volume but the journal's, each once: `count` is the number of all. They give the format, the
/// definitions, the directory, the free pages and which series have hidden elements, or the first bad page. The pages
/// stay as they are, and so does the list of free ones. Where a definition has the name of a lower slot or refers to an
/// empty one, the definition pages from there on are read once more.
pub fn survey<P: Pages>(alloc: Global, pages: &mut P, count: u32) -> Result<Surveyed, SurveyFault>
    requires count { count ≡ (P.contents pages.old).count }
    requires some { first_element_page + 1 ≤ count }
    requires most { count ≤ first_element_page + most_element_pages }
    ensures ok { IfOk result
        (λ s. IsFound P.tells count (P.contents pages.old) s.defs.definitions s.space s.free.items) }
    ensures marked { IfOk result
        (λ s. IsMarked P.tells count (P.contents pages.old) s.defs.definitions s.space s.free.items s.hidden.items) }
    ensures refused { IfErr result (λ e. IfRefused e (λ page. IsTrue P.tells
        → IsFirstBad count (P.contents pages.old).page page)) }
    ensures call { Reads P.tells result (P.contents pages.old) (P.contents pages.new) }
    ensures undisturbed { P.undisturbed pages.old pages.new }
{
    let mut page = Page::zero();
    let defs = survey_definitions(alloc, pages, count, &mut page)?;
    let elements = read_elements(alloc, pages, count, &defs, &mut page)?;
    finish(alloc, defs, elements, count)
}

/// Judges what spans the element pages of a volume with so many pages in all, and keeps what was found of them. It
/// reads nothing.
pub fn finish(
    alloc: Global,
    defs: Defs,
    elements: Elements,
    count: u32,
) -> Result<Surveyed, SurveyFault>
    requires some { first_element_page + 1 ≤ count }
    requires most { count ≤ first_element_page + most_element_pages }
    requires sound { AreSound (count - first_element_page) defs.definitions }
    requires read { AreElements (count - first_element_page) defs.definitions elements.spans.items elements.free.items }
    ensures ok { IfOk result (IsFinished count defs.definitions elements.spans.items elements.free.items) }
    ensures marked { IfOk result (λ s. AreMarked elements.spans.items s.hidden.items) }
    ensures refused { IfErr result
        (λ e. IfRefused e (IsLateBad count defs.definitions elements.spans.items elements.free.items)) }
    ensures done { ¬ IsErrOf result Failed }
{
    let Elements { mut spans, free } = elements;
    let hidden = hidden_in(alloc, &spans)?;
    sort(&mut spans);
    if let Some(bad) = overlapping(&spans) {
        return Err(SurveyFault::NotAStore { page: bad });
    }
    if let Some(bad) = sparse(&defs, &spans) {
        return Err(SurveyFault::NotAStore { page: bad });
    }
    let space = directory_of(alloc, &spans)?;
    let kept = keep_quotas(alloc, &defs, &space)?;
    if !kept {
        return Err(SurveyFault::NotAStore { page: CONTAINERS });
    }
    Ok(Surveyed {
        defs,
        space,
        free,
        hidden,
    })
}

/// Reads the header and the definitions, of a volume with so many pages in all: they keep their rules, or the first bad
/// page is told.
pub fn survey_definitions<P: Pages>(
    alloc: Global,
    pages: &mut P,
    count: u32,
    page: &mut Page,
) -> Result<Defs, SurveyFault>
    requires within { count ≤ (P.contents pages.old).count }
    requires some { first_element_page + 1 ≤ count }
    ensures read { SoundRead P.tells count result (P.contents pages.old) (P.contents pages.new) }
    ensures undisturbed { P.undisturbed pages.old pages.new }
{
    read(pages, 0, page)?;
    let Some(format) = format_of(count - FIRST_ELEMENT_PAGE, page) else {
        return Err(SurveyFault::NotAStore { page: 0 });
    };
    let mut defs = Defs::new(alloc);
    defs.set_format(format);
    let broken = read_definitions(alloc, pages, page, &mut defs)?;
    match first_wrong(&defs, &broken, count) {
        Some(bad) => Err(SurveyFault::NotAStore { page: bad }),
        None => Ok(defs),
    }
}

// The page of the first calendar that breaks a rule; where there is none, the first page with what isn't granted.
fn first_wrong(defs: &Defs, broken: &[Broken], count: u32) -> Option<u32>
    requires some { first_element_page ≤ count }
    requires rules { IsDefinitions defs.now.definitions }
    requires listed { AreBroken all_slots broken.now }
    ensures { MatchOption result (AreRight count defs.now.definitions broken.now)
        (IsWrong count defs.now.definitions broken.now) }
{
    match broken.first() {
        Some(first) => Some(page_of_slot(Kind::Calendar, first.slot)),
        None => first_ungranted(defs, count),
    }
}

// The page of containers, where their quotas are more together than there are element pages; else that of the first
// series whose origin is no on start of its calendar.
fn first_ungranted(defs: &Defs, count: u32) -> Option<u32>
    requires some { first_element_page ≤ count }
    requires rules { IsDefinitions defs.now.definitions }
    ensures { MatchOption result (AreGranted count defs.now.definitions)
        (IsLeast (IsUngranted count defs.now.definitions)) }
{
    if sum_of_quotas(defs) > (count - FIRST_ELEMENT_PAGE) as u64 {
        return Some(CONTAINERS);
    }
    first_astray(defs)
}
