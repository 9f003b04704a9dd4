// The element pages, read one after the other.
ghost use Rattle.std.specs.Prelude.{◌≡◌, ◌≤◌, ◌+◌, ◌-◌, ◌∷◌, ◌++◌, [], OnOk, List, length};
ghost use Rattle.ts_page.specs.Pages.{first_element_page};
ghost use Rattle.ts_model.specs.Definitions.{Definitions, IsDefinitions};
ghost use Rattle.ts_layout.specs.Meaning.{ElementPage, KeepLimits, HaveOrigins};
ghost use Rattle.ts_container.specs.Elements.{Describes, Listed, ElementsRead};

use crate::content::{Content, content_of};
use crate::fault::SurveyFault;
use crate::read::read;
use crate::span::Span;
use std::alloc::{AllocError, Global};
use ts_model::Defs;
use ts_page::{FIRST_ELEMENT_PAGE, Page, Pages};

/// What is found of the element pages.
#[derive(Drop)]
pub struct Elements {
    /// The pages of series, page after page.
    pub spans: Vec<Span>,
    /// The free pages, rising.
    pub free: Vec<u32>,
}

/// Reads all element pages.
pub(crate) fn read_elements<P: Pages>(
    alloc: Global,
    pages: &mut P,
    count: u32,
    defs: &Defs,
    page: &mut Page,
) -> Result<Elements, SurveyFault>
    requires within { count ≤ (P.contents pages.old).count }
    requires some { first_element_page ≤ count }
    requires limits { KeepLimits defs.now.definitions }
    requires rules { IsDefinitions defs.now.definitions }
    requires origins { HaveOrigins defs.now.definitions }
    ensures read { ElementsRead P.tells (count - first_element_page) defs.now.definitions result (P.contents pages.old)
        (P.contents pages.new) }
    ensures undisturbed { P.undisturbed pages.old pages.new }
{
    let mut elements = Elements {
        spans: Vec::new(alloc),
        free: Vec::new(alloc),
    };
    for number in FIRST_ELEMENT_PAGE..count {
        read(pages, number, page)?;
        let Some(content) = content_of(number, page, defs) else {
            return Err(SurveyFault::NotAStore { page: number });
        };
        elements.add(number, content)?;
    }
    Ok(elements)
}

impl Elements {
    /// Adds what is found of the page of a number.
    pub fn add(&mut self, number: u32, content: Content) -> Result<(), AllocError>
        ensures { OnOk result ((d : Definitions) (es : List ElementPage) (e : ElementPage)
            → number ≡ first_element_page + length es
            → Describes d number content e → Listed d self.old.spans.items self.old.free.items es
            → Listed d self.new.spans.items self.new.free.items (es ++ e ∷ [])) }
    {
        match content {
            Content::Free => {
                self.free.push(number)?;
                Ok(())
            }
            Content::Series(span) => {
                self.spans.push(span)?;
                Ok(())
            }
        }
    }
}
