// One page is read.
ghost use Rattle.std.specs.Prelude.{◌<◌};
ghost use Rattle.ts_page.specs.Pages.{IsOutsideJournal};
ghost use Rattle.ts_container.specs.Survey.{PageGot};

use crate::fault::SurveyFault;
use ts_page::{Page, Pages};

/// Reads a page into the buffer.
pub(crate) fn read<P: Pages>(pages: &mut P, number: u32, page: &mut Page) -> Result<(), SurveyFault>
    requires within { number < (P.contents pages.old).count }
    requires outside { IsOutsideJournal number }
    ensures got { PageGot P.tells number page.new.bytes result (P.contents pages.old) (P.contents pages.new) }
    ensures undisturbed { P.undisturbed pages.old pages.new }
{
    pages.get(number, page)?;
    Ok(())
}
