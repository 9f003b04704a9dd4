// What was decided on definitions is written on pages.
ghost use Rattle.std.specs.Prelude.{◌≡◌, ◌<◌, ◌≤◌, [], ◌++◌, OnOk, IfOk, IfSome, true};
ghost use Rattle.ts_command.specs.declared.command.Command.{Command as TheCommand};
ghost use Rattle.ts_page.specs.Pages.{first_element_page};
ghost use Rattle.ts_space.specs.Directory.{Directory};
ghost use Rattle.ts_model.specs.Definitions.{Definitions, limit, kind_of};
ghost use Rattle.ts_answer.specs.CarriedOut.{CarriedOut};
ghost use Rattle.ts_command.specs.Boundary.{is_writing};
ghost use Rattle.ts_answer.specs.Decided.{IsDecision, FitsSlot, made_line};
ghost use Rattle.ts_answer.specs.View.{view};

use std::alloc::AllocError;
use ts_answer::{Effect, Stop};
use ts_base::{Reply, Trouble};
use ts_container::write_slot;
use ts_model::{Def, Kind};
use ts_page::{Page, Pages};
use ts_say::{say_ok, say_stamp};

/// Carries out what was decided on definitions: the change of one slot, or a refusal. `page` is room to read one.
pub fn redefine<P: Pages>(
    pages: &mut P,
    page: &mut Page,
    kind: Kind,
    decided: Result<(u16, Option<Def>), Trouble>,
    out: &mut Reply,
) -> Result<Effect, Stop>
    requires empty { out.old ≡ [] }
    requires within { first_element_page ≤ (P.contents pages.old).count }
    requires slot { IfOk decided (λ change. change.0 < limit kind) }
    requires kind { IfOk decided (λ change. IfSome change.1 (λ d. kind_of d ≡ kind)) }
    ensures carried { (command : TheCommand) (d : Definitions) (space : Directory)
        → IsDecision kind command decided d (P.contents pages.old).count
        → IfOk decided (λ change. FitsSlot kind change.0 change.1 d) → is_writing command ≡ true
        → CarriedOut P.tells command result out.new (view d space (P.contents pages.old)) (P.contents pages.new) }
    ensures undisturbed { P.undisturbed pages.old pages.new }
{
    let (slot, def) = decided?;
    say_made(out, &def)?;
    write_slot(pages, page, kind, slot, def.as_ref())?;
    Ok(Effect::Slot { kind, slot, def })
}

// Says what is said of a definition that is made or dropped: of a regular series its origin.
fn say_made(out: &mut Reply, def: &Option<Def>) -> Result<(), AllocError>
    ensures { OnOk result (out.new ≡ out.old ++ made_line def.now) }
{
    match def {
        Some(
            Def::Series {
                regular: Some((_, origin)),
                ..
            },
        ) => say_stamp(out, *origin),
        _ => say_ok(out),
    }
}
