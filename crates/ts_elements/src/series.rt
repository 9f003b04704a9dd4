// The routine that drops a series.
ghost use Rattle.std.specs.Prelude.{◌≡◌, ℕ, [], IfOk, IfErr};
ghost use Rattle.ts_command.specs.declared.command.Command.TheVariants.{DropSeries};
ghost use Rattle.ts_answer.specs.View.{view, IsSeen};
ghost use Rattle.ts_answer.specs.CarriedOut.{CarriedOut};
ghost use Rattle.ts_elements.specs.Drops.{IsDropped, LeavesRefused};

use std::alloc::Global;
use ts_answer::{Effect, Stop};
use ts_base::{Key, Reply};
use ts_chain::free_pages;
use ts_container::write_slot;
use ts_define::series_named;
use ts_model::{Defs, Kind};
use ts_page::{Page, Pages};
use ts_say::say_ok;
use ts_space::Space;

/// Drops a series with its elements: frees its pages and empties its slot. `page` is room to read one.
pub fn drop_series<P: Pages>(
    alloc: Global,
    pages: &mut P,
    page: &mut Page,
    defs: &Defs,
    space: &Space,
    key: &Key,
    out: &mut Reply,
) -> Result<Effect, Stop>
    requires seen { IsSeen P.tells (view defs.now.definitions space.now (P.contents pages.old)) }
    requires empty { out.old ≡ [] }
    ensures carried { CarriedOut P.tells (DropSeries key.now) result out.new
        (view defs.now.definitions space.now (P.contents pages.old)) (P.contents pages.new) }
    ensures images { IfOk result (λ effect. (slot : ℕ) × IsDropped slot (P.contents pages.old) (P.contents pages.new)) }
    ensures refused { IfErr result (λ stop. LeavesRefused stop (P.contents pages.old) (P.contents pages.new)) }
    ensures undisturbed { P.undisturbed pages.old pages.new }
{
    let slot = series_named(defs, key)?;
    say_ok(out)?;
    free_pages(alloc, pages, space.places(slot))?;
    write_slot(pages, page, Kind::Series, slot, None)?;
    Ok(Effect::Series { slot })
}
