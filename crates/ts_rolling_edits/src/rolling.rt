// The routines of rolling sets that change several series, each as one effect on all that is in memory.
ghost use Rattle.std.specs.Prelude.{◌≡◌, [], IsTrue, IfErr, IfOk, Ok, Err, EachIndex, slice_index, ◌<◌};
ghost use Rattle.ts_command.specs.declared.command.Command.TheVariants.{RollingPut, RollingDrop};
ghost use Rattle.ts_container.specs.KeptCharges.{AreCharges};
ghost use Rattle.ts_rolling.specs.Sets.{is_set, window_key, a_plan};
ghost use Rattle.ts_answer.specs.Elements.{put_planned, without_windows};
ghost use Rattle.ts_answer.specs.View.{view, IsSeen};
ghost use Rattle.ts_model.specs.declared.kind.Kind.TheVariants.{Series};
ghost use Rattle.ts_model.specs.Catalogue.{without};
ghost use Rattle.ts_answer.specs.CarriedOut.{CarriedOut};
ghost use Rattle.ts_rolling_edits.specs.Parts.{IsWholeDone, IsPartStopped, Never};

use crate::copies::Copies;
use crate::parts::{drop_if_there, drop_windows, open_window, put_in_window};
use std::alloc::Global;
use ts_answer::{Effect, Stop};
use ts_base::{Key, Reply, Stamp};
use ts_command::Literals;
use ts_container::Charges;
use ts_elements::edit_element;
use ts_model::Defs;
use ts_page::{Page, Pages};
use ts_rolling::window_key;
use ts_rolling_sets::{PlannedDrop, PlannedPut, plan_drop_of, plan_put_into};
use ts_say::say_count;
use ts_series::EditKind;
use ts_space::Space;

/// Puts an element into the window of a set that holds its stamp. Windows that are too old go first, and the window is
/// made where it isn't there; where neither is needed it is an edit of that one series. `page` is room to read one.
pub fn rolling_put<P: Pages>(
    alloc: Global,
    pages: &mut P,
    page: &mut Page,
    defs: &Defs,
    space: &Space,
    charges: &Charges,
    set: &Key,
    stamp: Stamp,
    values: &Literals,
    out: &mut Reply,
) -> Result<Effect, Stop>
    requires seen { IsSeen P.tells (view defs.now.definitions space.now (P.contents pages.old)) }
    requires charged { AreCharges charges.now defs.now.definitions space.now }
    requires set { IsTrue (is_set set.now) }
    requires empty { out.old ≡ [] }
    ensures carried { CarriedOut P.tells (RollingPut set.now stamp values.now) result out.new
        (view defs.now.definitions space.now (P.contents pages.old)) (P.contents pages.new) }
    ensures undisturbed { P.undisturbed pages.old pages.new }
{
    let planned = plan_put_into(alloc, pages, defs, space, set, stamp, values)?;
    if let Some(key) = planned.alone() {
        let how = EditKind::PutNoDups;
        return edit_element(
            pages, page, defs, space, charges, how, key, stamp, values, out,
        );
    }
    let key = window_key(alloc, set, planned.plan.window)?;
    let put = Put {
        set,
        key,
        planned,
        stamp,
        values,
    };
    put_on_copies(alloc, pages, page, defs, space, &put, out)
}

// A put into a set: the set's key, the key of the window, what is planned, and what is put.
#[derive(Drop)]
struct Put<'a> {
    set: &'a Key,
    key: Key,
    planned: PlannedPut<'a>,
    stamp: Stamp,
    values: &'a Literals,
}

// Does all that a put asks for on copies, which are what is in memory then.
fn put_on_copies<P: Pages>(
    alloc: Global,
    pages: &mut P,
    page: &mut Page,
    defs: &Defs,
    space: &Space,
    put: &Put<'_>,
    out: &mut Reply,
) -> Result<Effect, Stop>
    requires seen { IsSeen P.tells (view defs.now.definitions space.now (P.contents pages.old)) }
    requires set { IsTrue (is_set put.now.set.now) }
    requires key { put.now.key ≡ window_key put.now.set.now put.now.planned.plan.window }
    requires few { EachIndex put.now.planned.plan.purge.items
        (λ k. slice_index put.now.planned.plan.purge.items k < 1_000_000_000_000) }
    requires empty { out.old ≡ [] }
    ensures done { let planned = put.now.planned in IfOk result (λ effect. IsWholeDone P.tells
        (λ cat after. put_planned put.now.set.now planned.container.now
        (a_plan planned.plan.window planned.plan.attach planned.plan.purge.items) put.now.stamp put.now.values.now cat
        ≡ Ok (out.new, after))
        effect (view defs.now.definitions space.now (P.contents pages.old)) (P.contents pages.new)) }
    ensures stopped { let planned = put.now.planned in IfErr result (λ stop. IsPartStopped P.tells
        (λ refusal cat. put_planned put.now.set.now planned.container.now
        (a_plan planned.plan.window planned.plan.attach planned.plan.purge.items) put.now.stamp put.now.values.now cat
        ≡ Err refusal)
        stop (view defs.now.definitions space.now (P.contents pages.old)) (P.contents pages.new)) }
    ensures count { (P.contents pages.new).count ≡ (P.contents pages.old).count }
    ensures undisturbed { P.undisturbed pages.old pages.new }
{
    let mut copies = Copies::of(alloc, defs, space)?;
    let (plan, key, container) = (&put.planned.plan, &put.key, put.planned.container);
    drop_windows(alloc, pages, page, &mut copies, put.set, &plan.purge)?;
    open_window(alloc, pages, page, &mut copies, plan.attach, key, container)?;
    put_in_window(
        alloc,
        pages,
        page,
        &mut copies,
        key,
        put.stamp,
        put.values,
        out,
    )?;
    let effect = copies.whole(alloc)?;
    Ok(effect)
}

/// Drops a set: its windows and its control, and says how many windows they were. `page` is room to read one.
pub fn rolling_drop<P: Pages>(
    alloc: Global,
    pages: &mut P,
    page: &mut Page,
    defs: &Defs,
    space: &Space,
    set: &Key,
    out: &mut Reply,
) -> Result<Effect, Stop>
    requires seen { IsSeen P.tells (view defs.now.definitions space.now (P.contents pages.old)) }
    requires set { IsTrue (is_set set.now) }
    requires empty { out.old ≡ [] }
    ensures carried { CarriedOut P.tells (RollingDrop set.now) result out.new
        (view defs.now.definitions space.now (P.contents pages.old)) (P.contents pages.new) }
    ensures undisturbed { P.undisturbed pages.old pages.new }
{
    let planned = plan_drop_of(alloc, pages, defs, space, set)?;
    say_count(out, planned.windows.len() as u64)?;
    drop_on_copies(alloc, pages, page, defs, space, set, &planned)
}

// Drops all of them on copies, which are what is in memory then.
fn drop_on_copies<P: Pages>(
    alloc: Global,
    pages: &mut P,
    page: &mut Page,
    defs: &Defs,
    space: &Space,
    set: &Key,
    planned: &PlannedDrop,
) -> Result<Effect, Stop>
    requires seen { IsSeen P.tells (view defs.now.definitions space.now (P.contents pages.old)) }
    requires set { IsTrue (is_set set.now) }
    requires few { EachIndex planned.now.windows.items
        (λ k. slice_index planned.now.windows.items k < 1_000_000_000_000) }
    ensures done { IfOk result (λ effect. IsWholeDone P.tells
        (λ cat after. after
        ≡ without Series planned.now.control (without_windows set.now planned.now.windows.items cat))
        effect (view defs.now.definitions space.now (P.contents pages.old)) (P.contents pages.new)) }
    ensures stopped { IfErr result (λ stop. IsPartStopped P.tells Never
        stop (view defs.now.definitions space.now (P.contents pages.old)) (P.contents pages.new)) }
    ensures count { (P.contents pages.new).count ≡ (P.contents pages.old).count }
    ensures undisturbed { P.undisturbed pages.old pages.new }
{
    let mut copies = Copies::of(alloc, defs, space)?;
    drop_windows(alloc, pages, page, &mut copies, set, &planned.windows)?;
    drop_if_there(alloc, pages, page, &mut copies, &planned.control)?;
    let effect = copies.whole(alloc)?;
    Ok(effect)
}
