// A command that reads elements of series is answered on the pages of a view.
ghost use Rattle.std.specs.Prelude.{◌≡◌, ◌<◌, ◌^◌, [], true, IsTrue, reverse};
ghost use Rattle.ts_page.specs.Pages.{EqualPages, IsLawful};
ghost use Rattle.ts_command.specs.Form.{HasForm};
ghost use Rattle.ts_store.specs.OpenBatch.{IsOver, contents_over, read_pages};
ghost use Rattle.ts_store.specs.Undisturbed.{Undisturbed};
ghost use Rattle.ts_views.specs.Pages.{view_contents};
ghost use Rattle.ts_answer.specs.View.{view as sees, IsSeen};
ghost use Rattle.ts_answer.specs.CarriedOut.{ReadOut};
ghost use Rattle.ts_engine.specs.Reading.{reads_elements};
ghost use Rattle.ts_engine.specs.Work.{work_of};

use crate::carry_out::is_scan;
use crate::engine::Engine;
use crate::routines::{aggregate, combine, read};
use std::alloc::Global;
use std::thread::Threads;
use ts_answer::Stop;
use ts_base::Reply;
use ts_command::Command;
use ts_disk::Volume;
use ts_journal::Batch;
use ts_model::Defs;
use ts_page::{Page, Pages};
use ts_space::Space;
use ts_store::{On, Store};
use ts_views::{View, ViewPages};

/// Whether a command reads elements of series, and does nothing else.
pub fn reads_elements(command: &Command) -> bool
    ensures { result ≡ reads_elements (work_of command.now) }
{
    match command {
        Command::GetElem { .. } => true,
        Command::GetLastElem { .. } => true,
        Command::GetFirstElem { .. } => true,
        Command::GetNthElem { .. } => true,
        Command::Clip { .. } => true,
        Command::ClipCount { .. } => true,
        Command::ClipGetCount { .. } => true,
        Command::Union { .. } => true,
        Command::Intersect { .. } => true,
        Command::Lag { .. } => true,
        Command::AggregateBy { .. } => true,
        Command::AggregateRange { .. } => true,
        Command::AggregateAll { .. } => true,
        Command::TSRunningSum { .. } => true,
        Command::TSRunningAvg { .. } => true,
        Command::Apply { .. } => true,
        Command::RollingClip { .. } => true,
        Command::CreateRowType { .. } => false,
        Command::DropRowType { .. } => false,
        Command::CreatePattern { .. } => false,
        Command::NotOp { .. } => false,
        Command::AndPatterns { .. } => false,
        Command::OrPatterns { .. } => false,
        Command::ShowPattern { .. } => false,
        Command::DropPattern { .. } => false,
        Command::CreateCalendar { .. } => false,
        Command::AndCalendars { .. } => false,
        Command::OrCalendars { .. } => false,
        Command::ShowCalendar { .. } => false,
        Command::DropCalendar { .. } => false,
        Command::CalIndex { .. } => false,
        Command::CalStamp { .. } => false,
        Command::CalRange { .. } => false,
        Command::TSContainerCreate { .. } => false,
        Command::TSContainerDestroy { .. } => false,
        Command::TSContainerUsage { .. } => false,
        Command::TSCreate { .. } => false,
        Command::TSCreateIrr { .. } => false,
        Command::DropSeries { .. } => false,
        Command::ListSeries { .. } => false,
        Command::GetNelems { .. } => false,
        Command::PutElem { .. } => false,
        Command::PutElemNoDups { .. } => false,
        Command::InsElem { .. } => false,
        Command::UpdElem { .. } => false,
        Command::DelElem { .. } => false,
        Command::DelClip { .. } => false,
        Command::HideElem { .. } => false,
        Command::RevealElem { .. } => false,
        Command::RollingCreate { .. } => false,
        Command::RollingPut { .. } => false,
        Command::RollingDrop { .. } => false,
        Command::Begin => false,
        Command::Commit => false,
        Command::Rollback => false,
    }
}

impl Engine {
    /// Answers a command that reads elements of series on the pages of a view over those of the volume. What containers
    /// are charged isn't asked for. What the pages of the view hold stays, and which of them are free. The open batch
    /// of the store is to be dropped behind it.
    pub fn read_in_view<V: Volume>(
        &mut self,
        rt: &(impl Threads + Sync),
        vol: &mut V,
        view: &View,
        changes: &mut Batch,
        free: &mut Vec<u32>,
        command: &Command,
        out: &mut Reply,
    ) -> Result<(), Stop>
        requires over { IsOver V.tells self.old.store (V.device vol.old) }
        requires seen { IsSeen V.tells
            (sees view.now.defs.definitions view.now.space
            (view_contents view.now.old.entries view.now.own.entries changes.old.entries (reverse free.old.items)
            (contents_over self.old.store (V.device vol.old)))) }
        requires lawful { IsLawful V.tells
            (view_contents view.now.old.entries view.now.own.entries changes.old.entries (reverse free.old.items)
            (contents_over self.old.store (V.device vol.old))) }
        requires form { HasForm command.now }
        requires reads { reads_elements (work_of command.now) ≡ true }
        requires empty { out.old ≡ [] }
        ensures read { ReadOut V.tells command.now result out.new
            (sees view.now.defs.definitions view.now.space
            (view_contents view.now.old.entries view.now.own.entries changes.old.entries (reverse free.old.items)
            (contents_over self.old.store (V.device vol.old))))
            (view_contents view.now.old.entries view.now.own.entries changes.new.entries (reverse free.new.items)
            (contents_over self.new.store (V.device vol.new))) }
        ensures same { IsTrue V.tells → EqualPages (read_pages self.old.store (V.device vol.old).held)
            (read_pages self.new.store (V.device vol.new).held) }
        ensures undisturbed { Undisturbed V.tells self.old.store self.new.store (V.device vol.old) (V.device vol.new) }
        ensures others { self.new ≡ record self.old { store = self.new.store } }
    {
        read_in_view_over(
            rt,
            self.alloc,
            &mut self.store,
            vol,
            &mut self.page,
            view,
            changes,
            free,
            command,
            out,
        )
    }
}

// The same over a store.
fn read_in_view_over<V: Volume>(
    rt: &(impl Threads + Sync),
    alloc: Global,
    store: &mut Store,
    vol: &mut V,
    page: &mut Page,
    view: &View,
    changes: &mut Batch,
    free: &mut Vec<u32>,
    command: &Command,
    out: &mut Reply,
) -> Result<(), Stop>
    requires over { IsOver V.tells store.old (V.device vol.old) }
    requires seen { IsSeen V.tells
        (sees view.now.defs.definitions view.now.space
        (view_contents view.now.old.entries view.now.own.entries changes.old.entries (reverse free.old.items)
        (contents_over store.old (V.device vol.old)))) }
    requires lawful { IsLawful V.tells
        (view_contents view.now.old.entries view.now.own.entries changes.old.entries (reverse free.old.items)
        (contents_over store.old (V.device vol.old))) }
    requires form { HasForm command.now }
    requires reads { reads_elements (work_of command.now) ≡ true }
    requires empty { out.old ≡ [] }
    ensures read { ReadOut V.tells command.now result out.new
        (sees view.now.defs.definitions view.now.space
        (view_contents view.now.old.entries view.now.own.entries changes.old.entries (reverse free.old.items)
        (contents_over store.old (V.device vol.old))))
        (view_contents view.now.old.entries view.now.own.entries changes.new.entries (reverse free.new.items)
        (contents_over store.new (V.device vol.new))) }
    ensures same { IsTrue V.tells → EqualPages (read_pages store.old (V.device vol.old).held)
        (read_pages store.new (V.device vol.new).held) }
    ensures undisturbed { Undisturbed V.tells store.old store.new (V.device vol.old) (V.device vol.new) }
{
    let mut on = On {
        store,
        vol,
        scan: is_scan(command),
    };
    read_in_pages(rt, alloc, &mut on, page, view, changes, free, command, out)
}

// The same over any keeper of the newest pages.
fn read_in_pages<'x, P: Pages>(
    rt: &(impl Threads + Sync),
    alloc: Global,
    newest: &'x mut P,
    page: &mut Page,
    view: &'x View,
    changes: &'x mut Batch,
    free: &'x mut Vec<u32>,
    command: &Command,
    out: &mut Reply,
) -> Result<(), Stop>
    requires few { (P.contents newest.old).count < 2 ^ 32 }
    requires seen { IsSeen P.tells
        (sees view.now.defs.definitions view.now.space
        (view_contents view.now.old.entries view.now.own.entries changes.old.entries (reverse free.old.items)
        (P.contents newest.old))) }
    requires lawful { IsLawful P.tells
        (view_contents view.now.old.entries view.now.own.entries changes.old.entries (reverse free.old.items)
        (P.contents newest.old)) }
    requires form { HasForm command.now }
    requires reads { reads_elements (work_of command.now) ≡ true }
    requires empty { out.old ≡ [] }
    ensures read { ReadOut P.tells command.now result out.new
        (sees view.now.defs.definitions view.now.space
        (view_contents view.now.old.entries view.now.own.entries changes.old.entries (reverse free.old.items)
        (P.contents newest.old)))
        (view_contents view.now.old.entries view.now.own.entries changes.new.entries (reverse free.new.items)
        (P.contents newest.new)) }
    ensures same { IsTrue P.tells → EqualPages (P.contents newest.old).page (P.contents newest.new).page }
    ensures undisturbed { P.undisturbed newest.old newest.new }
{
    let mut pages = ViewPages {
        newest,
        old: &view.old,
        own: &view.own,
        changes,
        free,
    };
    read_on(
        rt,
        alloc,
        &mut pages,
        page,
        &view.defs,
        &view.space,
        command,
        out,
    )
}

// The same on pages, whatever keeps them.
fn read_on<P: Pages>(
    rt: &(impl Threads + Sync),
    alloc: Global,
    pages: &mut P,
    page: &mut Page,
    defs: &Defs,
    space: &Space,
    command: &Command,
    out: &mut Reply,
) -> Result<(), Stop>
    requires seen { IsSeen P.tells (sees defs.now.definitions space.now (P.contents pages.old)) }
    requires form { HasForm command.now }
    requires reads { reads_elements (work_of command.now) ≡ true }
    requires empty { out.old ≡ [] }
    ensures read { ReadOut P.tells command.now result out.new
        (sees defs.now.definitions space.now (P.contents pages.old)) (P.contents pages.new) }
    ensures undisturbed { P.undisturbed pages.old pages.new }
{
    // Nothing is known of hidden elements there.
    if let Some(came) = read(alloc, pages, page, defs, space, command, false, out) {
        return came;
    }
    if let Some(came) = combine(alloc, pages, page, defs, space, command, out) {
        return came;
    }
    let Some(came) = aggregate(rt, alloc, pages, page, defs, space, command, out) else {
        unreachable!()
    };
    came
}
