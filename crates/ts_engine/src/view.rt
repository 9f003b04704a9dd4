// A command is carried out on the pages of a view, which stand over those of the engine's volume.
ghost use Rattle.std.specs.Prelude.{◌≡◌, ◌<◌, ◌^◌, true, IsTrue, reverse};
ghost use Rattle.ts_page.specs.Pages.{EqualPages, IsLawful};
ghost use Rattle.ts_command.specs.Boundary.{boundary_of, is_between};
ghost use Rattle.ts_command.specs.Form.{HasForm};
ghost use Rattle.ts_store.specs.OpenBatch.{IsOver, contents_over, read_pages};
ghost use Rattle.ts_store.specs.Undisturbed.{Undisturbed};
ghost use Rattle.ts_views.specs.Pages.{view_contents};
ghost use Rattle.ts_answer.specs.View.{view as sees};
ghost use Rattle.ts_answer.specs.CarriedOut.{CarriedOut};
ghost use Rattle.ts_engine.specs.Work.{IsGiven};

use crate::carry_out::{carry_out_on, is_scan};
use crate::engine::Engine;
use std::alloc::Global;
use std::thread::Threads;
use ts_answer::{Effect, Stop};
use ts_base::Reply;
use ts_command::Command;
use ts_container::Charges;
use ts_disk::Volume;
use ts_journal::Batch;
use ts_page::{Page, Pages};
use ts_store::{On, Store};
use ts_views::{View, ViewPages};

impl Engine {
    /// Carries out a command on the pages of a view over those of the volume, which are only read, and gives its effect
    /// in memory, which isn't applied. What it changes goes into `changes` and `free`. The open batch of the store is
    /// to be dropped behind it. Nothing is known of hidden elements there.
    pub fn carry_out_in_view<V: Volume>(
        &mut self,
        rt: &(impl Threads + Sync),
        vol: &mut V,
        view: &View,
        changes: &mut Batch,
        free: &mut Vec<u32>,
        charges: &Charges,
        command: &Command,
        out: &mut Reply,
    ) -> Result<Effect, Stop>
        requires over { IsOver V.tells self.old.store (V.device vol.old) }
        requires given { IsGiven V.tells
            (sees view.now.defs.definitions view.now.space
            (view_contents view.now.old.entries view.now.own.entries changes.old.entries (reverse free.old.items)
            (contents_over self.old.store (V.device vol.old)))) charges.now out.old }
        requires lawful { IsLawful V.tells
            (view_contents view.now.old.entries view.now.own.entries changes.old.entries (reverse free.old.items)
            (contents_over self.old.store (V.device vol.old))) }
        requires form { HasForm command.now }
        requires between { is_between (boundary_of command.now) ≡ true }
        ensures carried { CarriedOut V.tells command.now result out.new
            (sees view.now.defs.definitions view.now.space
            (view_contents view.now.old.entries view.now.own.entries changes.old.entries (reverse free.old.items)
            (contents_over self.old.store (V.device vol.old))))
            (view_contents view.now.old.entries view.now.own.entries changes.new.entries (reverse free.new.items)
            (contents_over self.new.store (V.device vol.new))) }
        ensures same { IsTrue V.tells → EqualPages (read_pages self.old.store (V.device vol.old).held)
            (read_pages self.new.store (V.device vol.new).held) }
        ensures undisturbed { Undisturbed V.tells self.old.store self.new.store (V.device vol.old) (V.device vol.new) }
        ensures others { self.new ≡ record self.old { store = self.new.store } }
    {
        carry_out_in_view_over(
            rt,
            self.alloc,
            &mut self.store,
            vol,
            &mut self.page,
            view,
            changes,
            free,
            charges,
            command,
            out,
        )
    }
}

// The same over a store.
fn carry_out_in_view_over<V: Volume>(
    rt: &(impl Threads + Sync),
    alloc: Global,
    store: &mut Store,
    vol: &mut V,
    page: &mut Page,
    view: &View,
    changes: &mut Batch,
    free: &mut Vec<u32>,
    charges: &Charges,
    command: &Command,
    out: &mut Reply,
) -> Result<Effect, Stop>
    requires over { IsOver V.tells store.old (V.device vol.old) }
    requires given { IsGiven V.tells
        (sees view.now.defs.definitions view.now.space
        (view_contents view.now.old.entries view.now.own.entries changes.old.entries (reverse free.old.items)
        (contents_over store.old (V.device vol.old)))) charges.now out.old }
    requires lawful { IsLawful V.tells
        (view_contents view.now.old.entries view.now.own.entries changes.old.entries (reverse free.old.items)
        (contents_over store.old (V.device vol.old))) }
    requires form { HasForm command.now }
    requires between { is_between (boundary_of command.now) ≡ true }
    ensures carried { CarriedOut V.tells command.now result out.new
        (sees view.now.defs.definitions view.now.space
        (view_contents view.now.old.entries view.now.own.entries changes.old.entries (reverse free.old.items)
        (contents_over store.old (V.device vol.old))))
        (view_contents view.now.old.entries view.now.own.entries changes.new.entries (reverse free.new.items)
        (contents_over store.new (V.device vol.new))) }
    ensures same { IsTrue V.tells → EqualPages (read_pages store.old (V.device vol.old).held)
        (read_pages store.new (V.device vol.new).held) }
    ensures undisturbed { Undisturbed V.tells store.old store.new (V.device vol.old) (V.device vol.new) }
{
    let mut on = On {
        store,
        vol,
        scan: is_scan(command),
    };
    carry_out_in_pages(
        rt, alloc, &mut on, page, view, changes, free, charges, command, out,
    )
}

// The same over any keeper of the newest pages.
fn carry_out_in_pages<'x, P: Pages>(
    rt: &(impl Threads + Sync),
    alloc: Global,
    newest: &'x mut P,
    page: &mut Page,
    view: &'x View,
    changes: &'x mut Batch,
    free: &'x mut Vec<u32>,
    charges: &Charges,
    command: &Command,
    out: &mut Reply,
) -> Result<Effect, Stop>
    requires few { (P.contents newest.old).count < 2 ^ 32 }
    requires given { IsGiven P.tells
        (sees view.now.defs.definitions view.now.space
        (view_contents view.now.old.entries view.now.own.entries changes.old.entries (reverse free.old.items)
        (P.contents newest.old))) charges.now out.old }
    requires lawful { IsLawful P.tells
        (view_contents view.now.old.entries view.now.own.entries changes.old.entries (reverse free.old.items)
        (P.contents newest.old)) }
    requires form { HasForm command.now }
    requires between { is_between (boundary_of command.now) ≡ true }
    ensures carried { CarriedOut P.tells command.now result out.new
        (sees view.now.defs.definitions view.now.space
        (view_contents view.now.old.entries view.now.own.entries changes.old.entries (reverse free.old.items)
        (P.contents newest.old)))
        (view_contents view.now.old.entries view.now.own.entries changes.new.entries (reverse free.new.items)
        (P.contents newest.new)) }
    ensures same { IsTrue P.tells → EqualPages (P.contents newest.old).page (P.contents newest.new).page }
    ensures undisturbed { P.undisturbed newest.old newest.new }
{
    let mut pages = ViewPages {
        newest,
        old: &view.old,
        own: &view.own,
        changes,
        free,
    };
    carry_out_on(
        rt,
        alloc,
        &mut pages,
        page,
        &view.defs,
        &view.space,
        charges,
        command,
        false,
        out,
    )
}
