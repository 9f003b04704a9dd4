// A view is opened: it is the newest catalogue.
ghost use Rattle.std.specs.Prelude.{◌≡◌, ◌<◌, None, Some, OnOk, OnErr, IfOk, length, slice_set};
ghost use Rattle.ts_views.specs.declared.view.View.{View as TheView};
ghost use Rattle.ts_views.specs.View.{view_of};
ghost use Rattle.ts_session_engine.specs.Opened.{IsNewest};

use std::alloc::{AllocError, Global};
use ts_engine::Engine;
use ts_journal::Batch;
use ts_views::{View, Views};

/// Opens the closed view of a session, by an engine without a transaction.
pub fn open_view(engine: &Engine, views: &mut Views, who: usize) -> Result<(), AllocError>
    requires within { who < length views.old }
    requires closed { view_of who views.old ≡ None }
    requires rests { engine.now.saved ≡ None }
    ensures opened { OnOk result ((v : TheView) × (views.new ≡ slice_set views.old who (Some v))
        × IsNewest engine.now v) }
    ensures err { OnErr result (views.new ≡ views.old) }
{
    let view = newest(engine.allocator(), engine)?;
    views.open(who, view);
    Ok(())
}

// The view of the newest catalogue.
fn newest(alloc: Global, engine: &Engine) -> Result<View, AllocError>
    ensures { IfOk result (IsNewest engine.now) }
{
    let defs = engine.defs().copy()?;
    let space = engine.space().copy()?;
    let free = engine.store().copy_free(alloc)?;
    let old = Batch::new(alloc);
    let own = Batch::new(alloc);
    let commands = Vec::new(alloc);
    Ok(View {
        defs,
        space,
        free,
        old,
        own,
        commands,
    })
}
