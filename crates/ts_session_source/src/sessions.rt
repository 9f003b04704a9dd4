// The sessions of a source.
ghost use Rattle.std.specs.Prelude.{◌≡◌, ◌≤◌, None, length};
ghost use Rattle.ts_opening.specs.Engine.{IsReady};
ghost use Rattle.ts_session_source.specs.Opened.{TextRan, OpenedSessions};
ghost use Rattle.ts_session_source.specs.Sessions.{SessionsRan};

use crate::cut::cut_text;
use crate::fault::status;
use crate::text::take_text;
use std::alloc::Global;
use std::thread::Threads;
use ts_disk::{Site, Source};
use ts_opening::{Engine, unopened};
use ts_session_runs::run_sessions;

/// Opens the volume, takes all of a source, and carries its sections out as the scripts of sessions, in the order that
/// the picks of a seed decide. The program's status:
///
/// - 0: the source was read to its end, and every item of every session has its reply.
/// - 3: a pull failed.
/// - 4: a reply could not be said whole.
/// - 5: a call of the volume failed.
/// - 6: exactly where the volume is no store, but for a fault or want of memory that came first. The source wasn't
///   pulled.
/// - 7: there was no memory to begin.
/// - 8: exactly where a pull gave bytes past the first 1048576.
/// - 9: exactly where the source ended within these and has more than 16 sections, but for want of memory that came
///   first.
///
/// But for 0, 4 and 5 nothing was said and the store is as it was.
pub fn carry_out_sessions<S: Site, R: Source>(
    rt: &(impl Threads + Sync),
    alloc: Global,
    site: &mut S,
    source: &mut R,
    seed: u32,
) -> u8
    ensures { SessionsRan S.tells R.tells seed result (S.device site.old) (S.device site.new) (R.input source.old)
        (R.input source.new) }
{
    match Engine::start(alloc, site) {
        Err(fault) => unopened(&fault),
        Ok(mut engine) => take_and_run(rt, alloc, site, &mut engine, source, seed),
    }
}

// Takes all of the source, and carries it out.
fn take_and_run<S: Site, R: Source>(
    rt: &(impl Threads + Sync),
    alloc: Global,
    site: &mut S,
    engine: &mut Engine,
    source: &mut R,
    seed: u32,
) -> u8
    requires ready { IsReady S.tells engine.old (S.device site.old) }
    requires rests { engine.old.saved ≡ None }
    ensures { OpenedSessions S.tells R.tells seed engine.old result (S.device site.old) (S.device site.new)
        (R.input source.old) (R.input source.new) }
{
    match take_text(alloc, source) {
        Err(fault) => status(&fault),
        Ok(text) => run_text(rt, alloc, site, engine, text.as_slice(), seed),
    }
}

// Carries the sections of a text out.
fn run_text<S: Site>(
    rt: &(impl Threads + Sync),
    alloc: Global,
    site: &mut S,
    engine: &mut Engine,
    text: &[u8],
    seed: u32,
) -> u8
    requires ready { IsReady S.tells engine.old (S.device site.old) }
    requires rests { engine.old.saved ≡ None }
    requires short { length text.now ≤ 1048576 }
    ensures { TextRan S.tells seed text.now engine.old result (S.device site.old) (S.device site.new) }
{
    match cut_text(alloc, text, seed) {
        Err(_) => 7,
        Ok(None) => 9,
        Ok(Some(cut)) => run_sessions(
            rt,
            alloc,
            site,
            engine,
            cut.sections.as_slice(),
            cut.picks.as_slice(),
        ),
    }
}
