// The script of a source: what reading it takes, the opening of the volume, and the run.
ghost use Rattle.std.specs.Prelude.{◌≡◌, IfOk, length};
ghost use Rattle.ts_items.specs.Reader.{start};
ghost use Rattle.ts_script_runs.specs.Script.{ScriptRan};

use crate::run::run_script;
use crate::session::Session;
use std::alloc::{AllocError, Global};
use std::thread::Threads;
use ts_base::Reply;
use ts_command::Reader;
use ts_disk::{Site, Source};
use ts_opening::{Engine, PIECE, unopened};

/// Opens the volume, pulls the script of a source in pieces, and carries it out, one reply per item. The program's
/// status:
///
/// - 0: the source was read to its end, and every item has its reply.
/// - 3: a pull failed. Every item has its reply that ended before.
/// - 4: a reply could not be said whole.
/// - 5: a call of the volume failed.
/// - 6: exactly where the volume is no store, but for a fault or want of memory that came first. The source wasn't
///   pulled.
/// - 7: there was no memory to open the volume: nothing was said or written, and the source wasn't pulled.
/// - 8: exactly where a pull gave bytes past the first 268435456. Every item has its reply that ends within these.
pub fn carry_out_script<S: Site, R: Source>(
    rt: &(impl Threads + Sync),
    alloc: Global,
    site: &mut S,
    source: &mut R,
) -> u8
    ensures ran { ScriptRan S.tells R.tells result (S.device site.old) (S.device site.new) (R.input source.old)
        (R.input source.new) }
{
    match Buffers::new(alloc) {
        Ok(buffers) => run_with(rt, alloc, site, source, buffers),
        Err(_) => 7,
    }
}

// Opens the volume and carries out the script.
fn run_with<S: Site, R: Source>(
    rt: &(impl Threads + Sync),
    alloc: Global,
    site: &mut S,
    source: &mut R,
    buffers: Buffers,
) -> u8
    requires start { buffers.reader ≡ start }
    ensures ran { ScriptRan S.tells R.tells result (S.device site.old) (S.device site.new) (R.input source.old)
        (R.input source.new) }
{
    let Buffers {
        reader,
        reply,
        mut piece,
    } = buffers;
    match Engine::start(alloc, site) {
        Err(fault) => unopened(&fault),
        Ok(engine) => {
            let mut session = Session {
                engine,
                reader,
                reply,
                alloc,
            };
            run_script(rt, &mut session, site, source, &mut piece)
        }
    }
}

/// What reading takes, before anything is done.
#[derive(Drop)]
struct Buffers {
    reader: Reader,
    reply: Reply,
    piece: Vec<u8>,
    ghost whole: { length piece.items ≡ 65536 },
}

impl Buffers {
    fn new(alloc: Global) -> Result<Buffers, AllocError>
        ensures start { IfOk result (λ b. b.reader ≡ start) }
    {
        Ok(Buffers {
            reader: Reader::new(alloc)?,
            reply: Reply::new(alloc),
            piece: zeros(alloc, PIECE)?,
        })
    }
}

fn zeros(alloc: Global, count: usize) -> Result<Vec<u8>, AllocError>
    ensures { IfOk result (λ v. length v.items ≡ count) }
{
    vec![in alloc; 0u8; count]
}
