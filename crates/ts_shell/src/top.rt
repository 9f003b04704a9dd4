// The top call: what the program does, by its words.
ghost use Rattle.std.specs.Prelude.{◌≡◌, ◌≢◌, ◌≤◌, ◌↔◌, ℕ, None, Some, map, string_bytes};
ghost use Rattle.ts_shell.specs.Words.{job_of};
ghost use Rattle.ts_shell.specs.Checking.{CheckRan};
ghost use Rattle.ts_shell.specs.Migrating.{MigrateRan};
ghost use Rattle.ts_generator.specs.Generating.{GenRan};
ghost use Rattle.ts_shell.specs.Top.{Made, Untouched};
ghost use Rattle.ts_script_runs.specs.Script.{ScriptRan};
ghost use Rattle.ts_shell.specs.declared.words.Job.TheVariants.{Init, Run, Check, Migrate, Gen};
ghost use Rattle.ts_shell.specs.declared.words.Job.TheVariants.{Sessions};
ghost use Rattle.ts_session_source.specs.Sessions.{SessionsRan};

use crate::check::check;
use crate::make::make;
use crate::migrate::migrate;
use crate::words::{Job, read_job};
use std::alloc::Global;
use std::thread::Threads;
use ts_disk::{Site, Source};
use ts_generator::generate;
use ts_script_runs::carry_out_script;
use ts_session_source::carry_out_sessions;

/// Does what the words ask for, and answers with the program's status.
///
/// `init PAGES` makes an empty store in the newest format, `run` carries out the script of the source, one reply per
/// item, `check` says the report on a store, or which page of a volume that is none is the first bad one, and changes
/// nothing, `migrate` brings a store to the newest format and leaves all that it holds, `gen COUNT SEED` carries out a
/// list of commands that a seed gives, with so many edits, and says what they come to, and `sessions SEED` carries out
/// the sections of the source, which lines `--session` end, as the scripts of up to 16 sessions that the picks of a seed
/// interleave: each sees the store of its transaction's Begin, and a Commit in conflict with another's is refused. The
/// status:
///
/// - 0: the work was done; `run` and `sessions` have read the source to its end.
/// - 2: exactly where the words are none of these forms. Nothing was done.
/// - 3: of `run`, a pull failed. Every item has its reply that ended before. Of `sessions`, a pull failed, and nothing
///   was said or carried out.
/// - 4: of `run`, `check`, `gen` and `sessions`, a reply or the report could not be said whole. Of `gen` every command
///   was carried out.
/// - 5: a call of the volume failed.
/// - 6: of `run`, `check`, `migrate`, `gen` and `sessions`, exactly where the volume is no store, but for a fault or want
///   of memory that came first. Nothing was written; `check` has said which page is the first bad one, and the others
///   nothing.
/// - 7: of `run`, there was no memory to open the volume: nothing was said or written, and the source wasn't pulled. Of
///   `check`, there was none for the report, and nothing was said. Of `migrate`, there was no memory for it, and the
///   store has its own format. Of `gen`, there was no memory for a command or for what is said: nothing was said, and
///   some first commands were carried out. Of `sessions`, there was no memory to begin: nothing was said, and the store
///   is as it was.
/// - 8: of `run`, exactly where a pull gave bytes past the first 268435456. Every item has its reply that ends within
///   these. Of `sessions`, exactly where a pull gave bytes past the first 1048576; nothing was said or carried out.
/// - 9: of `sessions`, exactly where the source ended within these and has more than 16 sections, but for want of memory
///   that came first. Nothing was said or carried out.
/// - 10: of `init`, exactly where the volume isn't empty. Nothing was done.
pub fn run_ts<S: Site, R: Source>(
    rt: &(impl Threads + Sync),
    alloc: Global,
    words: &[String],
    site: &mut S,
    source: &mut R,
) -> u8
    // Status 2 comes exactly where the words are none of the forms, and then nothing is done.
    ensures usage { (result ≡ 2) ↔ (job_of (map (λ w. string_bytes w) words.now) ≡ None) }
    ensures refused { result ≡ 2 → Untouched (S.device site.old) (S.device site.new) }
    // Only `run` and `sessions` pull the source.
    ensures no_pull { job_of (map (λ w. string_bytes w) words.now) ≢ Some Run
        → ((seed : ℕ) → job_of (map (λ w. string_bytes w) words.now) ≢ Some (Sessions seed))
        → R.input source.new ≡ R.input source.old }
    ensures init { (pages : ℕ) → job_of (map (λ w. string_bytes w) words.now) ≡ Some (Init pages)
        → Made S.tells pages result (S.device site.old) (S.device site.new) }
    ensures run { job_of (map (λ w. string_bytes w) words.now) ≡ Some Run
        → ScriptRan S.tells R.tells result (S.device site.old) (S.device site.new) (R.input source.old)
        (R.input source.new) }
    ensures check { job_of (map (λ w. string_bytes w) words.now) ≡ Some Check
        → CheckRan S.tells result (S.device site.old) (S.device site.new) }
    ensures migrate { job_of (map (λ w. string_bytes w) words.now) ≡ Some Migrate
        → MigrateRan S.tells result (S.device site.old) (S.device site.new) }
    ensures generated { (count seed : ℕ) → job_of (map (λ w. string_bytes w) words.now) ≡ Some (Gen count seed)
        → GenRan S.tells count seed result (S.device site.old) (S.device site.new) }
    ensures sessions { (seed : ℕ) → job_of (map (λ w. string_bytes w) words.now) ≡ Some (Sessions seed)
        → SessionsRan S.tells R.tells seed result (S.device site.old) (S.device site.new) (R.input source.old)
        (R.input source.new) }
{
    match read_job(words) {
        None => 2,
        Some(Job::Init(pages)) => init(site, pages),
        Some(Job::Run) => carry_out_script(rt, alloc, site, source),
        Some(Job::Check) => check(rt, alloc, site),
        Some(Job::Migrate) => migrate(alloc, site),
        Some(Job::Gen { count, seed }) => generate(rt, alloc, site, count, seed),
        Some(Job::Sessions { seed }) => carry_out_sessions(rt, alloc, site, source, seed),
    }
}

// Makes an empty store where nothing is.
fn init<S: Site>(site: &mut S, pages: u32) -> u8
    requires some { 1 ≤ pages }
    requires limit { pages ≤ 65536 }
    ensures made { Made S.tells pages result (S.device site.old) (S.device site.new) }
{
    if site.len() != 0 {
        return 10;
    }
    match make(site, pages) {
        Ok(()) => 0,
        Err(_) => 5,
    }
}
