// What holds of sessions, in the words of a run that is alone.
ghost use Rattle.std.specs.Prelude.{ℕ, List, ◌<◌, ◌≤◌};
ghost use Rattle.std.specs.List.{AllByRecursion};
ghost use Rattle.ts_command.specs.Grammar.{Request};
ghost use Rattle.ts_model.specs.Catalogue.{Catalogue};
ghost use Rattle.ts_session_laws.specs.Laws.{SnapshotsAreRuns, IsOfSessions, OneSessionIsARun};

/// From a Begin on a session is answered as if it were alone, until it ends the transaction, whatever others do
/// between.
pub fn a_snapshot_is_a_run()
    ensures { SnapshotsAreRuns }
{}

/// Sessions of which one alone has turns, and asks for no rolling routine, are a run: the same replies, each behind the
/// session's line, and the same catalogue.
pub fn one_session_is_a_run()
    ensures { (count : ℕ) (cat : Catalogue) (who : ℕ) (requests : List Request) → 0 < who → who ≤ count →
        AllByRecursion IsOfSessions requests → OneSessionIsARun count cat who requests }
{}
