// What holds of every run of sessions.
ghost use Rattle.std.specs.Prelude.{ℕ, Bool, List};
ghost use Rattle.ts_model.specs.Catalogue.{Catalogue};
ghost use Rattle.ts_replies.specs.Acknowledged.{TellsApart};
ghost use Rattle.ts_sessions.specs.Machine.{Machine, start};
ghost use Rattle.ts_sessions.specs.Steps.{Turn, machine_answer};
ghost use Rattle.ts_sessions.specs.Turns.{behind_all};
ghost use Rattle.ts_sessions.specs.Laws.{ConflictsAreFirst, OnlyCommitsAppend, OthersLeaveASnapshot, CommitsAreOneList};
ghost use Rattle.ts_sessions.specs.Laws.{MachinesStaySound, RepliesAreHeard, LogsFollow, spoken};

/// The number that a Conflict says is that of the first commit behind the Begin that wrote an object which a command of
/// the transaction writes or names; where a Commit meets no conflict, no such commit did.
pub fn a_conflict_names_the_first()
    ensures { ConflictsAreFirst }
{}

/// A turn leaves the commits as they are, or appends one: an accepted command that writes and stands in no transaction,
/// or what a transaction without conflict accepted, at its Commit, replayed on what was committed last. A Commit ends
/// its transaction, also where it is refused, and then changes nothing.
pub fn only_commits_append()
    ensures { (m : Machine) (turn : Turn) → OnlyCommitsAppend m turn }
{}

/// Whatever other sessions do, an open transaction stays open with its commands, and sees the same catalogue.
pub fn others_leave_a_snapshot()
    ensures { OthersLeaveASnapshot }
{}

/// However turns come, one session that carries out what was committed, one transaction behind the other in the order
/// of the commits, comes to the same catalogue: each commit's commands are all accepted on what was committed before.
pub fn commits_are_one_list()
    ensures { (count : ℕ) (cat : Catalogue) (turns : List Turn) →
        CommitsAreOneList cat (behind_all machine_answer (start count cat) turns) }
{}

/// A transaction began behind commits that there are, and has at most 32 commands, which write and were accepted by
/// what it sees: so it is from the beginning on, whatever is asked.
pub fn a_machine_stays_sound()
    ensures { MachinesStaySound }
{}

/// No reply begins with the memory line behind its session's line, nor the other way round, and none is empty: so what
/// was said determines the machine.
pub fn replies_of_sessions_are_apart()
    ensures { TellsApart spoken }
{}

/// The replies to turns, one behind the other, are heard as what they are.
pub fn what_is_said_is_heard()
    ensures { RepliesAreHeard }
{}

/// The log that is kept of a machine goes through its steps with it, and finds its conflicts.
pub fn a_log_follows_its_machine()
    ensures { (who : ℕ) (m : Machine) (room : Bool) → LogsFollow who m room }
{}
