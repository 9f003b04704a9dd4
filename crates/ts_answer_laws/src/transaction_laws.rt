// What holds of Begin, Commit and Rollback, in the words of one who asks for them.
ghost use Rattle.ts_answer_laws.specs.TransactionLaws.{OnlyCommitsMoveTheBase, WhatIsRolledBackLeavesNothing};
ghost use Rattle.ts_answer_laws.specs.TransactionLaws.{WhatIsCommittedIsMade, TransactionsAreNeverOverfull};

/// What a volume means is changed by commits alone: an accepted command that writes where no transaction is open, and
/// the Commit of one that is.
pub fn only_commits_move_the_base()
    ensures { OnlyCommitsMoveTheBase }
{}

/// Begin, requests that are no Begin, Commit or Rollback, and Rollback leave the catalogue as it was before them, with
/// no transaction open.
pub fn what_is_rolled_back_leaves_nothing()
    ensures { WhatIsRolledBackLeavesNothing }
{}

/// Between Begin and Commit each request has the reply that it has without these, and leaves the same catalogue, where
/// each command that writes comes while fewer than 32 were accepted. Commit says how many were.
pub fn what_is_committed_is_what_the_commands_make()
    ensures { WhatIsCommittedIsMade }
{}

/// No transaction ever has more than 32 accepted commands that write.
pub fn a_transaction_is_never_overfull()
    ensures { TransactionsAreNeverOverfull }
{}
