// What a command does to a transaction.
ghost use Rattle.std.specs.Prelude.{◌≡◌};
ghost use Rattle.ts_command.specs.Boundary.{boundary_of};

use crate::command::Command;

/// What a command does to a transaction.
#[derive(Clone, Copy, Debug)]
pub enum Boundary {
    /// It begins one.
    Opens,
    /// It makes what was done in it last, and ends it.
    Commits,
    /// It takes back what was done in it, and ends it.
    RollsBack,
    /// It stands in none: it is a commit of its own, or reads what was committed.
    Alone,
}

impl Command {
    /// Whether the command opens a transaction or ends one, and how, or stands in none.
    pub fn boundary(&self) -> Option<Boundary>
        ensures { result ≡ boundary_of self.now }
    {
        match self {
            Command::CreateRowType { .. } => None,
            Command::DropRowType { .. } => None,
            Command::CreatePattern { .. } => None,
            Command::NotOp { .. } => None,
            Command::AndPatterns { .. } => None,
            Command::OrPatterns { .. } => None,
            Command::AndCalendars { .. } => None,
            Command::OrCalendars { .. } => None,
            Command::ShowPattern { .. } => None,
            Command::DropPattern { .. } => None,
            Command::CreateCalendar { .. } => None,
            Command::ShowCalendar { .. } => None,
            Command::DropCalendar { .. } => None,
            Command::TSContainerCreate { .. } => None,
            Command::TSContainerDestroy { .. } => None,
            Command::TSContainerUsage { .. } => None,
            Command::TSCreate { .. } => None,
            Command::TSCreateIrr { .. } => None,
            Command::DropSeries { .. } => None,
            Command::ListSeries { .. } => None,
            Command::PutElem { .. } => None,
            Command::PutElemNoDups { .. } => None,
            Command::InsElem { .. } => None,
            Command::UpdElem { .. } => None,
            Command::DelElem { .. } => None,
            Command::DelClip { .. } => None,
            Command::CalIndex { .. } => None,
            Command::CalStamp { .. } => None,
            Command::CalRange { .. } => None,
            Command::HideElem { .. } => None,
            Command::RevealElem { .. } => None,
            Command::GetElem { .. } => None,
            Command::GetLastElem { .. } => None,
            Command::GetNelems { .. } => None,
            Command::GetFirstElem { .. } => None,
            Command::GetNthElem { .. } => None,
            Command::Clip { .. } => None,
            Command::ClipCount { .. } => None,
            Command::ClipGetCount { .. } => None,
            Command::Union { .. } => None,
            Command::Intersect { .. } => None,
            Command::Lag { .. } => None,
            Command::AggregateBy { .. } => None,
            Command::AggregateRange { .. } => None,
            Command::AggregateAll { .. } => None,
            Command::TSRunningSum { .. } => None,
            Command::TSRunningAvg { .. } => None,
            Command::Apply { .. } => None,
            Command::RollingCreate { .. } => Some(Boundary::Alone),
            Command::RollingPut { .. } => Some(Boundary::Alone),
            Command::RollingClip { .. } => Some(Boundary::Alone),
            Command::RollingDrop { .. } => Some(Boundary::Alone),
            Command::Begin => Some(Boundary::Opens),
            Command::Commit => Some(Boundary::Commits),
            Command::Rollback => Some(Boundary::RollsBack),
        }
    }
}
