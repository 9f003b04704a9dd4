// Whether a command writes.
ghost use Rattle.std.specs.Prelude.{◌≡◌};
ghost use Rattle.ts_command.specs.Boundary.{is_writing};

use crate::command::Command;

impl Command {
    /// Whether the routine writes; else it only reads.
    pub fn is_writing(&self) -> bool
        ensures { result ≡ is_writing self.now }
    {
        match self {
            Command::CreateRowType { .. } => true,
            Command::DropRowType { .. } => true,
            Command::CreatePattern { .. } => true,
            Command::NotOp { .. } => true,
            Command::AndPatterns { .. } => true,
            Command::OrPatterns { .. } => true,
            Command::AndCalendars { .. } => true,
            Command::OrCalendars { .. } => true,
            Command::ShowPattern { .. } => false,
            Command::DropPattern { .. } => true,
            Command::CreateCalendar { .. } => true,
            Command::ShowCalendar { .. } => false,
            Command::DropCalendar { .. } => true,
            Command::TSContainerCreate { .. } => true,
            Command::TSContainerDestroy { .. } => true,
            Command::TSContainerUsage { .. } => false,
            Command::TSCreate { .. } => true,
            Command::TSCreateIrr { .. } => true,
            Command::DropSeries { .. } => true,
            Command::ListSeries { .. } => false,
            Command::PutElem { .. } => true,
            Command::PutElemNoDups { .. } => true,
            Command::InsElem { .. } => true,
            Command::UpdElem { .. } => true,
            Command::DelElem { .. } => true,
            Command::DelClip { .. } => true,
            Command::CalIndex { .. } => false,
            Command::CalStamp { .. } => false,
            Command::CalRange { .. } => false,
            Command::HideElem { .. } => true,
            Command::RevealElem { .. } => true,
            Command::GetElem { .. } => false,
            Command::GetLastElem { .. } => false,
            Command::GetNelems { .. } => false,
            Command::GetFirstElem { .. } => false,
            Command::GetNthElem { .. } => false,
            Command::Clip { .. } => false,
            Command::ClipCount { .. } => false,
            Command::ClipGetCount { .. } => false,
            Command::Union { .. } => false,
            Command::Intersect { .. } => false,
            Command::Lag { .. } => false,
            Command::AggregateBy { .. } => false,
            Command::AggregateRange { .. } => false,
            Command::AggregateAll { .. } => false,
            Command::TSRunningSum { .. } => false,
            Command::TSRunningAvg { .. } => false,
            Command::Apply { .. } => false,
            Command::RollingCreate { .. } => true,
            Command::RollingPut { .. } => true,
            Command::RollingClip { .. } => false,
            Command::RollingDrop { .. } => true,
            Command::Begin => false,
            Command::Commit => false,
            Command::Rollback => false,
        }
    }
}
