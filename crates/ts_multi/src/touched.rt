// What a command touches.
ghost use Rattle.std.specs.Prelude.{◌≡◌, ◌<◌, ◌^◌, length, IfOk};
ghost use Rattle.ts_calendar.specs.Calendars.{read_calendar};
ghost use Rattle.ts_command.specs.Form.{HasForm};
ghost use Rattle.ts_multi.specs.Touched.{objects, one, two, pattern_named};

use crate::object::{ObjectList, Touched};
use std::alloc::{AllocError, Global};
use ts_base::Trouble;
use ts_calendar::{CalendarText, PatternPart};
use ts_command::Command;
use ts_model::Kind;

/// The objects that a command writes, and the others that it names.
pub fn objects(alloc: Global, command: &Command) -> Result<Touched, AllocError>
    requires { HasForm command.now }
    ensures { IfOk result (λ t. t ≡ objects command.now) }
{
    Ok(Touched {
        wrote: written(alloc, command)?,
        named: named(alloc, command)?,
    })
}

// The object that a command makes, drops or edits.
fn written(alloc: Global, command: &Command) -> Result<ObjectList, AllocError>
    ensures { IfOk result (λ l. l ≡ (objects command.now).wrote) }
{
    match command {
        Command::CreateRowType { name, .. } | Command::DropRowType { name } => {
            one(alloc, Kind::RowType, name.as_slice())
        }
        Command::CreatePattern { name, .. }
        | Command::NotOp { name, .. }
        | Command::AndPatterns { name, .. }
        | Command::OrPatterns { name, .. }
        | Command::DropPattern { name } => one(alloc, Kind::Pattern, name.as_slice()),
        Command::CreateCalendar { name, .. }
        | Command::AndCalendars { name, .. }
        | Command::OrCalendars { name, .. }
        | Command::DropCalendar { name } => one(alloc, Kind::Calendar, name.as_slice()),
        Command::TSContainerCreate { name, .. } | Command::TSContainerDestroy { name } => {
            one(alloc, Kind::Container, name.as_slice())
        }
        Command::TSCreate { key, .. }
        | Command::TSCreateIrr { key, .. }
        | Command::DropSeries { key }
        | Command::PutElem { key, .. }
        | Command::PutElemNoDups { key, .. }
        | Command::InsElem { key, .. }
        | Command::UpdElem { key, .. }
        | Command::DelElem { key, .. }
        | Command::DelClip { key, .. }
        | Command::HideElem { key, .. }
        | Command::RevealElem { key, .. }
        | Command::RollingCreate { set: key, .. }
        | Command::RollingPut { set: key, .. }
        | Command::RollingDrop { set: key } => one(alloc, Kind::Series, key.as_slice()),
        Command::ShowPattern { .. }
        | Command::ShowCalendar { .. }
        | Command::TSContainerUsage { .. }
        | Command::ListSeries { .. }
        | Command::CalIndex { .. }
        | Command::CalStamp { .. }
        | Command::CalRange { .. }
        | Command::GetElem { .. }
        | Command::GetLastElem { .. }
        | Command::GetNelems { .. }
        | Command::GetFirstElem { .. }
        | Command::GetNthElem { .. }
        | Command::Clip { .. }
        | Command::ClipCount { .. }
        | Command::ClipGetCount { .. }
        | Command::Union { .. }
        | Command::Intersect { .. }
        | Command::Lag { .. }
        | Command::AggregateBy { .. }
        | Command::AggregateRange { .. }
        | Command::AggregateAll { .. }
        | Command::TSRunningSum { .. }
        | Command::TSRunningAvg { .. }
        | Command::Apply { .. }
        | Command::RollingClip { .. }
        | Command::Begin
        | Command::Commit
        | Command::Rollback => Ok(ObjectList::new(alloc)),
    }
}

// The other objects among the arguments of a command.
fn named(alloc: Global, command: &Command) -> Result<ObjectList, AllocError>
    requires { HasForm command.now }
    ensures { IfOk result (λ l. l ≡ (objects command.now).named) }
{
    match command {
        Command::NotOp { pattern, .. } | Command::ShowPattern { name: pattern } => {
            one(alloc, Kind::Pattern, pattern.as_slice())
        }
        Command::AndPatterns { first, second, .. } | Command::OrPatterns { first, second, .. } => {
            two(
                alloc,
                Kind::Pattern,
                first.as_slice(),
                Kind::Pattern,
                second.as_slice(),
            )
        }
        Command::AndCalendars { first, second, .. } | Command::OrCalendars { first, second, .. } =>
            {
                two(
                    alloc,
                    Kind::Calendar,
                    first.as_slice(),
                    Kind::Calendar,
                    second.as_slice(),
                )
            }
        Command::CreateCalendar { text, .. } => pattern_named(alloc, text.as_slice()),
        Command::ShowCalendar { name: calendar }
        | Command::CalIndex { calendar, .. }
        | Command::CalStamp { calendar, .. }
        | Command::CalRange { calendar, .. } => one(alloc, Kind::Calendar, calendar.as_slice()),
        Command::TSContainerCreate { row_type, .. } => {
            one(alloc, Kind::RowType, row_type.as_slice())
        }
        Command::TSCreate {
            calendar,
            container,
            ..
        }
        | Command::RollingCreate {
            calendar,
            container,
            ..
        } => two(
            alloc,
            Kind::Calendar,
            calendar.as_slice(),
            Kind::Container,
            container.as_slice(),
        ),
        Command::TSCreateIrr { container, .. }
        | Command::TSContainerUsage { name: container }
        | Command::ListSeries { container }
        | Command::AggregateAll { container, .. } => {
            one(alloc, Kind::Container, container.as_slice())
        }
        Command::AggregateBy { calendar, key, .. } => {
            two(
                alloc,
                Kind::Calendar,
                calendar.as_slice(),
                Kind::Series,
                key.as_slice(),
            )
        }
        Command::Union { first, second, .. } | Command::Intersect { first, second, .. } => {
            two(
                alloc,
                Kind::Series,
                first.as_slice(),
                Kind::Series,
                second.as_slice(),
            )
        }
        Command::GetElem { key, .. }
        | Command::GetLastElem { key }
        | Command::GetNelems { key }
        | Command::GetFirstElem { key }
        | Command::GetNthElem { key, .. }
        | Command::Clip { key, .. }
        | Command::ClipCount { key, .. }
        | Command::ClipGetCount { key, .. }
        | Command::Lag { key, .. }
        | Command::AggregateRange { key, .. }
        | Command::TSRunningSum { key, .. }
        | Command::TSRunningAvg { key, .. }
        | Command::Apply { key, .. }
        | Command::RollingClip { set: key, .. } => one(alloc, Kind::Series, key.as_slice()),
        Command::CreateRowType { .. }
        | Command::DropRowType { .. }
        | Command::CreatePattern { .. }
        | Command::DropPattern { .. }
        | Command::DropCalendar { .. }
        | Command::TSContainerDestroy { .. }
        | Command::DropSeries { .. }
        | Command::PutElem { .. }
        | Command::PutElemNoDups { .. }
        | Command::InsElem { .. }
        | Command::UpdElem { .. }
        | Command::DelElem { .. }
        | Command::DelClip { .. }
        | Command::HideElem { .. }
        | Command::RevealElem { .. }
        | Command::RollingPut { .. }
        | Command::RollingDrop { .. }
        | Command::Begin
        | Command::Commit
        | Command::Rollback => Ok(ObjectList::new(alloc)),
    }
}

// The pattern that the text of a calendar names; none where it has a pattern of its own, or is no calendar's.
fn pattern_named(alloc: Global, text: &[u8]) -> Result<ObjectList, AllocError>
    requires { length text.now < 2 ^ 32 }
    ensures { IfOk result (λ l. l ≡ pattern_named (read_calendar text.now)) }
{
    match CalendarText::read(alloc, text) {
        Ok(read) => match &read.part {
            PatternPart::Named(name) => one(alloc, Kind::Pattern, name.as_slice()),
            PatternPart::Own(_) => Ok(ObjectList::new(alloc)),
        },
        Err(Trouble::Refused(_)) => Ok(ObjectList::new(alloc)),
        Err(Trouble::Memory(error)) => Err(error),
    }
}

// One object.
fn one(alloc: Global, kind: Kind, name: &[u8]) -> Result<ObjectList, AllocError>
    ensures { IfOk result (λ l. l ≡ one kind name.now) }
{
    let mut list = ObjectList::new(alloc);
    list.push(alloc, kind, name)?;
    Ok(list)
}

// Two objects.
fn two(
    alloc: Global,
    kind: Kind,
    name: &[u8],
    other_kind: Kind,
    other: &[u8],
) -> Result<ObjectList, AllocError>
    ensures { IfOk result (λ l. l ≡ two kind name.now other_kind other.now) }
{
    let mut list = one(alloc, kind, name)?;
    list.push(alloc, other_kind, other)?;
    Ok(list)
}
