// Copies of commands, by what they are called with.
ghost use Rattle.std.specs.Prelude.{◌≡◌, IfOk};
ghost use Rattle.ts_command.specs.Grammar.{of_name, of_key, of_stamp, of_row, of_text, of_join, of_number};

use crate::command::Command;
use crate::group::{of_join, of_key, of_name, of_number, of_row, of_stamp, of_text};
use crate::range::{
    copy_aggregate_all, copy_aggregate_by, copy_of_clip, copy_of_pair, copy_of_range,
    copy_of_running, copy_of_series,
};
use crate::rolling::{copy_rolling_clip, copy_rolling_create, copy_rolling_drop, copy_rolling_put};
use crate::routine::{
    ClipRoutine, JoinRoutine, KeyRoutine, NameRoutine, NumberRoutine, PairRoutine, RangeRoutine,
    RowRoutine, RunningRoutine, SeriesRoutine, StampRoutine, TextRoutine,
};
use std::alloc::AllocError;
use ts_arguments::{Columns, Joined, Literals};
use ts_base::{Bytes, Key, Name, Stamp};

impl Command {
    pub fn copy(&self) -> Result<Self, AllocError>
        ensures { IfOk result (λ made. made ≡ self.now) }
    {
        match self {
            Command::CreateRowType {
                name,
                stamp,
                columns,
            } => copy_row_type(name, stamp, columns),
            Command::DropRowType { name } => copy_of_name(NameRoutine::DropRowType, name),
            Command::CreatePattern { name, text } => copy_of_text(
                TextRoutine::CreatePattern,
                name,
                text,
            ),
            Command::NotOp { name, pattern } => copy_opposite(name, pattern),
            Command::AndPatterns {
                name,
                first,
                second,
            } => copy_join(JoinRoutine::AndOp, Joined::Patterns, name, first, second),
            Command::OrPatterns {
                name,
                first,
                second,
            } => copy_join(JoinRoutine::OrOp, Joined::Patterns, name, first, second),
            Command::AndCalendars {
                name,
                first,
                second,
            } => copy_join(JoinRoutine::AndOp, Joined::Calendars, name, first, second),
            Command::OrCalendars {
                name,
                first,
                second,
            } => copy_join(JoinRoutine::OrOp, Joined::Calendars, name, first, second),
            Command::ShowPattern { name } => copy_of_name(NameRoutine::ShowPattern, name),
            Command::DropPattern { name } => copy_of_name(NameRoutine::DropPattern, name),
            Command::CreateCalendar { name, text } => copy_of_text(
                TextRoutine::CreateCalendar,
                name,
                text,
            ),
            Command::ShowCalendar { name } => copy_of_name(NameRoutine::ShowCalendar, name),
            Command::DropCalendar { name } => copy_of_name(NameRoutine::DropCalendar, name),
            Command::TSContainerCreate {
                name,
                row_type,
                quota,
            } => copy_container(name, row_type, *quota),
            Command::TSContainerDestroy { name } => copy_of_name(
                NameRoutine::TSContainerDestroy,
                name,
            ),
            Command::TSContainerUsage { name } => copy_of_name(NameRoutine::TSContainerUsage, name),
            Command::TSCreate {
                key,
                calendar,
                origin,
                container,
            } => copy_regular(key, calendar, *origin, container),
            Command::TSCreateIrr { key, container } => copy_irregular(key, container),
            Command::DropSeries { key } => copy_of_key(KeyRoutine::DropSeries, key),
            Command::ListSeries { container } => copy_of_name(NameRoutine::ListSeries, container),
            Command::PutElem { key, stamp, values } => copy_of_row(
                RowRoutine::PutElem,
                key,
                *stamp,
                values,
            ),
            Command::PutElemNoDups { key, stamp, values } => copy_of_row(
                RowRoutine::PutElemNoDups,
                key,
                *stamp,
                values,
            ),
            Command::InsElem { key, stamp, values } => copy_of_row(
                RowRoutine::InsElem,
                key,
                *stamp,
                values,
            ),
            Command::UpdElem { key, stamp, values } => copy_of_row(
                RowRoutine::UpdElem,
                key,
                *stamp,
                values,
            ),
            Command::DelElem { key, stamp } => copy_of_stamp(StampRoutine::DelElem, key, *stamp),
            Command::DelClip { key, from, to } => copy_of_clip(
                ClipRoutine::DelClip,
                key,
                *from,
                *to,
            ),
            Command::CalIndex { calendar, from, to } => copy_of_range(
                RangeRoutine::CalIndex,
                calendar,
                *from,
                *to,
            ),
            Command::CalStamp {
                calendar,
                after,
                count,
            } => copy_calendar_stamp(calendar, *after, *count),
            Command::CalRange { calendar, from, to } => copy_of_range(
                RangeRoutine::CalRange,
                calendar,
                *from,
                *to,
            ),
            Command::HideElem { key, stamp } => copy_of_stamp(StampRoutine::HideElem, key, *stamp),
            Command::RevealElem { key, stamp } => copy_of_stamp(
                StampRoutine::RevealElem,
                key,
                *stamp,
            ),
            Command::GetElem { key, stamp } => copy_of_stamp(StampRoutine::GetElem, key, *stamp),
            Command::GetLastElem { key } => copy_of_key(KeyRoutine::GetLastElem, key),
            Command::GetNelems { key } => copy_of_key(KeyRoutine::GetNelems, key),
            Command::GetFirstElem { key } => copy_of_key(KeyRoutine::GetFirstElem, key),
            Command::GetNthElem { key, index } => copy_of_number(
                NumberRoutine::GetNthElem,
                key,
                *index,
            ),
            Command::Clip { key, from, to } => copy_of_clip(ClipRoutine::Clip, key, *from, *to),
            Command::ClipCount { key, stamp, count } => copy_clip_count(key, *stamp, *count),
            Command::ClipGetCount { key, from, to } => copy_of_clip(
                ClipRoutine::ClipGetCount,
                key,
                *from,
                *to,
            ),
            Command::Union {
                first,
                second,
                from,
                to,
            } => copy_of_pair(PairRoutine::Union, first, second, (*from, *to)),
            Command::Intersect {
                first,
                second,
                from,
                to,
            } => copy_of_pair(PairRoutine::Intersect, first, second, (*from, *to)),
            Command::Lag { key, by } => copy_of_number(NumberRoutine::Lag, key, *by),
            Command::AggregateBy {
                text,
                calendar,
                key,
                from,
                to,
            } => copy_aggregate_by(text, calendar, key, (*from, *to)),
            Command::AggregateRange {
                text,
                key,
                from,
                to,
            } => copy_of_series(SeriesRoutine::AggregateRange, text, key, (*from, *to)),
            Command::AggregateAll {
                text,
                container,
                from,
                to,
            } => copy_aggregate_all(text, container, (*from, *to)),
            Command::TSRunningSum {
                text,
                key,
                span,
                from,
                to,
            } => copy_of_running(RunningRoutine::TSRunningSum, text, key, *span, (*from, *to)),
            Command::TSRunningAvg {
                text,
                key,
                span,
                from,
                to,
            } => copy_of_running(RunningRoutine::TSRunningAvg, text, key, *span, (*from, *to)),
            Command::Apply {
                text,
                key,
                from,
                to,
            } => copy_of_series(SeriesRoutine::Apply, text, key, (*from, *to)),
            Command::RollingCreate {
                set,
                calendar,
                origin,
                container,
                kept,
            } => copy_rolling_create(set, calendar, *origin, container, *kept),
            Command::RollingPut { set, stamp, values } => copy_rolling_put(set, *stamp, values),
            Command::RollingClip { set, from, to } => copy_rolling_clip(set, *from, *to),
            Command::RollingDrop { set } => copy_rolling_drop(set),
            Command::Begin => Ok(Command::Begin),
            Command::Commit => Ok(Command::Commit),
            Command::Rollback => Ok(Command::Rollback),
        }
    }
}

fn copy_of_name(routine: NameRoutine, name: &Name) -> Result<Command, AllocError>
    ensures { IfOk result (λ made. made ≡ of_name routine name.now) }
{
    Ok(of_name(routine, name.copy()?))
}

fn copy_of_key(routine: KeyRoutine, key: &Key) -> Result<Command, AllocError>
    ensures { IfOk result (λ made. made ≡ of_key routine key.now) }
{
    Ok(of_key(routine, key.copy()?))
}

fn copy_of_stamp(routine: StampRoutine, key: &Key, stamp: Stamp) -> Result<Command, AllocError>
    ensures { IfOk result (λ made. made ≡ of_stamp routine key.now stamp) }
{
    Ok(of_stamp(routine, key.copy()?, stamp))
}

fn copy_of_row(
    routine: RowRoutine,
    key: &Key,
    stamp: Stamp,
    values: &Literals,
) -> Result<Command, AllocError>
    ensures { IfOk result (λ made. made ≡ of_row routine key.now stamp values.now) }
{
    Ok(of_row(routine, key.copy()?, stamp, values.copy()?))
}

fn copy_of_text(routine: TextRoutine, name: &Name, text: &Bytes) -> Result<Command, AllocError>
    ensures { IfOk result (λ made. made ≡ of_text routine name.now text.now) }
{
    Ok(of_text(routine, name.copy()?, text.copy()?))
}

fn copy_join(
    routine: JoinRoutine,
    joined: Joined,
    name: &Name,
    first: &Name,
    second: &Name,
) -> Result<Command, AllocError>
    ensures { IfOk result (λ made. made ≡ of_join routine joined (name.now, (first.now, second.now))) }
{
    let names = (name.copy()?, (first.copy()?, second.copy()?));
    Ok(of_join(routine, joined, names))
}

fn copy_of_number(routine: NumberRoutine, key: &Key, number: i64) -> Result<Command, AllocError>
    ensures { IfOk result (λ made. made ≡ of_number routine key.now number) }
{
    Ok(of_number(routine, key.copy()?, number))
}

fn copy_row_type(name: &Name, stamp: &Name, columns: &Columns) -> Result<Command, AllocError>
    ensures { IfOk result (λ made. made ≡ Command.CreateRowType name.now stamp.now columns.now) }
{
    Ok(Command::CreateRowType {
        name: name.copy()?,
        stamp: stamp.copy()?,
        columns: columns.copy()?,
    })
}

fn copy_opposite(name: &Name, pattern: &Name) -> Result<Command, AllocError>
    ensures { IfOk result (λ made. made ≡ Command.NotOp name.now pattern.now) }
{
    Ok(Command::NotOp {
        name: name.copy()?,
        pattern: pattern.copy()?,
    })
}

fn copy_container(name: &Name, row_type: &Name, quota: i64) -> Result<Command, AllocError>
    ensures { IfOk result (λ made. made ≡ Command.TSContainerCreate name.now row_type.now quota) }
{
    Ok(Command::TSContainerCreate {
        name: name.copy()?,
        row_type: row_type.copy()?,
        quota,
    })
}

fn copy_regular(
    key: &Key,
    calendar: &Name,
    origin: Stamp,
    container: &Name,
) -> Result<Command, AllocError>
    ensures { IfOk result (λ made. made ≡ Command.TSCreate key.now calendar.now origin container.now) }
{
    Ok(Command::TSCreate {
        key: key.copy()?,
        calendar: calendar.copy()?,
        origin,
        container: container.copy()?,
    })
}

fn copy_irregular(key: &Key, container: &Name) -> Result<Command, AllocError>
    ensures { IfOk result (λ made. made ≡ Command.TSCreateIrr key.now container.now) }
{
    Ok(Command::TSCreateIrr {
        key: key.copy()?,
        container: container.copy()?,
    })
}

fn copy_calendar_stamp(calendar: &Name, after: Stamp, count: i64) -> Result<Command, AllocError>
    ensures { IfOk result (λ made. made ≡ Command.CalStamp calendar.now after count) }
{
    Ok(Command::CalStamp {
        calendar: calendar.copy()?,
        after,
        count,
    })
}

fn copy_clip_count(key: &Key, stamp: Stamp, count: i64) -> Result<Command, AllocError>
    ensures { IfOk result (λ made. made ≡ Command.ClipCount key.now stamp count) }
{
    Ok(Command::ClipCount {
        key: key.copy()?,
        stamp,
        count,
    })
}
