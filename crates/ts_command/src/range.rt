// Routines whose arguments end with a range: these are read, to the end of the statement, and the routine chooses the
// command.
ghost use Rattle.std.specs.Prelude.{◌≡◌, [], Ok, IfOk, IfErr};
ghost use Rattle.ts_text.specs.Misfit.{Refuses};
ghost use Rattle.ts_command.specs.Grammar.{arguments_to_end, of_range, of_clip, of_keys, of_series, of_running};
ghost use Rattle.ts_command.specs.declared.routine.Routine.{Routine};

use crate::Command;
use crate::routine::{ClipRoutine, PairRoutine, RangeRoutine, RunningRoutine, SeriesRoutine};
use std::alloc::{AllocError, Global};
use ts_arguments::{
    read_key_range, read_name_range, read_text_key_range, read_text_key_whole_range,
    read_text_name_key_range, read_text_name_range, read_two_keys_range,
};
use ts_base::{Bytes, Key, Name, Stamp};
use ts_text::{Misfit, read_end};

/// The name and the two stamps.
#[tactic(auto, unfolding(crate::specs::Grammar::arguments, crate::specs::Grammar::arguments_to_end))]
pub(crate) fn read_of_range(
    alloc: Global,
    routine: RangeRoutine,
    bytes: &[u8],
) -> Result<Command, Misfit>
    ensures ok { IfOk result (λ command. arguments_to_end (Routine.InRange routine) bytes.now ≡ Ok (command, [])) }
    ensures cause { IfErr result (λ misfit. Refuses misfit (arguments_to_end (Routine.InRange routine) bytes.now)) }
{
    match read_name_range(alloc, bytes) {
        Ok(((calendar, (from, to)), rest)) => {
            read_end(rest, b";")?;
            Ok(of_range(routine, calendar, from, to))
        }
        Err(misfit) => Err(misfit),
    }
}

fn of_range(routine: RangeRoutine, calendar: Name, from: Stamp, to: Stamp) -> Command
    ensures { result ≡ of_range routine calendar from to }
{
    match routine {
        RangeRoutine::CalIndex => Command::CalIndex { calendar, from, to },
        RangeRoutine::CalRange => Command::CalRange { calendar, from, to },
    }
}

/// The key and the two stamps.
#[tactic(auto, unfolding(crate::specs::Grammar::arguments, crate::specs::Grammar::arguments_to_end))]
pub(crate) fn read_of_clip(
    alloc: Global,
    routine: ClipRoutine,
    bytes: &[u8],
) -> Result<Command, Misfit>
    ensures ok { IfOk result (λ command. arguments_to_end (Routine.Clipping routine) bytes.now ≡ Ok (command, [])) }
    ensures cause { IfErr result (λ misfit. Refuses misfit (arguments_to_end (Routine.Clipping routine) bytes.now)) }
{
    match read_key_range(alloc, bytes) {
        Ok(((key, (from, to)), rest)) => {
            read_end(rest, b";")?;
            Ok(of_clip(routine, key, from, to))
        }
        Err(misfit) => Err(misfit),
    }
}

fn of_clip(routine: ClipRoutine, key: Key, from: Stamp, to: Stamp) -> Command
    ensures { result ≡ of_clip routine key from to }
{
    match routine {
        ClipRoutine::Clip => Command::Clip { key, from, to },
        ClipRoutine::ClipGetCount => Command::ClipGetCount { key, from, to },
        ClipRoutine::DelClip => Command::DelClip { key, from, to },
    }
}

/// The two keys and the two stamps.
#[tactic(auto, unfolding(crate::specs::Grammar::arguments, crate::specs::Grammar::arguments_to_end))]
pub(crate) fn read_of_pair(
    alloc: Global,
    routine: PairRoutine,
    bytes: &[u8],
) -> Result<Command, Misfit>
    ensures ok { IfOk result (λ command. arguments_to_end (Routine.OfPair routine) bytes.now ≡ Ok (command, [])) }
    ensures cause { IfErr result (λ misfit. Refuses misfit (arguments_to_end (Routine.OfPair routine) bytes.now)) }
{
    match read_two_keys_range(alloc, bytes) {
        Ok(((first, (second, (from, to))), rest)) => {
            read_end(rest, b";")?;
            Ok(of_keys(routine, first, second, from, to))
        }
        Err(misfit) => Err(misfit),
    }
}

fn of_keys(routine: PairRoutine, first: Key, second: Key, from: Stamp, to: Stamp) -> Command
    ensures { result ≡ of_keys routine first second from to }
{
    match routine {
        PairRoutine::Union => Command::Union {
            first,
            second,
            from,
            to,
        },
        PairRoutine::Intersect => Command::Intersect {
            first,
            second,
            from,
            to,
        },
    }
}

/// The text, the key and the two stamps.
#[tactic(auto, unfolding(crate::specs::Grammar::arguments, crate::specs::Grammar::arguments_to_end))]
pub(crate) fn read_of_series(
    alloc: Global,
    routine: SeriesRoutine,
    bytes: &[u8],
) -> Result<Command, Misfit>
    ensures ok { IfOk result (λ command. arguments_to_end (Routine.OfSeries routine) bytes.now ≡ Ok (command, [])) }
    ensures cause { IfErr result (λ misfit. Refuses misfit (arguments_to_end (Routine.OfSeries routine) bytes.now)) }
{
    match read_text_key_range(alloc, bytes) {
        Ok(((text, (key, (from, to))), rest)) => {
            read_end(rest, b";")?;
            Ok(of_series(routine, text, key, from, to))
        }
        Err(misfit) => Err(misfit),
    }
}

fn of_series(routine: SeriesRoutine, text: Bytes, key: Key, from: Stamp, to: Stamp) -> Command
    ensures { result ≡ of_series routine text key from to }
{
    match routine {
        SeriesRoutine::AggregateRange => Command::AggregateRange {
            text,
            key,
            from,
            to,
        },
        SeriesRoutine::Apply => Command::Apply {
            text,
            key,
            from,
            to,
        },
    }
}

/// The text, the key, the whole number and the two stamps.
#[tactic(auto, unfolding(crate::specs::Grammar::arguments, crate::specs::Grammar::arguments_to_end))]
pub(crate) fn read_of_running(
    alloc: Global,
    routine: RunningRoutine,
    bytes: &[u8],
) -> Result<Command, Misfit>
    ensures ok { IfOk result (λ command. arguments_to_end (Routine.Running routine) bytes.now ≡ Ok (command, [])) }
    ensures cause { IfErr result (λ misfit. Refuses misfit (arguments_to_end (Routine.Running routine) bytes.now)) }
{
    match read_text_key_whole_range(alloc, bytes, 1, 65536) {
        Ok(((text, (key, (span, (from, to)))), rest)) => {
            read_end(rest, b";")?;
            Ok(of_running(routine, text, key, span, (from, to)))
        }
        Err(misfit) => Err(misfit),
    }
}

fn of_running(
    routine: RunningRoutine,
    text: Bytes,
    key: Key,
    span: i64,
    range: (Stamp, Stamp),
) -> Command
    ensures { result ≡ of_running routine text key span range.0 range.1 }
{
    let (from, to) = range;
    match routine {
        RunningRoutine::TSRunningSum => Command::TSRunningSum {
            text,
            key,
            span,
            from,
            to,
        },
        RunningRoutine::TSRunningAvg => Command::TSRunningAvg {
            text,
            key,
            span,
            from,
            to,
        },
    }
}

/// Folds of what the on intervals of a calendar hold: the list, the calendar's name, the series' key, and the range.
#[tactic(auto, unfolding(crate::specs::Grammar::arguments, crate::specs::Grammar::arguments_to_end))]
pub(crate) fn read_aggregate_by(alloc: Global, bytes: &[u8]) -> Result<Command, Misfit>
    ensures ok { IfOk result (λ command. arguments_to_end Routine.AggregateBy bytes.now ≡ Ok (command, [])) }
    ensures cause { IfErr result (λ misfit. Refuses misfit (arguments_to_end Routine.AggregateBy bytes.now)) }
{
    match read_text_name_key_range(alloc, bytes) {
        Ok(((text, (calendar, (key, (from, to)))), rest)) => {
            read_end(rest, b";")?;
            Ok(Command::AggregateBy {
                text,
                calendar,
                key,
                from,
                to,
            })
        }
        Err(misfit) => Err(misfit),
    }
}

/// A fold of a range of each series of a container: the list, the container's name, and the range.
#[tactic(auto, unfolding(crate::specs::Grammar::arguments, crate::specs::Grammar::arguments_to_end))]
pub(crate) fn read_aggregate_all(alloc: Global, bytes: &[u8]) -> Result<Command, Misfit>
    ensures ok { IfOk result (λ command. arguments_to_end Routine.AggregateAll bytes.now ≡ Ok (command, [])) }
    ensures cause { IfErr result (λ misfit. Refuses misfit (arguments_to_end Routine.AggregateAll bytes.now)) }
{
    match read_text_name_range(alloc, bytes) {
        Ok(((text, (container, (from, to))), rest)) => {
            read_end(rest, b";")?;
            Ok(Command::AggregateAll {
                text,
                container,
                from,
                to,
            })
        }
        Err(misfit) => Err(misfit),
    }
}

/// A copy: the name and the two stamps.
pub(crate) fn copy_of_range(
    routine: RangeRoutine,
    calendar: &Name,
    from: Stamp,
    to: Stamp,
) -> Result<Command, AllocError>
    ensures { IfOk result (λ made. made ≡ of_range routine calendar.now from to) }
{
    Ok(of_range(routine, calendar.copy()?, from, to))
}

/// A copy: the key and the two stamps.
pub(crate) fn copy_of_clip(
    routine: ClipRoutine,
    key: &Key,
    from: Stamp,
    to: Stamp,
) -> Result<Command, AllocError>
    ensures { IfOk result (λ made. made ≡ of_clip routine key.now from to) }
{
    Ok(of_clip(routine, key.copy()?, from, to))
}

/// A copy: the two keys and the two stamps.
pub(crate) fn copy_of_pair(
    routine: PairRoutine,
    first: &Key,
    second: &Key,
    range: (Stamp, Stamp),
) -> Result<Command, AllocError>
    ensures { IfOk result (λ made. made ≡ of_keys routine first.now second.now range.0 range.1) }
{
    let (from, to) = range;
    Ok(of_keys(routine, first.copy()?, second.copy()?, from, to))
}

/// A copy: the text, the key and the two stamps.
pub(crate) fn copy_of_series(
    routine: SeriesRoutine,
    text: &Bytes,
    key: &Key,
    range: (Stamp, Stamp),
) -> Result<Command, AllocError>
    ensures { IfOk result (λ made. made ≡ of_series routine text.now key.now range.0 range.1) }
{
    let (from, to) = range;
    Ok(of_series(routine, text.copy()?, key.copy()?, from, to))
}

/// A copy: the text, the key, the whole number and the two stamps.
pub(crate) fn copy_of_running(
    routine: RunningRoutine,
    text: &Bytes,
    key: &Key,
    span: i64,
    range: (Stamp, Stamp),
) -> Result<Command, AllocError>
    ensures { IfOk result (λ made. made ≡ of_running routine text.now key.now span range.0 range.1) }
{
    Ok(of_running(routine, text.copy()?, key.copy()?, span, range))
}

/// A copy: the list, the calendar's name, the series' key, and the range.
pub(crate) fn copy_aggregate_by(
    text: &Bytes,
    calendar: &Name,
    key: &Key,
    range: (Stamp, Stamp),
) -> Result<Command, AllocError>
    ensures { IfOk result (λ made. made ≡ Command.AggregateBy text.now calendar.now key.now range.0 range.1) }
{
    Ok(Command::AggregateBy {
        text: text.copy()?,
        calendar: calendar.copy()?,
        key: key.copy()?,
        from: range.0,
        to: range.1,
    })
}

/// A copy: the list, the container's name, and the range.
pub(crate) fn copy_aggregate_all(
    text: &Bytes,
    container: &Name,
    range: (Stamp, Stamp),
) -> Result<Command, AllocError>
    ensures { IfOk result (λ made. made ≡ Command.AggregateAll text.now container.now range.0 range.1) }
{
    Ok(Command::AggregateAll {
        text: text.copy()?,
        container: container.copy()?,
        from: range.0,
        to: range.1,
    })
}
