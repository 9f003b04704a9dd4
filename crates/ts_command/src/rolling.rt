// The routines of rolling sets: what each is called with, read to the end of the statement, and its copy.
ghost use Rattle.std.specs.Prelude.{◌≡◌, [], Ok, IfOk, IfErr};
ghost use Rattle.ts_text.specs.Misfit.{Refuses};
ghost use Rattle.ts_command.specs.Grammar.{arguments_to_end};
ghost use Rattle.ts_command.specs.declared.routine.Routine.{Routine};

use crate::Command;
use std::alloc::{AllocError, Global};
use ts_arguments::{
    Literals, read_set_before, read_set_name_stamp_name_and_whole, read_set_range,
    read_set_stamp_and_values,
};
use ts_base::{Key, Name, Stamp};
use ts_text::{Misfit, read_end};

/// The set that is made: its key, the name of its calendar, its origin, the name of its container, and how many windows
/// are kept.
#[tactic(auto, unfolding(crate::specs::Grammar::arguments, crate::specs::Grammar::arguments_to_end))]
pub(crate) fn read_rolling_create(alloc: Global, bytes: &[u8]) -> Result<Command, Misfit>
    ensures ok { IfOk result (λ command. arguments_to_end Routine.RollingCreate bytes.now ≡ Ok (command, [])) }
    ensures cause { IfErr result (λ misfit. Refuses misfit (arguments_to_end Routine.RollingCreate bytes.now)) }
{
    match read_set_name_stamp_name_and_whole(alloc, bytes, 1, 1000) {
        Ok(((set, (calendar, (origin, (container, kept)))), rest)) => {
            read_end(rest, b";")?;
            Ok(Command::RollingCreate {
                set,
                calendar,
                origin,
                container,
                kept,
            })
        }
        Err(misfit) => Err(misfit),
    }
}

/// The set, the stamp and the values.
#[tactic(auto, unfolding(crate::specs::Grammar::arguments, crate::specs::Grammar::arguments_to_end))]
pub(crate) fn read_rolling_put(alloc: Global, bytes: &[u8]) -> Result<Command, Misfit>
    ensures ok { IfOk result (λ command. arguments_to_end Routine.RollingPut bytes.now ≡ Ok (command, [])) }
    ensures cause { IfErr result (λ misfit. Refuses misfit (arguments_to_end Routine.RollingPut bytes.now)) }
{
    match read_set_stamp_and_values(alloc, bytes) {
        Ok(((set, (stamp, values)), rest)) => {
            read_end(rest, b";")?;
            Ok(Command::RollingPut { set, stamp, values })
        }
        Err(misfit) => Err(misfit),
    }
}

/// The set and the two stamps.
#[tactic(auto, unfolding(crate::specs::Grammar::arguments, crate::specs::Grammar::arguments_to_end))]
pub(crate) fn read_rolling_clip(alloc: Global, bytes: &[u8]) -> Result<Command, Misfit>
    ensures ok { IfOk result (λ command. arguments_to_end Routine.RollingClip bytes.now ≡ Ok (command, [])) }
    ensures cause { IfErr result (λ misfit. Refuses misfit (arguments_to_end Routine.RollingClip bytes.now)) }
{
    match read_set_range(alloc, bytes) {
        Ok(((set, (from, to)), rest)) => {
            read_end(rest, b";")?;
            Ok(Command::RollingClip { set, from, to })
        }
        Err(misfit) => Err(misfit),
    }
}

/// The set.
#[tactic(auto, unfolding(crate::specs::Grammar::arguments, crate::specs::Grammar::arguments_to_end))]
pub(crate) fn read_rolling_drop(alloc: Global, bytes: &[u8]) -> Result<Command, Misfit>
    ensures ok { IfOk result (λ command. arguments_to_end Routine.RollingDrop bytes.now ≡ Ok (command, [])) }
    ensures cause { IfErr result (λ misfit. Refuses misfit (arguments_to_end Routine.RollingDrop bytes.now)) }
{
    let (set, rest) = read_set_before(alloc, bytes, b')')?;
    read_end(rest, b";")?;
    Ok(Command::RollingDrop { set })
}

pub(crate) fn copy_rolling_create(
    set: &Key,
    calendar: &Name,
    origin: Stamp,
    container: &Name,
    kept: i64,
) -> Result<Command, AllocError>
    ensures { IfOk result (λ made. made ≡ Command.RollingCreate set.now calendar.now origin container.now kept) }
{
    Ok(Command::RollingCreate {
        set: set.copy()?,
        calendar: calendar.copy()?,
        origin,
        container: container.copy()?,
        kept,
    })
}

pub(crate) fn copy_rolling_put(
    set: &Key,
    stamp: Stamp,
    values: &Literals,
) -> Result<Command, AllocError>
    ensures { IfOk result (λ made. made ≡ Command.RollingPut set.now stamp values.now) }
{
    Ok(Command::RollingPut {
        set: set.copy()?,
        stamp,
        values: values.copy()?,
    })
}

pub(crate) fn copy_rolling_clip(set: &Key, from: Stamp, to: Stamp) -> Result<Command, AllocError>
    ensures { IfOk result (λ made. made ≡ Command.RollingClip set.now from to) }
{
    Ok(Command::RollingClip {
        set: set.copy()?,
        from,
        to,
    })
}

pub(crate) fn copy_rolling_drop(set: &Key) -> Result<Command, AllocError>
    ensures { IfOk result (λ made. made ≡ Command.RollingDrop set.now) }
{
    Ok(Command::RollingDrop { set: set.copy()? })
}
