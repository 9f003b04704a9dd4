// Statements, each read as the command that it is.
ghost use Rattle.std.specs.Prelude.{◌≡◌, ◌^◌, ◌<◌, [], ◌∷◌, Ok, IfOk, IfErr, length};
ghost use Rattle.ts_command.specs.Form.{HasForm};
ghost use Rattle.ts_text.specs.Misfit.{Refuses, RefusesExactly};
ghost use Rattle.ts_command.specs.Grammar.{a_command, opening, arguments_to_end, command_of};
ghost use Rattle.ts_command.specs.Misfit.{IsCause};

use crate::Command;
use crate::group::{
    read_alone, read_joining, read_of_key, read_of_name, read_of_number, read_of_row,
    read_of_stamp, read_of_text,
};
use crate::range::{
    read_aggregate_all, read_aggregate_by, read_of_clip, read_of_pair, read_of_range,
    read_of_running, read_of_series,
};
use crate::rolling::{read_rolling_clip, read_rolling_create, read_rolling_drop, read_rolling_put};
use crate::routine::{Routine, read_routine};
use std::alloc::Global;
use ts_arguments::{
    read_key_and_name, read_key_name_stamp_and_name, read_key_stamp_and_whole,
    read_name_and_columns, read_name_stamp_and_whole, read_two_names, read_two_names_and_whole,
};
use ts_base::{Refusal, Trouble};
use ts_text::{Misfit, read_end, read_sign};

// What a routine is called with, to the end of the statement, as its command.
fn read_arguments(alloc: Global, routine: Routine, bytes: &[u8]) -> Result<Command, Misfit>
    ensures ok { IfOk result (λ command. arguments_to_end routine bytes.now ≡ Ok (command, [])) }
    ensures cause { IfErr result (λ misfit. Refuses misfit (arguments_to_end routine bytes.now)) }
{
    match routine {
        Routine::CreateRowType => read_create_row_type(alloc, bytes),
        Routine::TSContainerCreate => read_create_container(alloc, bytes),
        Routine::TSCreate => read_create_regular(alloc, bytes),
        Routine::TSCreateIrr => read_create_irregular(alloc, bytes),
        Routine::NotOp => read_opposite(alloc, bytes),
        Routine::CalStamp => read_calendar_stamp(alloc, bytes),
        Routine::ClipCount => read_clip_count(alloc, bytes),
        Routine::AggregateBy => read_aggregate_by(alloc, bytes),
        Routine::AggregateAll => read_aggregate_all(alloc, bytes),
        Routine::RollingCreate => read_rolling_create(alloc, bytes),
        Routine::RollingPut => read_rolling_put(alloc, bytes),
        Routine::RollingClip => read_rolling_clip(alloc, bytes),
        Routine::RollingDrop => read_rolling_drop(alloc, bytes),
        Routine::ByName(routine) => read_of_name(alloc, routine, bytes),
        Routine::ByKey(routine) => read_of_key(alloc, routine, bytes),
        Routine::AtStamp(routine) => read_of_stamp(alloc, routine, bytes),
        Routine::WithRow(routine) => read_of_row(alloc, routine, bytes),
        Routine::WithText(routine) => read_of_text(alloc, routine, bytes),
        Routine::Joining(routine) => read_joining(alloc, routine, bytes),
        Routine::InRange(routine) => read_of_range(alloc, routine, bytes),
        Routine::Clipping(routine) => read_of_clip(alloc, routine, bytes),
        Routine::ByNumber(routine) => read_of_number(alloc, routine, bytes),
        Routine::OfPair(routine) => read_of_pair(alloc, routine, bytes),
        Routine::OfSeries(routine) => read_of_series(alloc, routine, bytes),
        Routine::Running(routine) => read_of_running(alloc, routine, bytes),
        Routine::Alone(routine) => read_alone(routine, bytes),
    }
}

// A row type: its name, the stamp's column and the value columns.
#[tactic(auto, unfolding(crate::specs::Grammar::arguments, crate::specs::Grammar::arguments_to_end))]
fn read_create_row_type(alloc: Global, bytes: &[u8]) -> Result<Command, Misfit>
    ensures ok { IfOk result (λ command. arguments_to_end Routine.CreateRowType bytes.now ≡ Ok (command, [])) }
    ensures cause { IfErr result (λ misfit. Refuses misfit (arguments_to_end Routine.CreateRowType bytes.now)) }
{
    let ((name, (stamp, columns)), rest) = read_name_and_columns(alloc, bytes)?;
    read_end(rest, b";")?;
    Ok(Command::CreateRowType {
        name,
        stamp,
        columns,
    })
}

// A container: its name, that of its row type, and its quota.
#[tactic(auto, unfolding(crate::specs::Grammar::arguments, crate::specs::Grammar::arguments_to_end))]
fn read_create_container(alloc: Global, bytes: &[u8]) -> Result<Command, Misfit>
    ensures ok { IfOk result (λ command. arguments_to_end Routine.TSContainerCreate bytes.now ≡ Ok (command, [])) }
    ensures cause { IfErr result (λ misfit. Refuses misfit (arguments_to_end Routine.TSContainerCreate bytes.now)) }
{
    let ((name, (row_type, quota)), rest) = read_two_names_and_whole(alloc, bytes, 1, 65536)?;
    read_end(rest, b";")?;
    Ok(Command::TSContainerCreate {
        name,
        row_type,
        quota,
    })
}

// A regular series: its key, the name of its calendar, its origin, and the name of its container.
#[tactic(auto, unfolding(crate::specs::Grammar::arguments, crate::specs::Grammar::arguments_to_end))]
fn read_create_regular(alloc: Global, bytes: &[u8]) -> Result<Command, Misfit>
    ensures ok { IfOk result (λ command. arguments_to_end Routine.TSCreate bytes.now ≡ Ok (command, [])) }
    ensures cause { IfErr result (λ misfit. Refuses misfit (arguments_to_end Routine.TSCreate bytes.now)) }
{
    match read_key_name_stamp_and_name(alloc, bytes) {
        Ok(((key, (calendar, (origin, container))), rest)) => {
            read_end(rest, b";")?;
            Ok(Command::TSCreate {
                key,
                calendar,
                origin,
                container,
            })
        }
        Err(misfit) => Err(misfit),
    }
}

// An irregular series: its key, and the name of its container.
#[tactic(auto, unfolding(crate::specs::Grammar::arguments, crate::specs::Grammar::arguments_to_end))]
fn read_create_irregular(alloc: Global, bytes: &[u8]) -> Result<Command, Misfit>
    ensures ok { IfOk result (λ command. arguments_to_end Routine.TSCreateIrr bytes.now ≡ Ok (command, [])) }
    ensures cause { IfErr result (λ misfit. Refuses misfit (arguments_to_end Routine.TSCreateIrr bytes.now)) }
{
    let ((key, container), rest) = read_key_and_name(alloc, bytes)?;
    read_end(rest, b";")?;
    Ok(Command::TSCreateIrr { key, container })
}

// A pattern that is off where another is on: its name, and that of the other.
#[tactic(auto, unfolding(crate::specs::Grammar::arguments, crate::specs::Grammar::arguments_to_end))]
fn read_opposite(alloc: Global, bytes: &[u8]) -> Result<Command, Misfit>
    ensures ok { IfOk result (λ command. arguments_to_end Routine.NotOp bytes.now ≡ Ok (command, [])) }
    ensures cause { IfErr result (λ misfit. Refuses misfit (arguments_to_end Routine.NotOp bytes.now)) }
{
    let ((name, pattern), rest) = read_two_names(alloc, bytes)?;
    read_end(rest, b";")?;
    Ok(Command::NotOp { name, pattern })
}

// A stamp of a calendar: the calendar's name, the stamp before, and how many stamps later.
#[tactic(auto, unfolding(crate::specs::Grammar::arguments, crate::specs::Grammar::arguments_to_end))]
fn read_calendar_stamp(alloc: Global, bytes: &[u8]) -> Result<Command, Misfit>
    ensures ok { IfOk result (λ command. arguments_to_end Routine.CalStamp bytes.now ≡ Ok (command, [])) }
    ensures cause { IfErr result (λ misfit. Refuses misfit (arguments_to_end Routine.CalStamp bytes.now)) }
{
    match read_name_stamp_and_whole(alloc, bytes, 1, 4294967295) {
        Ok(((calendar, (after, count)), rest)) => {
            read_end(rest, b";")?;
            Ok(Command::CalStamp {
                calendar,
                after,
                count,
            })
        }
        Err(misfit) => Err(misfit),
    }
}

// So many entries of a series at a stamp: its key, the stamp, and how many, where negative up to the stamp.
#[tactic(auto, unfolding(crate::specs::Grammar::arguments, crate::specs::Grammar::arguments_to_end))]
fn read_clip_count(alloc: Global, bytes: &[u8]) -> Result<Command, Misfit>
    ensures ok { IfOk result (λ command. arguments_to_end Routine.ClipCount bytes.now ≡ Ok (command, [])) }
    ensures cause { IfErr result (λ misfit. Refuses misfit (arguments_to_end Routine.ClipCount bytes.now)) }
{
    match read_key_stamp_and_whole(alloc, bytes, -1000000, 1000000) {
        Ok(((key, (stamp, count)), rest)) => {
            read_end(rest, b";")?;
            Ok(Command::ClipCount { key, stamp, count })
        }
        Err(misfit) => Err(misfit),
    }
}

// What stands behind the bracket that opens the arguments; a routine that stands alone has none.
#[tactic(auto, unfolding(crate::specs::Grammar::opening))]
fn read_opening(routine: Routine, bytes: &[u8]) -> Result<&[u8], Misfit>
    ensures ok { IfOk result (λ rest. opening routine bytes.now ≡ Ok (tt, rest.now)) }
    ensures cause { IfErr result (λ misfit. RefusesExactly misfit (opening routine bytes.now)) }
{
    match routine {
        Routine::Alone(_) => Ok(bytes),
        _ => read_sign(bytes, b'('),
    }
}

// A whole statement.
#[tactic(auto, unfolding(crate::specs::Grammar::a_command, crate::specs::Grammar::a_call, crate::specs::Grammar::arguments_to_end))]
fn read_statement(alloc: Global, text: &[u8]) -> Result<Command, Misfit>
    ensures ok { IfOk result (λ command. a_command text.now ≡ Ok (command, [])) }
    ensures cause { IfErr result (λ misfit. Refuses misfit (a_command text.now)) }
{
    let (routine, rest) = read_routine(text)?;
    read_arguments(alloc, routine, read_opening(routine, rest)?)
}

/// The command that a statement is, or the place in it that is refused.
pub fn read_command(alloc: Global, text: &[u8]) -> Result<Command, Trouble>
    requires { length text.now < 2 ^ 32 }
    ensures ok { IfOk result (λ command. command_of text.now ≡ Ok command) }
    ensures form { IfOk result HasForm }
    ensures cause { IfErr result (λ trouble. IsCause trouble (command_of text.now)) }
{
    match read_statement(alloc, text) {
        Ok(command) => Ok(command),
        Err(Misfit::At { left }) => Err(Trouble::Refused(Refusal::Syntax {
            place: (text.len() - left) as u32,
        })),
        Err(Misfit::Memory(error)) => Err(Trouble::Memory(error)),
    }
}
