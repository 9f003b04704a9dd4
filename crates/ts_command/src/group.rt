// Routines that are called with the same arguments: these are read, to the end of the statement, and the routine
// chooses the command.
ghost use Rattle.std.specs.Prelude.{◌≡◌, [], Ok, IfOk, IfErr};
ghost use Rattle.ts_text.specs.Misfit.{Refuses};
ghost use Rattle.ts_command.specs.Grammar.{arguments_to_end, of_name, of_key, of_stamp, of_row, of_text, of_join};
ghost use Rattle.ts_command.specs.Grammar.{of_number, of_lone};
ghost use Rattle.ts_command.specs.declared.routine.Routine.{Routine};

use crate::Command;
use crate::routine::{
    JoinRoutine, KeyRoutine, LoneRoutine, NameRoutine, NumberRoutine, RowRoutine, StampRoutine,
    TextRoutine,
};
use std::alloc::Global;
use ts_arguments::{
    Joined, Literals, read_joined_names, read_key_and_stamp, read_key_and_whole, read_key_before,
    read_key_stamp_and_values, read_name_and_text, read_name_before,
};
use ts_base::{Bytes, Key, Name, Stamp};
use ts_text::{Misfit, read_end};

/// The name.
#[tactic(auto, unfolding(crate::specs::Grammar::arguments, crate::specs::Grammar::arguments_to_end))]
pub(crate) fn read_of_name(
    alloc: Global,
    routine: NameRoutine,
    bytes: &[u8],
) -> Result<Command, Misfit>
    ensures ok { IfOk result (λ command. arguments_to_end (Routine.ByName routine) bytes.now ≡ Ok (command, [])) }
    ensures cause { IfErr result (λ misfit. Refuses misfit (arguments_to_end (Routine.ByName routine) bytes.now)) }
{
    let (name, rest) = read_name_before(alloc, bytes, b')')?;
    read_end(rest, b";")?;
    Ok(of_name(routine, name))
}

/// The routine's command.
pub(crate) fn of_name(routine: NameRoutine, name: Name) -> Command
    ensures { result ≡ of_name routine name }
{
    match routine {
        NameRoutine::DropRowType => Command::DropRowType { name },
        NameRoutine::ShowPattern => Command::ShowPattern { name },
        NameRoutine::DropPattern => Command::DropPattern { name },
        NameRoutine::ShowCalendar => Command::ShowCalendar { name },
        NameRoutine::DropCalendar => Command::DropCalendar { name },
        NameRoutine::TSContainerDestroy => Command::TSContainerDestroy { name },
        NameRoutine::TSContainerUsage => Command::TSContainerUsage { name },
        NameRoutine::ListSeries => Command::ListSeries { container: name },
    }
}

/// The key.
#[tactic(auto, unfolding(crate::specs::Grammar::arguments, crate::specs::Grammar::arguments_to_end))]
pub(crate) fn read_of_key(
    alloc: Global,
    routine: KeyRoutine,
    bytes: &[u8],
) -> Result<Command, Misfit>
    ensures ok { IfOk result (λ command. arguments_to_end (Routine.ByKey routine) bytes.now ≡ Ok (command, [])) }
    ensures cause { IfErr result (λ misfit. Refuses misfit (arguments_to_end (Routine.ByKey routine) bytes.now)) }
{
    let (key, rest) = read_key_before(alloc, bytes, b')')?;
    read_end(rest, b";")?;
    Ok(of_key(routine, key))
}

/// The routine's command.
pub(crate) fn of_key(routine: KeyRoutine, key: Key) -> Command
    ensures { result ≡ of_key routine key }
{
    match routine {
        KeyRoutine::DropSeries => Command::DropSeries { key },
        KeyRoutine::GetFirstElem => Command::GetFirstElem { key },
        KeyRoutine::GetLastElem => Command::GetLastElem { key },
        KeyRoutine::GetNelems => Command::GetNelems { key },
    }
}

/// The key and the stamp.
#[tactic(auto, unfolding(crate::specs::Grammar::arguments, crate::specs::Grammar::arguments_to_end))]
pub(crate) fn read_of_stamp(
    alloc: Global,
    routine: StampRoutine,
    bytes: &[u8],
) -> Result<Command, Misfit>
    ensures ok { IfOk result (λ command. arguments_to_end (Routine.AtStamp routine) bytes.now ≡ Ok (command, [])) }
    ensures cause { IfErr result (λ misfit. Refuses misfit (arguments_to_end (Routine.AtStamp routine) bytes.now)) }
{
    match read_key_and_stamp(alloc, bytes) {
        Ok(((key, stamp), rest)) => {
            read_end(rest, b";")?;
            Ok(of_stamp(routine, key, stamp))
        }
        Err(misfit) => Err(misfit),
    }
}

/// The routine's command.
pub(crate) fn of_stamp(routine: StampRoutine, key: Key, stamp: Stamp) -> Command
    ensures { result ≡ of_stamp routine key stamp }
{
    match routine {
        StampRoutine::DelElem => Command::DelElem { key, stamp },
        StampRoutine::HideElem => Command::HideElem { key, stamp },
        StampRoutine::RevealElem => Command::RevealElem { key, stamp },
        StampRoutine::GetElem => Command::GetElem { key, stamp },
    }
}

/// The key, the stamp and the values.
#[tactic(auto, unfolding(crate::specs::Grammar::arguments, crate::specs::Grammar::arguments_to_end))]
pub(crate) fn read_of_row(
    alloc: Global,
    routine: RowRoutine,
    bytes: &[u8],
) -> Result<Command, Misfit>
    ensures ok { IfOk result (λ command. arguments_to_end (Routine.WithRow routine) bytes.now ≡ Ok (command, [])) }
    ensures cause { IfErr result (λ misfit. Refuses misfit (arguments_to_end (Routine.WithRow routine) bytes.now)) }
{
    match read_key_stamp_and_values(alloc, bytes) {
        Ok(((key, (stamp, values)), rest)) => {
            read_end(rest, b";")?;
            Ok(of_row(routine, key, stamp, values))
        }
        Err(misfit) => Err(misfit),
    }
}

/// The routine's command.
pub(crate) fn of_row(routine: RowRoutine, key: Key, stamp: Stamp, values: Literals) -> Command
    ensures { result ≡ of_row routine key stamp values }
{
    match routine {
        RowRoutine::PutElem => Command::PutElem { key, stamp, values },
        RowRoutine::PutElemNoDups => Command::PutElemNoDups { key, stamp, values },
        RowRoutine::InsElem => Command::InsElem { key, stamp, values },
        RowRoutine::UpdElem => Command::UpdElem { key, stamp, values },
    }
}

/// The name and the text.
#[tactic(auto, unfolding(crate::specs::Grammar::arguments, crate::specs::Grammar::arguments_to_end))]
pub(crate) fn read_of_text(
    alloc: Global,
    routine: TextRoutine,
    bytes: &[u8],
) -> Result<Command, Misfit>
    ensures ok { IfOk result (λ command. arguments_to_end (Routine.WithText routine) bytes.now ≡ Ok (command, [])) }
    ensures cause { IfErr result (λ misfit. Refuses misfit (arguments_to_end (Routine.WithText routine) bytes.now)) }
{
    let ((name, text), rest) = read_name_and_text(alloc, bytes)?;
    read_end(rest, b";")?;
    Ok(of_text(routine, name, text))
}

/// The routine's command.
pub(crate) fn of_text(routine: TextRoutine, name: Name, text: Bytes) -> Command
    ensures { result ≡ of_text routine name text }
{
    match routine {
        TextRoutine::CreatePattern => Command::CreatePattern { name, text },
        TextRoutine::CreateCalendar => Command::CreateCalendar { name, text },
    }
}

/// What is joined, and the names.
#[tactic(auto, unfolding(crate::specs::Grammar::arguments, crate::specs::Grammar::arguments_to_end))]
pub(crate) fn read_joining(
    alloc: Global,
    routine: JoinRoutine,
    bytes: &[u8],
) -> Result<Command, Misfit>
    ensures ok { IfOk result (λ command. arguments_to_end (Routine.Joining routine) bytes.now ≡ Ok (command, [])) }
    ensures cause { IfErr result (λ misfit. Refuses misfit (arguments_to_end (Routine.Joining routine) bytes.now)) }
{
    let ((joined, names), rest) = read_joined_names(alloc, bytes)?;
    read_end(rest, b";")?;
    Ok(of_join(routine, joined, names))
}

/// The routine's command.
pub(crate) fn of_join(routine: JoinRoutine, joined: Joined, names: (Name, (Name, Name))) -> Command
    ensures { result ≡ of_join routine joined names }
{
    let (name, (first, second)) = names;
    match (routine, joined) {
        (JoinRoutine::AndOp, Joined::Patterns) => Command::AndPatterns {
            name,
            first,
            second,
        },
        (JoinRoutine::AndOp, Joined::Calendars) => Command::AndCalendars {
            name,
            first,
            second,
        },
        (JoinRoutine::OrOp, Joined::Patterns) => Command::OrPatterns {
            name,
            first,
            second,
        },
        (JoinRoutine::OrOp, Joined::Calendars) => Command::OrCalendars {
            name,
            first,
            second,
        },
    }
}

/// The key and the number, in the routine's range.
#[tactic(auto, unfolding(crate::specs::Grammar::arguments, crate::specs::Grammar::arguments_to_end))]
pub(crate) fn read_of_number(
    alloc: Global,
    routine: NumberRoutine,
    bytes: &[u8],
) -> Result<Command, Misfit>
    ensures ok { IfOk result (λ command. arguments_to_end (Routine.ByNumber routine) bytes.now ≡ Ok (command, [])) }
    ensures cause { IfErr result (λ misfit. Refuses misfit (arguments_to_end (Routine.ByNumber routine) bytes.now)) }
{
    let ((key, number), rest) = read_key_and_whole(alloc, bytes, routine.least(), routine.most())?;
    read_end(rest, b";")?;
    Ok(of_number(routine, key, number))
}

/// The routine's command.
pub(crate) fn of_number(routine: NumberRoutine, key: Key, number: i64) -> Command
    ensures { result ≡ of_number routine key number }
{
    match routine {
        NumberRoutine::GetNthElem => Command::GetNthElem { key, index: number },
        NumberRoutine::Lag => Command::Lag { key, by: number },
    }
}

/// Nothing.
#[tactic(auto, unfolding(crate::specs::Grammar::arguments, crate::specs::Grammar::arguments_to_end))]
pub(crate) fn read_alone(routine: LoneRoutine, bytes: &[u8]) -> Result<Command, Misfit>
    ensures ok { IfOk result (λ command. arguments_to_end (Routine.Alone routine) bytes.now ≡ Ok (command, [])) }
    ensures cause { IfErr result (λ misfit. Refuses misfit (arguments_to_end (Routine.Alone routine) bytes.now)) }
{
    read_end(bytes, b";")?;
    Ok(of_lone(routine))
}

fn of_lone(routine: LoneRoutine) -> Command
    ensures { result ≡ of_lone routine }
{
    match routine {
        LoneRoutine::Begin => Command::Begin,
        LoneRoutine::Commit => Command::Commit,
        LoneRoutine::Rollback => Command::Rollback,
    }
}
