// The routines that a statement may call, by their names.
ghost use Rattle.std.specs.Prelude.{◌≡◌, Ok, IfOk, IfErr};
ghost use Rattle.ts_text.specs.Misfit.{RefusesExactly};
ghost use Rattle.ts_command.specs.Routines.{least_number, most_number, routine_of};
ghost use Rattle.ts_command.specs.Grammar.{a_routine};

use ts_arguments::are_same;
use ts_text::{Misfit, TokenKind, skip_blanks};
use ts_tokens::front;

/// The routines, those together that are called with the same arguments.
#[derive(Clone, Copy)]
pub(crate) enum Routine {
    CreateRowType,
    TSContainerCreate,
    TSCreate,
    TSCreateIrr,
    NotOp,
    CalStamp,
    ClipCount,
    AggregateBy,
    AggregateAll,
    RollingCreate,
    RollingPut,
    RollingClip,
    RollingDrop,
    ByName(NameRoutine),
    ByKey(KeyRoutine),
    AtStamp(StampRoutine),
    WithRow(RowRoutine),
    WithText(TextRoutine),
    Joining(JoinRoutine),
    InRange(RangeRoutine),
    Clipping(ClipRoutine),
    ByNumber(NumberRoutine),
    OfPair(PairRoutine),
    OfSeries(SeriesRoutine),
    Running(RunningRoutine),
    Alone(LoneRoutine),
}

/// Those that are called with a name.
#[derive(Clone, Copy)]
pub(crate) enum NameRoutine {
    DropRowType,
    ShowPattern,
    DropPattern,
    ShowCalendar,
    DropCalendar,
    TSContainerDestroy,
    TSContainerUsage,
    ListSeries,
}

/// Those that are called with a key.
#[derive(Clone, Copy)]
pub(crate) enum KeyRoutine {
    DropSeries,
    GetFirstElem,
    GetLastElem,
    GetNelems,
}

/// Those that are called with a key and a stamp.
#[derive(Clone, Copy)]
pub(crate) enum StampRoutine {
    DelElem,
    HideElem,
    RevealElem,
    GetElem,
}

/// Those that are called with a key, a stamp and the values of a row.
#[derive(Clone, Copy)]
pub(crate) enum RowRoutine {
    PutElem,
    PutElemNoDups,
    InsElem,
    UpdElem,
}

/// Those that are called with a name and a text.
#[derive(Clone, Copy)]
pub(crate) enum TextRoutine {
    CreatePattern,
    CreateCalendar,
}

/// Those that are called with what they join and three names.
#[derive(Clone, Copy)]
pub(crate) enum JoinRoutine {
    AndOp,
    OrOp,
}

/// Those that are called with a name and two stamps.
#[derive(Clone, Copy)]
pub(crate) enum RangeRoutine {
    CalIndex,
    CalRange,
}

/// Those that are called with a key and two stamps.
#[derive(Clone, Copy)]
pub(crate) enum ClipRoutine {
    Clip,
    ClipGetCount,
    DelClip,
}

/// Those that are called with a key and a whole number.
#[derive(Clone, Copy)]
pub(crate) enum NumberRoutine {
    GetNthElem,
    Lag,
}

/// Those that are called with two keys and two stamps.
#[derive(Clone, Copy)]
pub(crate) enum PairRoutine {
    Union,
    Intersect,
}

/// Those that are called with a text, a key and two stamps.
#[derive(Clone, Copy)]
pub(crate) enum SeriesRoutine {
    AggregateRange,
    Apply,
}

/// Those that are called with a text, a key, a whole number and two stamps.
#[derive(Clone, Copy)]
pub(crate) enum RunningRoutine {
    TSRunningSum,
    TSRunningAvg,
}

/// Those that are called with nothing, not even brackets.
#[derive(Clone, Copy)]
pub(crate) enum LoneRoutine {
    Begin,
    Commit,
    Rollback,
}

const ROUTINES: [Routine; 53] = [
    Routine::WithRow(RowRoutine::PutElem),
    Routine::WithRow(RowRoutine::InsElem),
    Routine::WithRow(RowRoutine::UpdElem),
    Routine::WithRow(RowRoutine::PutElemNoDups),
    Routine::AtStamp(StampRoutine::GetElem),
    Routine::AtStamp(StampRoutine::DelElem),
    Routine::AtStamp(StampRoutine::HideElem),
    Routine::AtStamp(StampRoutine::RevealElem),
    Routine::Clipping(ClipRoutine::Clip),
    Routine::Clipping(ClipRoutine::ClipGetCount),
    Routine::Clipping(ClipRoutine::DelClip),
    Routine::ClipCount,
    Routine::ByNumber(NumberRoutine::GetNthElem),
    Routine::ByNumber(NumberRoutine::Lag),
    Routine::OfPair(PairRoutine::Union),
    Routine::OfPair(PairRoutine::Intersect),
    Routine::AggregateBy,
    Routine::OfSeries(SeriesRoutine::AggregateRange),
    Routine::AggregateAll,
    Routine::Running(RunningRoutine::TSRunningSum),
    Routine::Running(RunningRoutine::TSRunningAvg),
    Routine::OfSeries(SeriesRoutine::Apply),
    Routine::ByKey(KeyRoutine::GetFirstElem),
    Routine::ByKey(KeyRoutine::GetLastElem),
    Routine::ByKey(KeyRoutine::GetNelems),
    Routine::InRange(RangeRoutine::CalIndex),
    Routine::CalStamp,
    Routine::InRange(RangeRoutine::CalRange),
    Routine::ByKey(KeyRoutine::DropSeries),
    Routine::TSCreate,
    Routine::TSCreateIrr,
    Routine::CreateRowType,
    Routine::TSContainerCreate,
    Routine::ByName(NameRoutine::DropRowType),
    Routine::ByName(NameRoutine::TSContainerDestroy),
    Routine::ByName(NameRoutine::TSContainerUsage),
    Routine::ByName(NameRoutine::ListSeries),
    Routine::WithText(TextRoutine::CreatePattern),
    Routine::WithText(TextRoutine::CreateCalendar),
    Routine::NotOp,
    Routine::Joining(JoinRoutine::AndOp),
    Routine::Joining(JoinRoutine::OrOp),
    Routine::ByName(NameRoutine::ShowPattern),
    Routine::ByName(NameRoutine::DropPattern),
    Routine::ByName(NameRoutine::ShowCalendar),
    Routine::ByName(NameRoutine::DropCalendar),
    Routine::RollingPut,
    Routine::RollingClip,
    Routine::RollingCreate,
    Routine::RollingDrop,
    Routine::Alone(LoneRoutine::Begin),
    Routine::Alone(LoneRoutine::Commit),
    Routine::Alone(LoneRoutine::Rollback),
];

impl NumberRoutine {
    /// The least number that it is called with.
    pub(crate) fn least(self) -> i64
        ensures { result ≡ least_number self }
    {
        match self {
            NumberRoutine::GetNthElem => 0,
            NumberRoutine::Lag => -2147483647,
        }
    }

    /// The greatest number that it is called with.
    pub(crate) fn most(self) -> i64
        ensures { result ≡ most_number self }
    {
        match self {
            NumberRoutine::GetNthElem => 4294967295,
            NumberRoutine::Lag => 2147483647,
        }
    }
}

/// The routine of this name, if there is one.
#[tactic(auto, unfolding(crate::specs::Routines::routine_of))]
pub(crate) fn routine_of(word: &[u8]) -> Option<Routine>
    ensures { result ≡ routine_of word.now }
{
    ROUTINES
        .iter()
        .copied()
        .find(|routine| are_same(routine.spelling(), word))
}

/// The name of a routine.
#[tactic(auto, unfolding(crate::specs::Grammar::a_routine))]
pub(crate) fn read_routine(bytes: &[u8]) -> Result<(Routine, &[u8]), Misfit>
    ensures ok { IfOk result (λ found. a_routine bytes.now ≡ Ok (found.0, found.1.now)) }
    ensures cause { IfErr result (λ misfit. RefusesExactly misfit (a_routine bytes.now)) }
{
    let here = skip_blanks(bytes);
    if let Some((TokenKind::Word, length)) = front(here) {
        let (word, rest) = here.split_at(length);
        if let Some(routine) = routine_of(word) {
            return Ok((routine, rest));
        }
    }
    Err(Misfit::here(here))
}
