// The names of the routines.
ghost use Rattle.std.specs.Prelude.{◌≡◌};
ghost use Rattle.ts_command.specs.Routines.{spelling, name_spelling, key_spelling, stamp_spelling, row_spelling};
ghost use Rattle.ts_command.specs.Routines.{text_spelling, join_spelling, range_spelling, clip_spelling};
ghost use Rattle.ts_command.specs.Routines.{number_spelling, pair_spelling, series_spelling, running_spelling};
ghost use Rattle.ts_command.specs.Routines.{lone_spelling};

use crate::routine::{
    ClipRoutine, JoinRoutine, KeyRoutine, LoneRoutine, NameRoutine, NumberRoutine, PairRoutine,
    RangeRoutine, Routine, RowRoutine, RunningRoutine, SeriesRoutine, StampRoutine, TextRoutine,
};

impl Routine {
    /// Its name.
    pub(crate) fn spelling(self) -> &'static [u8]
        ensures { result.now ≡ spelling self }
    {
        match self {
            Routine::CreateRowType => b"CreateRowType",
            Routine::TSContainerCreate => b"TSContainerCreate",
            Routine::TSCreate => b"TSCreate",
            Routine::TSCreateIrr => b"TSCreateIrr",
            Routine::NotOp => b"NotOp",
            Routine::CalStamp => b"CalStamp",
            Routine::ClipCount => b"ClipCount",
            Routine::AggregateBy => b"AggregateBy",
            Routine::AggregateAll => b"AggregateAll",
            Routine::RollingCreate => b"RollingCreate",
            Routine::RollingPut => b"RollingPut",
            Routine::RollingClip => b"RollingClip",
            Routine::RollingDrop => b"RollingDrop",
            Routine::ByName(routine) => routine.spelling(),
            Routine::ByKey(routine) => routine.spelling(),
            Routine::AtStamp(routine) => routine.spelling(),
            Routine::WithRow(routine) => routine.spelling(),
            Routine::WithText(routine) => routine.spelling(),
            Routine::Joining(routine) => routine.spelling(),
            Routine::InRange(routine) => routine.spelling(),
            Routine::Clipping(routine) => routine.spelling(),
            Routine::ByNumber(routine) => routine.spelling(),
            Routine::OfPair(routine) => routine.spelling(),
            Routine::OfSeries(routine) => routine.spelling(),
            Routine::Running(routine) => routine.spelling(),
            Routine::Alone(routine) => routine.spelling(),
        }
    }
}

impl NameRoutine {
    fn spelling(self) -> &'static [u8]
        ensures { result.now ≡ name_spelling self }
    {
        match self {
            NameRoutine::DropRowType => b"DropRowType",
            NameRoutine::ShowPattern => b"ShowPattern",
            NameRoutine::DropPattern => b"DropPattern",
            NameRoutine::ShowCalendar => b"ShowCalendar",
            NameRoutine::DropCalendar => b"DropCalendar",
            NameRoutine::TSContainerDestroy => b"TSContainerDestroy",
            NameRoutine::TSContainerUsage => b"TSContainerUsage",
            NameRoutine::ListSeries => b"ListSeries",
        }
    }
}

impl KeyRoutine {
    fn spelling(self) -> &'static [u8]
        ensures { result.now ≡ key_spelling self }
    {
        match self {
            KeyRoutine::DropSeries => b"DropSeries",
            KeyRoutine::GetFirstElem => b"GetFirstElem",
            KeyRoutine::GetLastElem => b"GetLastElem",
            KeyRoutine::GetNelems => b"GetNelems",
        }
    }
}

impl StampRoutine {
    fn spelling(self) -> &'static [u8]
        ensures { result.now ≡ stamp_spelling self }
    {
        match self {
            StampRoutine::DelElem => b"DelElem",
            StampRoutine::HideElem => b"HideElem",
            StampRoutine::RevealElem => b"RevealElem",
            StampRoutine::GetElem => b"GetElem",
        }
    }
}

impl RowRoutine {
    fn spelling(self) -> &'static [u8]
        ensures { result.now ≡ row_spelling self }
    {
        match self {
            RowRoutine::PutElem => b"PutElem",
            RowRoutine::PutElemNoDups => b"PutElemNoDups",
            RowRoutine::InsElem => b"InsElem",
            RowRoutine::UpdElem => b"UpdElem",
        }
    }
}

impl TextRoutine {
    fn spelling(self) -> &'static [u8]
        ensures { result.now ≡ text_spelling self }
    {
        match self {
            TextRoutine::CreatePattern => b"CreatePattern",
            TextRoutine::CreateCalendar => b"CreateCalendar",
        }
    }
}

impl JoinRoutine {
    fn spelling(self) -> &'static [u8]
        ensures { result.now ≡ join_spelling self }
    {
        match self {
            JoinRoutine::AndOp => b"AndOp",
            JoinRoutine::OrOp => b"OrOp",
        }
    }
}

impl RangeRoutine {
    fn spelling(self) -> &'static [u8]
        ensures { result.now ≡ range_spelling self }
    {
        match self {
            RangeRoutine::CalIndex => b"CalIndex",
            RangeRoutine::CalRange => b"CalRange",
        }
    }
}

impl ClipRoutine {
    fn spelling(self) -> &'static [u8]
        ensures { result.now ≡ clip_spelling self }
    {
        match self {
            ClipRoutine::Clip => b"Clip",
            ClipRoutine::ClipGetCount => b"ClipGetCount",
            ClipRoutine::DelClip => b"DelClip",
        }
    }
}

impl NumberRoutine {
    fn spelling(self) -> &'static [u8]
        ensures { result.now ≡ number_spelling self }
    {
        match self {
            NumberRoutine::GetNthElem => b"GetNthElem",
            NumberRoutine::Lag => b"Lag",
        }
    }
}

impl PairRoutine {
    fn spelling(self) -> &'static [u8]
        ensures { result.now ≡ pair_spelling self }
    {
        match self {
            PairRoutine::Union => b"Union",
            PairRoutine::Intersect => b"Intersect",
        }
    }
}

impl SeriesRoutine {
    fn spelling(self) -> &'static [u8]
        ensures { result.now ≡ series_spelling self }
    {
        match self {
            SeriesRoutine::AggregateRange => b"AggregateRange",
            SeriesRoutine::Apply => b"Apply",
        }
    }
}

impl RunningRoutine {
    fn spelling(self) -> &'static [u8]
        ensures { result.now ≡ running_spelling self }
    {
        match self {
            RunningRoutine::TSRunningSum => b"TSRunningSum",
            RunningRoutine::TSRunningAvg => b"TSRunningAvg",
        }
    }
}

impl LoneRoutine {
    fn spelling(self) -> &'static [u8]
        ensures { result.now ≡ lone_spelling self }
    {
        match self {
            LoneRoutine::Begin => b"Begin",
            LoneRoutine::Commit => b"Commit",
            LoneRoutine::Rollback => b"Rollback",
        }
    }
}
