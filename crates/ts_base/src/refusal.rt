// Why a command is refused: a number and a name for each cause, and what shows it.
ghost use Rattle.std.specs.Prelude.{◌≡◌};
ghost use Rattle.ts_base.specs.Refusal.{refusal_code, refusal_name};

/// Why a command was refused. A refused command changes nothing.
///
/// A column counts from 1. A place is the number of a byte, counted from 0 in the text that was read.
#[derive(Clone, Copy, Debug, PartialEq, Eq)]
pub enum Refusal {
    /// The statement isn't in the grammar.
    Syntax { place: u32 },
    /// The first 65536 bytes of a statement hold no `;` that ends it and aren't all blank.
    TooLong,
    /// The script ends after bytes of a statement that aren't all blank.
    Unended,
    UnknownName,
    NameTaken,
    /// The first value column that breaks a rule of row types.
    BadRowType { column: u8 },
    BadPattern { place: u32 },
    BadCalendar { place: u32 },
    /// No interval of the pattern is on.
    AllOff,
    /// No whole number of one unit makes up the other.
    UnitMismatch,
    /// The length is over the limit, and `runs` is 0; else the number of merged runs is.
    PatternTooLong { length: u128, runs: u32 },
    /// The pattern starts differ by no whole number of the smaller unit.
    NotAligned,
    /// No on interval holds the stamp.
    OffStamp,
    /// The on interval that holds the stamp starts before the origin.
    BeforeOrigin,
    /// The start sought doesn't exist up to the year 9999.
    PastEnd,
    Duplicate,
    Missing,
    /// The place sought reaches the next second.
    SecondFull,
    /// The first column that has no value or one that doesn't fit, or the first value too many.
    RowMismatch { column: u8 },
    /// The charge after the command would exceed the quota.
    ContainerFull { charge: u64, quota: u32 },
    /// The sum of the quotas would exceed the element pages.
    VolumeFull { sum: u64, pages: u32 },
    /// Another object refers to this one.
    InUse,
    /// As many objects of the kind exist as there may be.
    TooMany,
    /// The answer would have more than 1000000 rows.
    TooLarge { rows: u64 },
    NotRegular,
    BadExpression { place: u32 },
    UnknownColumn,
    /// A number that an expression makes of some row is out of range.
    Overflow,
    /// The format of the volume has no such thing.
    OldFormat,
    /// The window of the stamp is older than those that are kept; `newest` is the number of the newest.
    WindowGone { newest: u64 },
    /// No transaction is open that could end.
    NotOpen,
    /// A transaction is open.
    AlreadyOpen,
    /// The transaction has as many writing commands as it may have.
    TransactionFull,
    /// The first commit behind the transaction's begin that wrote what one of its commands writes or names.
    Conflict { commit: u32 },
}

impl Refusal {
    /// The number in the line `error NN Name`.
    pub fn code(&self) -> u8
        ensures { result ≡ refusal_code self.now }
    {
        match self {
            Refusal::Syntax { .. } => 1,
            Refusal::TooLong => 2,
            Refusal::Unended => 3,
            Refusal::UnknownName => 10,
            Refusal::NameTaken => 11,
            Refusal::BadRowType { .. } => 12,
            Refusal::BadPattern { .. } => 13,
            Refusal::BadCalendar { .. } => 14,
            Refusal::AllOff => 15,
            Refusal::UnitMismatch => 16,
            Refusal::PatternTooLong { .. } => 17,
            Refusal::NotAligned => 18,
            Refusal::OffStamp => 20,
            Refusal::BeforeOrigin => 21,
            Refusal::PastEnd => 22,
            Refusal::Duplicate => 23,
            Refusal::Missing => 24,
            Refusal::SecondFull => 25,
            Refusal::RowMismatch { .. } => 26,
            Refusal::ContainerFull { .. } => 30,
            Refusal::VolumeFull { .. } => 31,
            Refusal::InUse => 32,
            Refusal::TooMany => 33,
            Refusal::TooLarge { .. } => 34,
            Refusal::NotRegular => 40,
            Refusal::BadExpression { .. } => 41,
            Refusal::UnknownColumn => 42,
            Refusal::Overflow => 43,
            Refusal::OldFormat => 44,
            Refusal::WindowGone { .. } => 45,
            Refusal::NotOpen => 50,
            Refusal::AlreadyOpen => 51,
            Refusal::TransactionFull => 52,
            Refusal::Conflict { .. } => 53,
        }
    }

    /// The name in the line `error NN Name`, as ASCII.
    pub fn name(&self) -> &[u8]
        ensures { result.now ≡ refusal_name self.now }
    {
        match self {
            Refusal::Syntax { .. } => b"Syntax",
            Refusal::TooLong => b"TooLong",
            Refusal::Unended => b"Unended",
            Refusal::UnknownName => b"UnknownName",
            Refusal::NameTaken => b"NameTaken",
            Refusal::BadRowType { .. } => b"BadRowType",
            Refusal::BadPattern { .. } => b"BadPattern",
            Refusal::BadCalendar { .. } => b"BadCalendar",
            Refusal::AllOff => b"AllOff",
            Refusal::UnitMismatch => b"UnitMismatch",
            Refusal::PatternTooLong { .. } => b"PatternTooLong",
            Refusal::NotAligned => b"NotAligned",
            Refusal::OffStamp => b"OffStamp",
            Refusal::BeforeOrigin => b"BeforeOrigin",
            Refusal::PastEnd => b"PastEnd",
            Refusal::Duplicate => b"Duplicate",
            Refusal::Missing => b"Missing",
            Refusal::SecondFull => b"SecondFull",
            Refusal::RowMismatch { .. } => b"RowMismatch",
            Refusal::ContainerFull { .. } => b"ContainerFull",
            Refusal::VolumeFull { .. } => b"VolumeFull",
            Refusal::InUse => b"InUse",
            Refusal::TooMany => b"TooMany",
            Refusal::TooLarge { .. } => b"TooLarge",
            Refusal::NotRegular => b"NotRegular",
            Refusal::BadExpression { .. } => b"BadExpression",
            Refusal::UnknownColumn => b"UnknownColumn",
            Refusal::Overflow => b"Overflow",
            Refusal::OldFormat => b"OldFormat",
            Refusal::WindowGone { .. } => b"WindowGone",
            Refusal::NotOpen => b"NotOpen",
            Refusal::AlreadyOpen => b"AlreadyOpen",
            Refusal::TransactionFull => b"TransactionFull",
            Refusal::Conflict { .. } => b"Conflict",
        }
    }
}
