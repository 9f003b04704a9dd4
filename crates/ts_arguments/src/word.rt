// The words of statements: what is joined, and the types of value columns, by their names.
ghost use Rattle.std.specs.Prelude.{◌≡◌};
ghost use Rattle.std.specs.Str.{bytes_eq};
ghost use Rattle.ts_arguments.specs.Arguments.{joined_spelling, joined_of, type_spelling, type_of};

/// Whether the two are the same bytes.
pub fn are_same(first: &[u8], second: &[u8]) -> bool
    ensures { result ≡ bytes_eq first.now second.now }
{
    first == second
}

/// What a join is of.
#[derive(Clone, Copy)]
pub enum Joined {
    Patterns,
    Calendars,
}

const JOINED: [Joined; 2] = [Joined::Patterns, Joined::Calendars];

impl Joined {
    fn spelling(self) -> &'static [u8]
        ensures { result.now ≡ joined_spelling self }
    {
        match self {
            Joined::Patterns => b"pattern",
            Joined::Calendars => b"calendar",
        }
    }
}

/// What is joined where this word stands, if something is.
#[tactic(auto, unfolding(crate::specs::Arguments::joined_of))]
pub(crate) fn joined_of(word: &[u8]) -> Option<Joined>
    ensures { result ≡ joined_of word.now }
{
    JOINED
        .iter()
        .copied()
        .find(|joined| are_same(joined.spelling(), word))
}

/// A type of value columns, without its numbers.
#[derive(Clone, Copy)]
pub(crate) enum TypeName {
    SmallInt,
    Integer,
    BigInt,
    Decimal,
    VarChar,
}

const TYPES: [TypeName; 5] = [
    TypeName::SmallInt,
    TypeName::Integer,
    TypeName::BigInt,
    TypeName::Decimal,
    TypeName::VarChar,
];

impl TypeName {
    fn spelling(self) -> &'static [u8]
        ensures { result.now ≡ type_spelling self }
    {
        match self {
            TypeName::SmallInt => b"smallint",
            TypeName::Integer => b"integer",
            TypeName::BigInt => b"bigint",
            TypeName::Decimal => b"decimal",
            TypeName::VarChar => b"varchar",
        }
    }
}

/// The type of this name, if there is one.
#[tactic(auto, unfolding(crate::specs::Arguments::type_of))]
pub(crate) fn type_of(word: &[u8]) -> Option<TypeName>
    ensures { result ≡ type_of word.now }
{
    TYPES
        .iter()
        .copied()
        .find(|name| are_same(name.spelling(), word))
}
