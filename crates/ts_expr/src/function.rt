// What is made of the values of a column.
ghost use Rattle.std.specs.Prelude.{◌≡◌};
ghost use Rattle.ts_expr.specs.Aggregates;

/// What is made of the values of a column, hidden rows and NULLs left out.
#[derive(Clone, Copy, Debug, PartialEq, Eq)]
pub enum Function {
    /// The sum, with the digits after the point that the column has.
    Sum,
    /// The mean, with six more digits after the point than the column has, a half rounded away from zero.
    Avg,
    /// How many values there are.
    Count,
    /// The least value: numbers are compared as numbers, texts byte by byte.
    Min,
    /// The greatest value, compared like the least.
    Max,
    /// The value with the least stamp.
    First,
    /// The value with the greatest stamp.
    Last,
}

impl Function {
    // The function that a word names, in lower or in upper case.
    pub(crate) fn of_word(word: &[u8]) -> Option<Function>
        ensures { result ≡ Aggregates.function_of_word word.now }
    {
        if word == b"sum".as_slice() || word == b"SUM".as_slice() {
            return Some(Function::Sum);
        }
        if word == b"avg".as_slice() || word == b"AVG".as_slice() {
            return Some(Function::Avg);
        }
        if word == b"count".as_slice() || word == b"COUNT".as_slice() {
            return Some(Function::Count);
        }
        if word == b"min".as_slice() || word == b"MIN".as_slice() {
            return Some(Function::Min);
        }
        if word == b"max".as_slice() || word == b"MAX".as_slice() {
            return Some(Function::Max);
        }
        if word == b"first".as_slice() || word == b"FIRST".as_slice() {
            return Some(Function::First);
        }
        if word == b"last".as_slice() || word == b"LAST".as_slice() {
            Some(Function::Last)
        } else {
            None
        }
    }
}
