// What an expression is kept as.

/// What is made of two numbers.
#[derive(Clone, Copy, Debug, PartialEq, Eq)]
pub enum Operation {
    Plus,
    Less,
    Times,
}

/// A step of an expression. The steps stand in the order in which they are carried out: each takes what the last ones
/// left and leaves one value. A long expression makes no deep tree of them.
#[derive(Debug, Drop)]
pub(crate) enum Step<C> {
    /// The value of a column.
    Column(C),
    /// The number that digits write.
    Digits(u64),
    /// The number of opposite sign.
    Opposite,
    /// What is made of the last two.
    Joined(Operation),
}
