// What an expression over columns is kept as.
use crate::bind::Source;

/// An instruction over a stack of numbers and NULLs. They stand in the order in which they are carried out: each takes
/// what the last ones left and leaves one. The scales of all numbers are known before a row is read, so that a sum has
/// with it what brings its operands to the greater one.
#[derive(Clone, Copy, Debug)]
pub(crate) enum Instruction {
    /// The number in a column.
    Column(Source),
    /// The number that digits write.
    Digits(u64),
    /// The number of opposite sign.
    Opposite,
    /// The sum of the last two.
    Plus(Powers),
    /// The one before the last, less the last.
    Less(Powers),
    /// The product of the last two.
    Times,
}

/// The powers of ten that two operands are multiplied by before they are added up.
#[derive(Clone, Copy, Debug)]
pub(crate) struct Powers {
    pub left: i128,
    pub right: i128,
}
