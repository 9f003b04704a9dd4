// What is wished of a volume.

/// What is said of a volume, and how.
#[derive(Clone, Copy, Debug)]
pub struct Wish<'a> {
    pub part: Part<'a>,
    /// Whether the statements stand in transactions of 32, and not each by itself.
    pub in_transactions: bool,
}

/// What is said of a volume.
#[derive(Clone, Copy, Debug)]
pub enum Part<'a> {
    /// Its definitions and its elements.
    All,
    /// Its definitions alone: its series are made without elements.
    DefinitionsAlone,
    /// The series of this key, and what it stands on: its container, the row type of that, its calendar and the pattern
    /// by whose name that was made.
    Series(&'a [u8]),
}
