// An interval from which on the on starts are counted.

/// An interval of a calendar, with how many on intervals there are on either side of it.
#[derive(Clone, Copy)]
pub(crate) struct Counted {
    pub interval: i64,
    /// How many come before it, from the start of the round of the first one that counts.
    pub before: u64,
    /// How many there are from it on.
    pub left: u64,
}
