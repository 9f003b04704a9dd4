// Bounds of what is read.

/// The most rows of a reply.
pub(crate) const MOST_ROWS: u64 = 1_000_000;
