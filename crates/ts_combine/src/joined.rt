use ts_base::Stamp;

/// A row of two series as one: its stamp, and by their indices the elements whose rows stand in it. Where a series has
/// none its columns are NULL.
#[derive(Clone, Copy, Debug)]
pub struct Joined {
    pub stamp: Stamp,
    pub first: Option<usize>,
    pub second: Option<usize>,
}

/// An element by its index, at another stamp than its own.
#[derive(Clone, Copy, Debug)]
pub struct Lagged {
    pub stamp: Stamp,
    pub index: usize,
}
