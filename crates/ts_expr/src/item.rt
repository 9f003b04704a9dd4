use crate::Function;
use ts_base::Name;

/// A function, and the name of the column whose values it takes.
#[derive(Debug, Drop)]
pub struct Item {
    pub function: Function,
    pub column: Name,
}

/// A function, the number of the column whose values it takes, counted from 0, and the digits after the point of what
/// it makes of them.
#[derive(Clone, Copy, Debug, PartialEq, Eq)]
pub struct BoundItem {
    pub function: Function,
    pub column: usize,
    pub scale: u8,
}
