/// How two flags are joined.
#[derive(Clone, Copy, Debug, PartialEq, Eq)]
pub enum Junction {
    /// On where both are on.
    And,
    /// On where one of them is on, or both.
    Or,
}
