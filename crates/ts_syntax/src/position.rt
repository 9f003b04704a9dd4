// Where a byte of a script stands: its line and its column.
ghost use Rattle.std.specs.Prelude.{◌≡◌, ◌+◌, ◌<◌, ◌^◌, ◌++◌, ◌∷◌, [], List, ℕ, length};
ghost use Rattle.ts_syntax.specs.Places.{IsBehind};

/// A line and a column, both counted from 1. A column counts bytes.
#[derive(Clone, Copy, Debug, PartialEq, Eq)]
pub(crate) struct Position {
    pub(crate) line: u64,
    pub(crate) column: u64,
}

impl Position {
    /// Where a script begins.
    pub(crate) fn start() -> Position
        ensures { IsBehind [] result }
    {
        Position { line: 1, column: 1 }
    }

    // Where the byte behind this one stands.
    fn behind_byte(self, byte: u8) -> Position
        ensures { (before : List ℕ) → length before < 2 ^ 32 → IsBehind before self
            → IsBehind (before ++ byte ∷ []) result }
    {
        if byte == b'\n' {
            Position {
                line: self.line.saturating_add(1),
                column: 1,
            }
        } else {
            Position {
                line: self.line,
                column: self.column.saturating_add(1),
            }
        }
    }

    /// Where the byte behind these stands.
    pub(crate) fn behind(self, bytes: &[u8]) -> Position
        ensures { (before : List ℕ) → length before + length bytes.now < 2 ^ 32 → IsBehind before self
            → IsBehind (before ++ bytes.now) result }
    {
        let mut position = self;
        for byte in bytes {
            position = position.behind_byte(*byte);
        }
        position
    }
}
