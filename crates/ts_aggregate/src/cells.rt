// Cells that stand one behind the other, and the values of a column in them: NULLs, those of hidden elements and cells
// without one are passed over.
ghost use Rattle.std.specs.Prelude.{◌≡◌, ◌+◌, ◌<◌, [], IsTrue, MatchOption, length};
ghost use Rattle.ts_aggregate.specs.Column;
ghost use Rattle.ts_aggregate.specs.Column.{found, AreWhole, IsNext, IsLast};

use ts_row::MARK;

/// Cells one behind the other, as many as are left, each of so many bytes with so many before its row.
#[derive(Clone, Copy)]
pub(crate) struct RowCells<'a> {
    pub size: usize,
    pub front: usize,
    pub left: usize,
    pub bytes: &'a [u8],
}

/// Where a column stands in cells.
#[derive(Clone, Copy)]
pub(crate) struct ValuePosition {
    /// The bytes of a cell.
    pub size: usize,
    /// Those before its row.
    pub front: usize,
    /// Those before the byte that tells whether the column is NULL.
    pub place: usize,
    /// Those of a value, which stand behind that byte.
    pub width: usize,
}

/// Cells one behind the other, as many as are left, and where a column stands in them.
#[derive(Clone, Copy)]
pub(crate) struct Cells<'a> {
    pub position: ValuePosition,
    pub left: usize,
    pub bytes: &'a [u8],
}

impl<'a> Cells<'a> {
    /// The bytes of the first value, and the cells behind it.
    #[inline(always)]
    pub(crate) fn next(self) -> Option<(&'a [u8], Cells<'a>)>
        requires { AreWhole self }
        ensures { MatchOption result (found self.entry ≡ []) (λ next. IsNext self.entry next.0.now next.1) }
    {
        let mut left = self.left;
        let mut bytes = self.bytes;
        while left > 0 {
            left -= 1;
            let (cell, rest) = bytes.split_at(self.position.size);
            bytes = rest;
            if has_value(self.position, cell) {
                let position = self.position;
                return Some((
                    bytes_of(position, cell),
                    Cells {
                        position,
                        left,
                        bytes,
                    },
                ));
            }
        }
        None
    }

    /// The bytes of the last value.
    pub(crate) fn last(self) -> Option<&'a [u8]>
        requires { AreWhole self }
        ensures { MatchOption result (found self.entry ≡ []) (λ last. IsLast self.entry last.now) }
    {
        let mut left = self.left;
        let mut bytes = self.bytes;
        while left > 0 {
            left -= 1;
            let (rest, cell) = bytes.split_at(bytes.len() - self.position.size);
            bytes = rest;
            if has_value(self.position, cell) {
                return Some(bytes_of(self.position, cell));
            }
        }
        None
    }
}

/// Whether a cell has a value that is folded.
#[inline(always)]
pub(crate) fn has_value(position: ValuePosition, cell: &[u8]) -> bool
    requires front { position.front < position.size }
    requires place { position.place + position.width < position.size }
    requires size { length cell.now ≡ position.size }
    ensures { result ≡ Column.has_value position cell.now }
{
    has_value_at(position, cell, position.place == position.front)
}

/// The same where it is known whether the column is the first of its row: of that one byte tells both, NULL's, whose 1
/// has no mark.
#[inline(always)]
pub(crate) fn has_value_at(position: ValuePosition, cell: &[u8], is_first: bool) -> bool
    requires front { position.front < position.size }
    requires place { position.place + position.width < position.size }
    requires size { length cell.now ≡ position.size }
    requires first { IsTrue is_first → position.place ≡ position.front }
    ensures { result ≡ Column.has_value position cell.now }
{
    cell[0] == 1 && cell[position.place] == 1 && (is_first || cell[position.front] < MARK)
}

/// The bytes of its value.
#[inline(always)]
pub(crate) fn bytes_of(position: ValuePosition, cell: &[u8]) -> &[u8]
    requires place { position.place + position.width < position.size }
    requires size { length cell.now ≡ position.size }
    ensures value { result.now ≡ Column.bytes_of position cell.now }
    ensures size { length result.now ≡ position.width }
{
    &cell[position.place + 1..position.place + 1 + position.width]
}
