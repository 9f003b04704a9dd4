// The cells behind the head of a page: some are kept, or others are put behind them.
ghost use Rattle.std.specs.Prelude.{◌≡◌, ◌+◌, ◌≤◌, List, ◌++◌, length, take, drop, replicate};
ghost use Rattle.ts_row.specs.Row.{Element};
ghost use Rattle.ts_cells.specs.IrregularPage.{page_room, AreElements, behind_head};

use ts_cells::cell_size;
use ts_row::RowType;

/// Keeps the first so many of the cells.
pub(crate) fn keep_first(kind: &RowType, behind: &mut [u8], count: usize, keep: usize)
    requires size { length behind.old ≡ 4064 }
    requires room { count ≤ page_room kind.now.columns }
    requires keep { keep ≤ count }
    ensures { (es : List Element) → AreElements kind.now.columns es → length es ≡ count
        → behind.old ≡ behind_head kind.now.columns es
        → behind.new ≡ behind_head kind.now.columns (take keep es) }
{
    let size = cell_size(kind);
    clear(&mut behind[size * keep..size * count]);
}

/// Keeps the others alone, which move to the front.
pub(crate) fn keep_others(kind: &RowType, behind: &mut [u8], count: usize, first: usize)
    requires size { length behind.old ≡ 4064 }
    requires room { count ≤ page_room kind.now.columns }
    requires first { first ≤ count }
    ensures { (es : List Element) → AreElements kind.now.columns es → length es ≡ count
        → behind.old ≡ behind_head kind.now.columns es
        → behind.new ≡ behind_head kind.now.columns (drop first es) }
{
    let size = cell_size(kind);
    let end = size * count;
    behind.copy_within(size * first..end, 0);
    clear(&mut behind[end - size * first..end]);
}

/// Puts the cells of another page behind these.
pub(crate) fn append_cells(
    kind: &RowType,
    behind: &mut [u8],
    count: usize,
    others: &[u8],
    more: usize,
)
    requires size { length behind.old ≡ 4064 }
    requires others { length others.now ≡ 4064 }
    requires room { count + more ≤ page_room kind.now.columns }
    ensures { (es fs : List Element) → AreElements kind.now.columns es → AreElements kind.now.columns fs
        → length es ≡ count → length fs ≡ more
        → behind.old ≡ behind_head kind.now.columns es → others.now ≡ behind_head kind.now.columns fs
        → behind.new ≡ behind_head kind.now.columns (es ++ fs) }
{
    let size = cell_size(kind);
    let all = count + more;
    behind[size * count..size * all].copy_from_slice(&others[..size * more]);
}

fn clear(bytes: &mut [u8])
    ensures { bytes.new ≡ replicate (length bytes.old) 0 }
{
    bytes.fill(0);
}
