// The rules of row types: the first column that breaks one.
ghost use Rattle.std.specs.Prelude.{◌≡◌, ◌+◌, ◌<◌, ◌≤◌, ◌∷◌, nat_eq};
ghost use Rattle.std.specs.List.{list_any};
ghost use Rattle.std.specs.Cmp.Lexicographic.{pointwise};
ghost use Rattle.ts_row.specs.Row.{width_of, names_of, is_repeated, may_follow, bad_column};

use crate::Column;

/// The most value columns of a row type.
const COLUMNS: usize = 32;

/// The most bytes of a row.
const WIDTH: usize = 1000;

// The number, counted from 1, of the first column that breaks a rule.
#[tactic(auto, using(crate::proofs::RowTypeLemmas::kept))]
pub(crate) fn first_bad(stamp: &[u8], columns: &[Column]) -> Option<u8>
    ensures { result ≡ bad_column stamp.now columns.now }
{
    if columns.is_empty() {
        return Some(1);
    }
    let mut width = 0;
    for (index, column) in columns.iter().enumerate() {
        if !may_follow(stamp, &columns[..index], width, column) {
            return Some(index as u8 + 1);
        }
        width += column.kind.width();
    }
    None
}

// The bytes of a row of these columns.
pub(crate) fn width_of(columns: &[Column]) -> usize
    requires { width_of columns.now ≤ 1000 }
    ensures { result ≡ width_of columns.now }
{
    columns.iter().map(|column| column.kind.width()).sum()
}

// Whether a column may follow others, which have this width.
fn may_follow(stamp: &[u8], before: &[Column], width: usize, column: &Column) -> bool
    requires width { width ≡ width_of before.now }
    requires bound { width ≤ 1000 }
    ensures { result ≡ may_follow stamp.now before.now column.now }
{
    before.len() < COLUMNS
        && column.kind.is_valid()
        && width + column.kind.width() <= WIDTH
        && !is_repeated(column.name.as_slice(), stamp, before)
}

// Whether the stamp or a column has this name.
#[tactic(auto, using(crate::proofs::RowTypeLemmas::names))]
fn is_repeated(name: &[u8], stamp: &[u8], columns: &[Column]) -> bool
    ensures { result ≡ is_repeated name.now (stamp.now ∷ names_of columns.now) }
{
    stamp == name || has_column(columns, name)
}

// Whether a column has this name.
fn has_column(columns: &[Column], name: &[u8]) -> bool
    ensures { result ≡ list_any (λ c. pointwise nat_eq c.name name.now) columns.now }
{
    columns.iter().any(|column| column.name.as_slice() == name)
}
