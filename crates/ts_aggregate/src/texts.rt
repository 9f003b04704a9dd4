// The least or the greatest text of a column.
ghost use Rattle.std.specs.Prelude.{◌≡◌, fold, map};
ghost use Rattle.ts_row.specs.declared.value.Value.TheVariants.{Text};
ghost use Rattle.ts_aggregate.specs.Column;
ghost use Rattle.ts_aggregate.specs.Column.{AreWhole, read_texts, text_if_any};

use crate::cells::Cells;
use std::cmp::Ordering;

/// The least or the greatest of a text, if there is one, and those of a column.
pub(crate) fn best_text<'a>(
    cells: Cells<'a>,
    start: Option<&'a [u8]>,
    most: bool,
) -> Option<&'a [u8]>
    requires { AreWhole cells }
    ensures { text_if_any result ≡ fold (Column.better most) (text_if_any start.entry)
        (map (λ t. Text t) (read_texts cells.entry)) }
{
    let mut rest = cells;
    let mut best = start;
    while let Some((bytes, more)) = rest.next() {
        best = Some(better(most, best, text_of(bytes)));
        rest = more;
    }
    best
}

// The lesser or the greater of a text, if there is one, and another.
fn better<'a>(most: bool, best: Option<&'a [u8]>, text: &'a [u8]) -> &'a [u8]
    ensures { Text result.now ≡ Column.better most (text_if_any best.entry) (Text text.now) }
{
    match best {
        None => text,
        Some(best) => {
            if is_better(most, text.cmp(best)) {
                text
            } else {
                best
            }
        }
    }
}

// Whether what compares so with the one that is kept is lesser or greater.
fn is_better(most: bool, order: Ordering) -> bool
    ensures { result ≡ Column.is_better most order }
{
    order
        == if most {
            Ordering::Greater
        } else {
            Ordering::Less
        }
}

/// The text behind its length.
pub(crate) fn text_of(bytes: &[u8]) -> &[u8]
    ensures { result.now ≡ Column.text_of bytes.now }
{
    let Some((size, rest)) = bytes.split_first() else {
        return bytes;
    };
    &rest[..rest.len().min(*size as usize)]
}
