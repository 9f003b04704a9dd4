// Whether bytes are a row's, told without making the row.
ghost use Rattle.std.specs.Prelude.{◌≡◌, ◌≤◌, ◌+◌, ◌∷◌, IsTrue, is_some, length};
ghost use Rattle.std.specs.List.{list_all};
ghost use Rattle.ts_row.specs.Row.{column_width, is_kind};
ghost use Rattle.ts_row.specs.Decoding.{text_in, filled_in, value_in, values_in, row_in};

use crate::decoding::decode_number;
use crate::mark::unmarked;
use crate::zeros::is_zero;
use crate::{Column, ColumnKind};
use ts_base::is_text;

/// Whether bytes are a row's.
pub(crate) fn is_row(columns: &[Column], from: &[u8]) -> bool
    requires kinds { IsTrue (list_all (λ c. is_kind c.kind) columns.now) }
    requires some { 1 ≤ length columns.now }
    ensures { result ≡ is_some (row_in columns.now from.now) }
{
    let Some((first, behind)) = from.split_first() else {
        return false;
    };
    are_values(columns, unmarked(*first), behind)
}

// Whether a byte and those behind it are the bytes of values.
fn are_values(columns: &[Column], flag: u8, behind: &[u8]) -> bool
    requires { IsTrue (list_all (λ c. is_kind c.kind) columns.now) }
    ensures { result ≡ is_some (values_in columns.now (flag ∷ behind.now)) }
{
    let Some((column, columns)) = columns.split_first() else {
        return false;
    };
    let size = column.kind.width() - 1;
    if behind.len() < size {
        return false;
    }
    let (bytes, rest) = behind.split_at(size);
    if !is_value(column.kind, flag, bytes) {
        return false;
    }
    let Some((flag, behind)) = rest.split_first() else {
        return columns.is_empty();
    };
    are_values(columns, *flag, behind)
}

// Whether the bytes of a column are a value's.
fn is_value(kind: ColumnKind, flag: u8, bytes: &[u8]) -> bool
    requires kind { IsTrue (is_kind kind) }
    requires room { length bytes.now + 1 ≡ column_width kind }
    ensures { result ≡ is_some (value_in kind (flag ∷ bytes.now)) }
{
    match flag {
        0 => is_zero(bytes),
        1 => is_filled(kind, bytes),
        _ => false,
    }
}

// Whether bytes are a value's, which isn't NULL.
fn is_filled(kind: ColumnKind, bytes: &[u8]) -> bool
    requires kind { IsTrue (is_kind kind) }
    requires room { length bytes.now + 1 ≡ column_width kind }
    ensures { result ≡ is_some (filled_in kind bytes.now) }
{
    if let ColumnKind::VarChar { length } = kind {
        return is_padded_text(length, bytes);
    }
    kind.holds_size(decode_number(kind, bytes).unsigned_abs())
}

// Whether bytes are a length, a text and zeros.
fn is_padded_text(most: u16, bytes: &[u8]) -> bool
    requires { length bytes.now ≡ most + 1 }
    ensures { result ≡ is_some (text_in most bytes.now) }
{
    let Some((length, bytes)) = bytes.split_first() else {
        return false;
    };
    let length = *length as usize;
    if length > most as usize {
        return false;
    }
    let (text, padding) = bytes.split_at(length);
    is_zero(padding) && is_text(text)
}
