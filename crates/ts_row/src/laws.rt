// What holds of all that is printed, in the words of one who reads it again.
ghost use Rattle.std.specs.Prelude.{ℕ, ℤ, Bool, false, ◌≡◌, ◌^◌, ◌<◌, List, filter, unsigned_abs, IsTrue, Some, Ok};
ghost use Rattle.std.specs.List.{list_all};
ghost use Rattle.std.specs.Char.{is_ascii_digit};
ghost use Rattle.ts_base.specs.Moment.{number_of};
ghost use Rattle.ts_row.specs.Row.{is_kind, scale_of, Row, holds, fits, value_if_any, marked, row_of, number_text};
ghost use Rattle.ts_row.specs.Row.{row_text, literal_of, literals_of};

use crate::{Column, ColumnKind, Value};

/// The digits of a printed number write its size.
pub fn printed_digits_write_the_size()
    ensures { (scale : ℕ) (z : ℤ) → unsigned_abs z < 2 ^ 128 →
        number_of (filter is_ascii_digit (number_text scale z)) ≡ unsigned_abs z }
{}

/// The literal that the text of a value is fits the value's column again and gives the value back; so for a row, of
/// which the mark isn't printed: its literals give the visible row.
pub fn printed_values_fit_again()
    ensures value { (kind : ColumnKind) (value : Value) → IsTrue (is_kind kind) → IsTrue (holds kind value) →
        value_if_any kind (literal_of (scale_of kind) value) ≡ Some value }
    ensures row { (columns : List Column) (row : Row) → IsTrue (list_all (λ c. is_kind c.kind) columns) →
        IsTrue (fits columns row) → row_of columns (literals_of columns row) ≡ Ok (marked false row) }
    ensures mark { (columns : List Column) (row : Row) (hidden : Bool) →
        row_text columns (marked hidden row) ≡ row_text columns row }
{}
