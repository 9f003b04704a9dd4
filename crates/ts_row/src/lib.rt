//! Row types and rows: the columns that a row type may have, the row that literals give, its bytes and its text. `make`
//! refuses exactly the first column that breaks a rule, `row_of` exactly the first that misfits (`specs/Row`). A row
//! that fits has one encoding, and bytes mean that row or none (`specs/Encoding`). A row can be hidden: its first byte
//! is 2 higher then, and nothing else of it differs. Values are printed as `specs/Row` says, and what is printed fits
//! again and gives the values back (`laws.rt`). Stands on ts_base; knows nothing of pages or scripts. Read
//! `specs/Row.antt`, then `row_type.rt`.
#![tactic(auto)]

mod decoding;
mod encoding;
mod judging;
mod kind;
mod laws;
mod literal;
mod mark;
mod print;
mod row;
mod row_type;
mod rules;
mod value;
mod zeros;

pub use kind::{Column, ColumnKind, MOST_DIGITS, SHORT_DIGITS};
pub use laws::{printed_digits_write_the_size, printed_values_fit_again};
pub use mark::MARK;
pub use print::print_value;
pub use row::{Elem, Row, Shelf};
pub use row_type::{RowType, copy_columns};
pub use value::{Literal, Value};
pub use zeros::is_zero;
