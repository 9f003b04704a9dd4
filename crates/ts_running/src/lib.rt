//! Windows of running values, and expressions over the columns of a row, as in `$v*($w+1), -$v`. The sum and the number
//! of a window are those of its values from nothing (`specs/Rows`). What a text reads as, or the place at which it is
//! refused, is `specs/Grammar`; it is read exactly where it is the tokens of expressions with blanks between them
//! (`specs/Spelling`). Bound to a row type each column has its number and its scale (`specs/Binding`), and the values
//! are made part by part there too. The code keeps an expression as steps over a stack, and one over columns as
//! instructions over a stack of numbers alone (`specs/Instructions`). The rows that both give for the elements of a
//! series are `specs/Rows`; whoever takes them is a `NumbersVisitor`. Stands on circular_buffer, ts_expr, ts_text,
//! ts_row and ts_base; knows nothing of pages or scripts. Read `specs/Grammar.antt`, `specs/Binding.antt`,
//! `specs/Instructions.antt`, then `running.rt`, `list.rt`, `bind.rt`, `value.rt`.
#![tactic(auto)]

mod bind;
mod column;
mod fault;
mod front;
mod instruction;
mod laws;
mod list;
mod read;
mod running;
mod scale;
mod step;
mod value;
mod visitor;

pub use bind::{BoundExpr, MOST_PART_SCALE, Source};
pub use column::{bind_column, read_column};
pub use fault::ApplyError;
pub use laws::{
    a_window_holds_the_last_values, a_window_makes_the_running_value, an_empty_window_has_no_sum,
};
pub use list::{
    ExprList, MOST_EXPRS, expression_texts_are_tokens, expressions_are_refused_in_place,
};
pub use read::{MOST_DIGITS, MOST_INSIDE};
pub use running::Running;
pub use step::Operation;
pub use value::ApplyRoom;
pub use visitor::NumbersVisitor;
