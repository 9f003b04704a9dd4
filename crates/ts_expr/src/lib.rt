//! Aggregate lists, as in `sum($v), count($v)`: their texts, their columns and their fold over the elements of a
//! series. What a text reads as, or the place at which it is refused, is `specs/Aggregates`; a text is read as a list
//! exactly where it is that list's tokens with blanks between them (`specs/Spelling`). Bound to a row type each item
//! has its column, and what the items make of rows stands there too: plain folds over the values of a column. That a
//! mean is the nearest number, that the least value is one of the values, and that the first item that can't be bound
//! decides, are laws (`laws.rt`). The code goes over the rows once, with a running value for each item. Stands on
//! ts_text, ts_row and ts_base; knows nothing of pages, calendars or scripts. Read `specs/Aggregates.antt`, then
//! `list.rt`, `bind.rt`, `fold.rt` and `laws.rt`.
#![tactic(auto)]

mod bind;
mod fold;
mod function;
mod item;
mod laws;
mod list;
mod read;
mod sums;
mod tally;

pub use bind::Bound;
pub use fold::Running;
pub use function::Function;
pub use item::{BoundItem, Item};
pub use laws::{
    a_mean_is_the_nearest, the_first_item_that_cannot_be_bound_is_refused,
    the_first_value_is_at_the_front, the_least_is_one_of_the_values,
    the_values_of_a_column_are_alike,
};
pub use list::{AggList, MOST_ITEMS, aggregate_texts_are_tokens, aggregates_are_refused_in_place};
pub use sums::Sums;
pub use tally::Tally;
