//! The arguments of statements: what stands between the brackets of a call. Each shape of arguments has a reader that
//! gives what they say and the bytes behind them exactly by the grammar, else the first place that can't stand there.
//! Shapes are made of names, keys, stamps, texts, numbers, values and columns (`specs/Arguments`, over the tokens of
//! ts_tokens). What they say has its form (`proofs/CallerLemmas`), and a value that ts_row prints is read again as the
//! same value (`specs/Printed`). Stands on ts_tokens, ts_row, ts_text and ts_base, and on ts_rolling for the form of a
//! set's key; knows no routine and no command. Read `specs/Arguments.antt`, then `phrase.rt` and `call.rt`.
#![tactic(auto)]

mod call;
mod column;
mod laws;
mod list;
mod phrase;
mod range;
mod set;
mod word;

pub use call::{
    read_joined_names, read_key_and_name, read_key_and_stamp, read_key_and_whole, read_key_before,
    read_key_name_stamp_and_name, read_key_stamp_and_values, read_key_stamp_and_whole,
    read_name_and_columns, read_name_and_text, read_name_before, read_name_stamp_and_whole,
    read_two_names, read_two_names_and_whole,
};
pub use laws::printed_values_are_read_again;
pub use list::{Columns, Literals};
pub use range::{
    read_key_range, read_name_range, read_text_key_range, read_text_key_whole_range,
    read_text_name_key_range, read_text_name_range, read_two_keys_range,
};
pub use set::{
    read_set_before, read_set_name_stamp_name_and_whole, read_set_range, read_set_stamp_and_values,
};
pub use word::{Joined, are_same};
