//! The values that every layer speaks of: stamps, units, names, keys and the refusals of commands. A stamp and its text
//! are inverse to each other, a stamp moved by months is found by the civil calendar (`specs/Moment`), a name and a key
//! have their form (`specs/Name`), and each refusal has one number and one name (`specs/Refusal`). Stands on jiff's
//! calendar alone; knows nothing of pages or disks. Read `specs/Moment.antt`, then `stamp.rt`.
#![tactic(auto)]

mod bytes;
mod fault;
mod months;
mod name;
mod refusal;
mod reply;
mod stamp;
mod text;
mod unit;

pub use bytes::Bytes;
pub use fault::{SeriesFault, StoreFault, Trouble};
pub use months::month_start;
pub use name::{
    KEY_BYTES, Key, NAME_BYTES, Name, begins_word, continues_word, is_blank, is_text, is_text_byte,
    is_word,
};
pub use refusal::Refusal;
pub use reply::Reply;
pub use stamp::Stamp;
pub use unit::Unit;
