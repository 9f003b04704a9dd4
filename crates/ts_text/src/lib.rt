//! What every grammar of texts stands on. A text is its tokens with blanks between them (`specs/Spelling`); a grammar
//! is made of phrases over what it takes for a token (`specs/Phrase`), and where it refuses a text it says so at the
//! one right place: what stands before goes on to a text of the grammar, and with the token at the place nothing does,
//! whatever comes behind it that leaves it this token (`specs/Place`); nothing is said of bytes that begin no token.
//! The tokens of patterns, calendars and lists of aggregates stand there too. Stands on ts_base alone; knows no
//! grammar. Read `specs/Phrase.antt`, `specs/Place.antt`, then `sign.rt`.
#![tactic(auto)]

mod blanks;
mod digits;
mod misfit;
mod plain;
mod sign;
mod token;

pub use blanks::skip_blanks;
pub use digits::{are_digits, magnitude, number, print_number};
pub use misfit::Misfit;
pub use plain::{plain_front, read_word};
pub use sign::{behind_sign, read_end, read_sign};
pub use token::{TokenKind, digits_in_front, word_bytes};
