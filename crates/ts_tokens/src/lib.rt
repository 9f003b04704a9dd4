//! The tokens of statements: words, numbers, texts and signs. `front` gives the token that stands in front, the longest
//! that does (`specs/Tokens`): what a number or a text is stands apart (`specs/NumberForm`, `specs/TextForm`), and the
//! laws tie the two. A number token says its units and scale, a text token its bytes, a key or a stamp. So the tokens
//! are a front, as the phrases of ts_text want one (`proofs/CallerLemmas`). Stands on ts_text and ts_base; knows no
//! grammar and no routine. Read `specs/Tokens.antt`, then `token.rt` and `laws.rt`.
#![tactic(auto)]

mod laws;
mod number;
mod text;
mod token;

pub use laws::{a_number_is_the_longest, a_text_is_the_longest, a_word_is_the_longest};
pub use number::{scale, units};
pub use text::{bytes_of, key_of, stamp_of};
pub use token::front;
