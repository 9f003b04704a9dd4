// The tokens of patterns, calendars and lists of aggregates.
ghost use Rattle.std.specs.Prelude.{◌≡◌, ◌≤◌, Ok, IfOk, IfErr, IfSome, length};
ghost use Rattle.ts_text.specs.Misfit.{RefusesExactly};
ghost use Rattle.ts_text.specs.Phrase.{is_sign, plain_front, a_word};

use crate::blanks::skip_blanks;
use crate::misfit::Misfit;
use crate::token::{TokenKind, digits_in_front, word_bytes};
use ts_base::begins_word;

/// The token that stands in front, if one does: its kind and its length.
#[tactic(auto, unfolding(crate::specs::Phrase::plain_front))]
pub fn plain_front(bytes: &[u8]) -> Option<(TokenKind, usize)>
    ensures value { result ≡ plain_front bytes.now }
    ensures within { IfSome result (λ token. token.1 ≤ length bytes.now) }
{
    let [first, rest @ ..] = bytes else {
        return None;
    };
    if begins_word(*first) {
        return Some((TokenKind::Word, 1 + word_bytes(rest)));
    }
    if first.is_ascii_digit() {
        return Some((TokenKind::Number, 1 + digits_in_front(rest.len(), rest)));
    }
    if is_sign(*first) {
        return Some((TokenKind::Sign, 1));
    }
    None
}

fn is_sign(byte: u8) -> bool
    ensures { result ≡ is_sign byte }
{
    matches!(byte, b'{' | b'}' | b'(' | b')' | b',' | b'$')
}

/// The bytes behind this word.
#[tactic(auto, unfolding(crate::specs::Phrase::a_word))]
pub fn read_word<'a>(bytes: &'a [u8], wanted: &[u8]) -> Result<&'a [u8], Misfit>
    ensures ok { IfOk result (λ rest. a_word wanted.now bytes.now ≡ Ok (tt, rest.now)) }
    ensures cause { IfErr result (λ misfit. RefusesExactly misfit (a_word wanted.now bytes.now)) }
    ensures shorter { IfOk result (λ rest. length rest.now ≤ length bytes.now) }
{
    let here = skip_blanks(bytes);
    if let Some((TokenKind::Word, length)) = plain_front(here) {
        let (word, rest) = here.split_at(length);
        if word == wanted {
            return Ok(rest);
        }
    }
    Err(Misfit::here(here))
}
