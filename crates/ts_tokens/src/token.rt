// The tokens of a statement: words, numbers, texts and signs. Each is the longest that stands there.
ghost use Rattle.std.specs.Prelude.{◌≡◌, ◌==◌, ◌+◌, ◌<◌, ◌≤◌, IfSome, IsTrue, length, slice_index};
ghost use Rattle.ts_tokens.specs.Tokens.{fraction_length, magnitude_length, number_length, closing, front};

use ts_base::{begins_word, is_text_byte};
use ts_text::{TokenKind, digits_in_front, word_bytes};

/// The most digits of a number.
const DIGITS: usize = 38;

/// The token that stands in front, if one does: its kind and its length.
#[tactic(auto, unfolding(crate::specs::Tokens::front))]
pub fn front(bytes: &[u8]) -> Option<(TokenKind, usize)>
    ensures value { result ≡ front bytes.now }
    ensures some { IfSome result (λ token. 0 < token.1) }
    ensures within { IfSome result (λ token. token.1 ≤ length bytes.now) }
{
    let [first, rest @ ..] = bytes else {
        return None;
    };
    if begins_word(*first) {
        return Some((TokenKind::Word, 1 + word_bytes(rest)));
    }
    match *first {
        b'\'' => match closing(rest) {
            Some(end) => Some((TokenKind::Text, 1 + end)),
            None => None,
        },
        b'(' | b')' | b',' => Some((TokenKind::Sign, 1)),
        _ => match number_length(bytes) {
            Some(length) => Some((TokenKind::Number, length)),
            None => None,
        },
    }
}

// The length of a point and digits in front, or 0.
#[tactic(auto, unfolding(crate::specs::Tokens::fraction_length))]
fn fraction_length(room: usize, bytes: &[u8]) -> usize
    ensures value { result ≡ fraction_length room bytes.now }
    ensures within { result ≤ length bytes.now }
{
    let [first, rest @ ..] = bytes else {
        return 0;
    };
    if *first != b'.' {
        return 0;
    }
    let count = digits_in_front(room, rest);
    if count == 0 { 0 } else { 1 + count }
}

// The length of a number without a sign in front, or 0.
#[tactic(auto, unfolding(crate::specs::Tokens::magnitude_length))]
fn magnitude_length(bytes: &[u8]) -> usize
    ensures value { result ≡ magnitude_length bytes.now }
    ensures within { result ≤ length bytes.now }
{
    let whole = digits_in_front(DIGITS, bytes);
    if whole == 0 {
        return 0;
    }
    whole + fraction_length(DIGITS - whole, &bytes[whole..])
}

// The length of the number in front, if one stands there.
#[tactic(auto, unfolding(crate::specs::Tokens::number_length))]
fn number_length(bytes: &[u8]) -> Option<usize>
    ensures value { result ≡ number_length bytes.now }
    ensures some { IfSome result (λ n. 0 < n) }
    ensures within { IfSome result (λ n. n ≤ length bytes.now) }
{
    let [first, rest @ ..] = bytes else {
        return None;
    };
    if *first == b'-' {
        let length = magnitude_length(rest);
        return if length == 0 { None } else { Some(1 + length) };
    }
    let length = magnitude_length(bytes);
    if length == 0 { None } else { Some(length) }
}

// Behind the quote that opens a text: the end of the longest text, if there is one.
fn closing(bytes: &[u8]) -> Option<usize>
    ensures value { result ≡ closing bytes.now }
    ensures within { IfSome result (λ end. end ≤ length bytes.now) }
{
    let mut last = None;
    let mut at = 0;
    while at < bytes.len() {
        if bytes[at] == b'\'' {
            last = Some(at + 1);
            if !is_doubled(bytes, at) {
                return last;
            }
            at += 2;
        } else if is_text_byte(bytes[at]) {
            at += 1;
        } else {
            return last;
        }
    }
    last
}

// Whether a quote stands behind the byte.
fn is_doubled(bytes: &[u8], at: usize) -> bool
    requires { at < length bytes.now }
    ensures value { result ≡ (slice_index bytes.now (at + 1) == 39) }
    ensures within { IsTrue result → at + 1 < length bytes.now }
{
    at + 1 < bytes.len() && bytes[at + 1] == b'\''
}
