// The kinds of tokens, and those that are a run of bytes of one class.
ghost use Rattle.std.specs.Prelude.{◌≡◌, ◌≤◌, length};
ghost use Rattle.std.specs.List.{prefix_len};
ghost use Rattle.ts_base.specs.Name.{continues_word};
ghost use Rattle.ts_text.specs.Phrase.{digits_in_front};

use ts_base::continues_word;

/// What a token is.
#[derive(Clone, Copy, Debug, PartialEq, Eq)]
pub enum TokenKind {
    Word,
    Number,
    Text,
    Sign,
}

/// How many bytes in front may go on a word.
pub fn word_bytes(bytes: &[u8]) -> usize
    ensures value { result ≡ prefix_len continues_word bytes.now }
    ensures within { result ≤ length bytes.now }
{
    bytes
        .iter()
        .take_while(|byte| continues_word(**byte))
        .count()
}

/// How many digits stand in front, of which at most so many count.
pub fn digits_in_front(room: usize, bytes: &[u8]) -> usize
    ensures value { result ≡ digits_in_front room bytes.now }
    ensures within { result ≤ length bytes.now }
    ensures room { result ≤ room }
{
    bytes
        .iter()
        .take(room)
        .take_while(|byte| byte.is_ascii_digit())
        .count()
}
