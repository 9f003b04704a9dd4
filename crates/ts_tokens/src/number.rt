// The number that a token writes.
ghost use Rattle.std.specs.Prelude.{◌≡◌, ◌<◌, ◌≤◌, ◌==◌, length, slice_index, position, IfSome};
ghost use Rattle.ts_tokens.specs.Tokens.{units_of, scale_of};
ghost use Rattle.ts_text.specs.Phrase.{digit_count};

use ts_text::magnitude;

/// The number without its point.
pub fn units(token: &[u8]) -> i128
    requires { digit_count token.now ≤ 38 }
    ensures { result ≡ units_of token.now }
{
    let magnitude = magnitude(token) as i128;
    if is_negative(token) {
        -magnitude
    } else {
        magnitude
    }
}

/// How many digits stand behind the point.
pub fn scale(token: &[u8]) -> usize
    ensures value { result ≡ scale_of token.now }
    ensures short { result ≤ length token.now }
{
    match point(token) {
        Some(at) => token.len() - (at + 1),
        None => 0,
    }
}

fn point(token: &[u8]) -> Option<usize>
    ensures value { result ≡ position (λ b. b == 46) token.now }
    ensures within { IfSome result (λ at. at < length token.now) }
{
    token.iter().position(|byte| *byte == b'.')
}

fn is_negative(token: &[u8]) -> bool
    ensures { result ≡ (slice_index token.now 0 == 45) }
{
    match token {
        [first, ..] => *first == b'-',
        [] => false,
    }
}
