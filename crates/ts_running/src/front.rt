// The tokens of expressions.
ghost use Rattle.std.specs.Prelude.{◌≡◌, ◌≤◌, IfSome, length};
ghost use Rattle.ts_running.specs.Grammar.{is_operator, expr_front};

use ts_text::{TokenKind, plain_front};

/// The token that stands in front, if one does: its kind and its length.
#[tactic(auto, unfolding(crate::specs::Grammar::expr_front))]
pub(crate) fn expr_front(bytes: &[u8]) -> Option<(TokenKind, usize)>
    ensures value { result ≡ expr_front bytes.now }
    ensures within { IfSome result (λ token. token.1 ≤ length bytes.now) }
{
    let [first, ..] = bytes else {
        return None;
    };
    if is_operator(*first) {
        return Some((TokenKind::Sign, 1));
    }
    plain_front(bytes)
}

fn is_operator(byte: u8) -> bool
    ensures { result ≡ is_operator byte }
{
    matches!(byte, b'+' | b'-' | b'*')
}
