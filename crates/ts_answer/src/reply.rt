// What a reply tells by its last line.
ghost use Rattle.std.specs.Prelude.{◌≡◌};
ghost use Rattle.ts_answer.specs.Outcomes.{ends_with_ok, last_line};

/// Whether the last line of a reply begins with `ok`.
#[tactic(auto, unfolding(crate::specs::Outcomes::ends_with_ok))]
pub fn ends_with_ok(reply: &[u8]) -> bool
    ensures { result ≡ ends_with_ok reply.now }
{
    last_line(reply).starts_with(b"ok")
}

// The last line of a text.
fn last_line(text: &[u8]) -> &[u8]
    ensures { result.now ≡ last_line text.now }
{
    let mut line = text;
    let mut rest = text;
    while let [byte, more @ ..] = rest {
        if *byte == b'\n' && !more.is_empty() {
            line = more;
        }
        rest = more;
    }
    line
}
