// Blanks between tokens.
ghost use Rattle.std.specs.Prelude.{◌≡◌, ◌≤◌, length};
ghost use Rattle.ts_text.specs.Phrase.{unblanked};

use ts_base::is_blank;

/// The bytes without the blanks in front.
pub fn skip_blanks(bytes: &[u8]) -> &[u8]
    ensures value { result.now ≡ unblanked bytes.now }
    ensures shorter { length result.now ≤ length bytes.now }
{
    let mut rest = bytes;
    while let [first, more @ ..] = rest {
        if !is_blank(*first) {
            break;
        }
        rest = more;
    }
    rest
}
