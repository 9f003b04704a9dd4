// Signs, and the end of a text.
ghost use Rattle.std.specs.Prelude.{◌≡◌, ◌<◌, [], Ok, Err, IfOk, IfErr, IfSome, IfNone, length};
ghost use Rattle.ts_text.specs.Phrase.{unblanked, a_sign, the_end};
ghost use Rattle.ts_text.specs.Misfit.{RefusesExactly};

use crate::blanks::skip_blanks;
use crate::misfit::Misfit;

/// The bytes behind this sign, if it stands there.
#[tactic(auto, unfolding(crate::specs::Phrase::a_sign))]
pub fn behind_sign(bytes: &[u8], wanted: u8) -> Option<&[u8]>
    ensures some { IfSome result (λ rest. a_sign wanted bytes.now ≡ Ok (tt, rest.now)) }
    ensures none { IfNone result (a_sign wanted bytes.now ≡ Err (length (unblanked bytes.now))) }
    ensures shorter { IfSome result (λ rest. length rest.now < length bytes.now) }
{
    match skip_blanks(bytes) {
        [first, rest @ ..] if *first == wanted => Some(rest),
        _ => None,
    }
}

/// The bytes behind this sign.
pub fn read_sign(bytes: &[u8], wanted: u8) -> Result<&[u8], Misfit>
    ensures ok { IfOk result (λ rest. a_sign wanted bytes.now ≡ Ok (tt, rest.now)) }
    ensures cause { IfErr result (λ misfit. RefusesExactly misfit (a_sign wanted bytes.now)) }
    ensures shorter { IfOk result (λ rest. length rest.now < length bytes.now) }
{
    match behind_sign(bytes, wanted) {
        Some(rest) => Ok(rest),
        None => Err(Misfit::here(skip_blanks(bytes))),
    }
}

/// What ends a text, and nothing behind it.
#[tactic(auto, unfolding(crate::specs::Phrase::the_end))]
pub fn read_end(bytes: &[u8], ending: &[u8]) -> Result<(), Misfit>
    ensures ok { IfOk result (λ done. the_end ending.now bytes.now ≡ Ok (tt, [])) }
    ensures cause { IfErr result (λ misfit. RefusesExactly misfit (the_end ending.now bytes.now)) }
{
    let here = skip_blanks(bytes);
    if here == ending {
        return Ok(());
    }
    Err(Misfit::here(here))
}
