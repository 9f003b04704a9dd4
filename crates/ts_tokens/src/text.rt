// What a text token says: its bytes, with each doubled quote as one.
ghost use Rattle.std.specs.Prelude.{◌≡◌, ◌==◌, ◌&&◌, ◌≤◌, ◌++◌, IfOk, length, drop, slice_index, if◌then◌else◌};
ghost use Rattle.std.specs.List.{list_any};
ghost use Rattle.ts_base.specs.Name.{key_if_any};
ghost use Rattle.ts_base.specs.Moment.{read_stamp};
ghost use Rattle.ts_tokens.specs.Tokens.{undoubled, between_quotes, said};

use std::alloc::{AllocError, Global};
use ts_base::{Bytes, Key, Stamp};

/// The bytes that a text token says.
#[tactic(auto, using(crate::proofs::TextLemmas::unquoted))]
pub fn bytes_of(alloc: Global, token: &[u8]) -> Result<Bytes, AllocError>
    ensures { IfOk result (λ bytes. bytes ≡ said token.now) }
{
    let raw = between_quotes(token);
    if has_quote(raw) {
        return undoubled(alloc, raw);
    }
    Bytes::from_slice(alloc, raw)
}

/// The key that a text token says, if it says one.
#[tactic(auto, using(crate::proofs::TextLemmas::unquoted))]
pub fn key_of(alloc: Global, token: &[u8]) -> Result<Option<Key>, AllocError>
    ensures { IfOk result (λ key. key ≡ key_if_any (said token.now)) }
{
    let raw = between_quotes(token);
    if has_quote(raw) {
        let bytes = undoubled(alloc, raw)?;
        return Key::read(alloc, bytes.as_slice());
    }
    Key::read(alloc, raw)
}

/// The stamp that a text token says, if it says one.
#[tactic(auto, using(crate::proofs::TextLemmas::unquoted))]
pub fn stamp_of(alloc: Global, token: &[u8]) -> Result<Option<Stamp>, AllocError>
    ensures { IfOk result (λ stamp. stamp ≡ read_stamp (said token.now)) }
{
    let raw = between_quotes(token);
    if has_quote(raw) {
        let bytes = undoubled(alloc, raw)?;
        return Ok(Stamp::read(bytes.as_slice()));
    }
    Ok(Stamp::read(raw))
}

fn between_quotes(token: &[u8]) -> &[u8]
    ensures { result.now ≡ between_quotes token.now }
{
    match token.len() {
        0 | 1 => &[],
        length => &token[1..length - 1],
    }
}

fn has_quote(raw: &[u8]) -> bool
    ensures { result ≡ list_any (λ b. b == 39) raw.now }
{
    raw.iter().any(|byte| *byte == b'\'')
}

fn undoubled(alloc: Global, raw: &[u8]) -> Result<Bytes, AllocError>
    ensures { IfOk result (λ bytes. bytes ≡ undoubled raw.now) }
{
    let mut bytes = Bytes::new(alloc);
    let mut rest = raw;
    while let [first, more @ ..] = rest {
        bytes.push(*first)?;
        rest = behind_byte(*first, more);
    }
    Ok(bytes)
}

// The bytes behind a byte; behind a doubled quote, those behind its second half.
fn behind_byte(byte: u8, more: &[u8]) -> &[u8]
    ensures value { result.now ≡ (if byte == 39 && slice_index more.now 0 == 39 then drop 1 more.now else more.now) }
    ensures shorter { length result.now ≤ length more.now }
{
    if byte == b'\'' {
        if let [b'\'', behind @ ..] = more {
            return behind;
        }
    }
    more
}
