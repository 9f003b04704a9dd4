ghost use Rattle.std.specs.Prelude.{◌≡◌, IfOk, IsTrue};
ghost use Rattle.std.specs.List.{list_all};
ghost use Rattle.ts_base.specs.Name.{begins_word, continues_word, is_word, is_name, is_blank, is_text_byte, is_text};
ghost use Rattle.ts_base.specs.Name.{is_key, name_if_any, key_if_any};

use crate::Bytes;
use std::alloc::{AllocError, Global};
use std::marker::Model;

/// The most bytes of a name.
pub const NAME_BYTES: usize = 32;

/// The most bytes of a key.
pub const KEY_BYTES: usize = 64;

/// What an object of the store is called: a word of 1 to 32 bytes.
#[derive(Debug, Drop)]
pub struct Name {
    text: Bytes,
}

impl Model for Name {
    ghost use Rattle.std.specs.Prelude.{ℕ, List, IsTrue};
    ghost use Rattle.ts_base.specs.Name.{is_name};

    ghost Value = { List ℕ };

    ghost view = { λ n. n.text };

    ghost invariant = { λ n. IsTrue (is_name n.text) };
}

impl Name {
    /// The name with these bytes, if they are a name's.
    pub fn read(alloc: Global, text: &[u8]) -> Result<Option<Name>, AllocError>
        ensures { IfOk result (λ found. found ≡ name_if_any text.now) }
    {
        if !is_name(text) {
            return Ok(None);
        }
        Ok(Some(Name {
            text: Bytes::from_slice(alloc, text)?,
        }))
    }

    pub fn as_slice(&self) -> &[u8]
        ensures value { result.now ≡ self.now }
        ensures form { IsTrue (is_name self.now) }
    {
        self.text.as_slice()
    }

    pub fn copy(&self) -> Result<Self, AllocError>
        ensures { IfOk result (λ made. made ≡ self.now) }
    {
        Ok(Name {
            text: self.text.copy()?,
        })
    }
}

/// What a series is called: 1 to 64 bytes of a text.
#[derive(Debug, Drop)]
pub struct Key {
    text: Bytes,
}

impl Model for Key {
    ghost use Rattle.std.specs.Prelude.{ℕ, List, IsTrue};
    ghost use Rattle.ts_base.specs.Name.{is_key};

    ghost Value = { List ℕ };

    ghost view = { λ k. k.text };

    ghost invariant = { λ k. IsTrue (is_key k.text) };
}

impl Key {
    /// The key with these bytes, if they are a key's.
    pub fn read(alloc: Global, text: &[u8]) -> Result<Option<Key>, AllocError>
        ensures { IfOk result (λ found. found ≡ key_if_any text.now) }
    {
        if !is_key(text) {
            return Ok(None);
        }
        Ok(Some(Key {
            text: Bytes::from_slice(alloc, text)?,
        }))
    }

    pub fn as_slice(&self) -> &[u8]
        ensures value { result.now ≡ self.now }
        ensures form { IsTrue (is_key self.now) }
    {
        self.text.as_slice()
    }

    pub fn copy(&self) -> Result<Self, AllocError>
        ensures { IfOk result (λ made. made ≡ self.now) }
    {
        Ok(Key {
            text: self.text.copy()?,
        })
    }
}

// A word of at most 32 bytes.
fn is_name(text: &[u8]) -> bool
    ensures { result ≡ is_name text.now }
{
    is_word(text) && text.len() <= NAME_BYTES
}

/// A letter or `_`, then letters, digits and `_`.
pub fn is_word(text: &[u8]) -> bool
    ensures { result ≡ is_word text.now }
{
    let Some((first, rest)) = text.split_first() else {
        return false;
    };
    begins_word(*first) && all_continue_word(rest)
}

// Letters, digits and `_`.
fn all_continue_word(text: &[u8]) -> bool
    ensures { result ≡ list_all continues_word text.now }
{
    text.iter().all(|byte| continues_word(*byte))
}

/// A letter or `_`.
pub fn begins_word(byte: u8) -> bool
    ensures { result ≡ begins_word byte }
{
    byte.is_ascii_alphabetic() || byte == b'_'
}

/// A letter, a digit or `_`.
pub fn continues_word(byte: u8) -> bool
    ensures { result ≡ continues_word byte }
{
    begins_word(byte) || byte.is_ascii_digit()
}

// 1 to 64 bytes of a text.
fn is_key(text: &[u8]) -> bool
    ensures { result ≡ is_key text.now }
{
    !text.is_empty() && text.len() <= KEY_BYTES && is_text(text)
}

/// Bytes that a text may have.
pub fn is_text(bytes: &[u8]) -> bool
    ensures { result ≡ is_text bytes.now }
{
    bytes.iter().all(|byte| is_text_byte(*byte))
}

/// A space, a tab, a carriage return or a line feed.
pub fn is_blank(byte: u8) -> bool
    ensures { result ≡ is_blank byte }
{
    matches!(byte, b' ' | b'\t' | b'\r' | b'\n')
}

/// None of the bytes below 0x20, and not 0x7F.
pub fn is_text_byte(byte: u8) -> bool
    ensures { result ≡ is_text_byte byte }
{
    byte >= 0x20 && byte != 0x7f
}
