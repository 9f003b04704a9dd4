// The keys of a rolling set's series.
ghost use Rattle.std.specs.Prelude.{◌≡◌, ℕ, ◌==◌, ◌+◌, ◌^◌, ◌<◌, ◌≤◌, ◌↔◌, ◌++◌, Some, length, IfOk, IsTrue};
ghost use Rattle.ts_base.specs.Name.{is_text, is_key};
ghost use Rattle.ts_base.specs.Moment.{all_digits, number_of};
ghost use Rattle.ts_rolling.specs.Sets.{is_set, numbered_key, window_key, control_key, digits_of, read_number};
ghost use Rattle.ts_rolling.specs.Sets.{read_window, kept_number, read_control, number_in};
ghost use Rattle.std.specs.List.{list_any};
ghost use Rattle.arrayvec.specs.ArrayVec.{array_vec_len};

use arrayvec::ArrayVec;
use std::alloc::{AllocError, Global};
use ts_base::{KEY_BYTES, Key};

/// The most bytes of a set's key.
const SET_BYTES: usize = 40;

/// The digits of a window's number, and of the number of windows that are kept.
const WINDOW_DIGITS: u32 = 12;

const KEPT_DIGITS: u32 = 4;

/// The most windows that a set keeps.
const MOST_KEPT: u64 = 1000;

/// Whether a set may have this key: one of at most 40 bytes without `#`.
pub fn is_set(text: &Key) -> bool
    ensures { result ≡ is_set text.now }
{
    let text = text.as_slice();
    text.len() <= SET_BYTES && !has_sign(text)
}

// Whether a text has a `#`.
fn has_sign(text: &[u8]) -> bool
    ensures { result ≡ list_any (λ c. c == 35) text.now }
{
    text.contains(&b'#')
}

/// The key of a window of a set.
pub fn window_key(alloc: Global, set: &Key, window: u64) -> Result<Key, AllocError>
    requires short { length set.now ≤ 40 }
    requires few { window < 1_000_000_000_000 }
    ensures { IfOk result (λ key. key ≡ window_key set.now window) }
{
    numbered_key(alloc, set, b"#", WINDOW_DIGITS, window)
}

/// The key of the control of a set that keeps so many windows, 1 to 1000.
pub fn control_key(alloc: Global, set: &Key, n: u16) -> Result<Key, AllocError>
    requires short { length set.now ≤ 40 }
    requires most { (1 ≤ n) × (n ≤ 1000) }
    ensures { IfOk result (λ key. key ≡ control_key set.now n) }
{
    numbered_key(alloc, set, b"#w", KEPT_DIGITS, n as u64)
}

// A set's key, a sign and a number in so many digits, as a key.
fn numbered_key(
    alloc: Global,
    set: &Key,
    sign: &[u8],
    width: u32,
    number: u64,
) -> Result<Key, AllocError>
    requires fits { length set.now + length sign.now + width ≤ 64 }
    requires digits { width ≤ 12 }
    requires text { IsTrue (is_text sign.now) }
    requires few { number < 10 ^ width }
    ensures { IfOk result (λ key. key ≡ numbered_key sign.now width set.now number) }
{
    let mut text: ArrayVec<u8, KEY_BYTES> = ArrayVec::new();
    let set = set.as_slice();
    push_all(&mut text, set);
    push_all(&mut text, sign);
    push_digits(&mut text, width, number);
    let bytes = text.as_slice();
    key_of(alloc, bytes)
}

// The key with these bytes.
fn key_of(alloc: Global, text: &[u8]) -> Result<Key, AllocError>
    requires { IsTrue (is_key text.now) }
    ensures { IfOk result (λ key. key ≡ text.now) }
{
    match Key::read(alloc, text)? {
        Some(key) => Ok(key),
        None => unreachable!(),
    }
}

// Puts bytes to the end.
fn push_all(text: &mut ArrayVec<u8, KEY_BYTES>, bytes: &[u8])
    requires { array_vec_len text.old + length bytes.now ≤ 64 }
    ensures items { text.new.items ≡ text.old.items ++ bytes.now }
    ensures len { array_vec_len text.new ≡ array_vec_len text.old + length bytes.now }
{
    if text.try_extend_from_slice(bytes).is_err() {
        unreachable!();
    }
}

// Puts the digits of a number to the end, so many.
fn push_digits(text: &mut ArrayVec<u8, KEY_BYTES>, width: u32, number: u64)
    requires room { array_vec_len text.old + width ≤ 64 }
    requires digits { width ≤ 12 }
    requires few { number < 10 ^ width }
    ensures { text.new.items ≡ text.old.items ++ digits_of width number }
{
    let mut left = width;
    let mut rest = number;
    while left > 0 {
        left -= 1;
        let power = 10u64.pow(left);
        text.push(b'0' + (rest / power) as u8);
        rest %= power;
    }
}

/// The number of the window of a set whose key this is, if it is one's.
pub fn read_window(key: &Key, set: &Key) -> Option<u64>
    ensures value { result ≡ read_window key.now set.now }
    ensures form { (j : ℕ) → (result ≡ Some j) ↔ ((j < 1_000_000_000_000) × (key.now ≡ window_key set.now j)) }
{
    read_number(key.as_slice(), set.as_slice(), b"#", WINDOW_DIGITS)
}

/// How many windows a set keeps whose control has this key, 1 to 1000, if it is a control's.
pub fn read_control(key: &Key, set: &Key) -> Option<u16>
    ensures value { result ≡ read_control key.now set.now }
    ensures form { (n : ℕ) → (result ≡ Some n) ↔ ((1 ≤ n) × (n ≤ 1000) × (key.now ≡ control_key set.now n)) }
{
    match read_number(key.as_slice(), set.as_slice(), b"#w", KEPT_DIGITS) {
        Some(n) => kept_number(n),
        None => None,
    }
}

// A number of windows that a set may keep.
fn kept_number(n: u64) -> Option<u16>
    ensures { result ≡ kept_number n }
{
    if 1 <= n && n <= MOST_KEPT {
        Some(n as u16)
    } else {
        None
    }
}

// The number of a key behind a set's key and a sign, in so many digits.
fn read_number(key: &[u8], set: &[u8], sign: &[u8], width: u32) -> Option<u64>
    requires { width ≤ 12 }
    ensures { result ≡ read_number sign.now width key.now set.now }
{
    let rest = key.strip_prefix(set)?;
    let digits = rest.strip_prefix(sign)?;
    number_in(digits, width)
}

// The number that so many digits write.
fn number_in(text: &[u8], width: u32) -> Option<u64>
    requires { width ≤ 12 }
    ensures { result ≡ number_in width text.now }
{
    if text.len() == width as usize && are_digits(text) {
        Some(number_of(text))
    } else {
        None
    }
}

// Whether all bytes are digits.
fn are_digits(text: &[u8]) -> bool
    ensures { result ≡ all_digits text.now }
{
    text.iter().all(|c| c.is_ascii_digit())
}

// The number that at most twelve digits write.
fn number_of(text: &[u8]) -> u64
    requires digits { IsTrue (all_digits text.now) }
    requires short { length text.now ≤ 12 }
    ensures { result ≡ number_of text.now }
{
    let mut n: u64 = 0;
    for c in text {
        n = n * 10 + (*c - b'0') as u64;
    }
    n
}
