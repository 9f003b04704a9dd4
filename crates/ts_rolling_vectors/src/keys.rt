// Keys of windows and controls.
use std::alloc::Global;
use ts_base::Key;
use ts_rolling::{control_key, is_set, read_control, read_window, window_key};

/// A key of 40 bytes, and one of 41.
const LONGEST: &[u8] = b"0123456789012345678901234567890123456789";

const TOO_LONG: &[u8] = b"01234567890123456789012345678901234567890";

/// A set, the number of a window of it, and that window's key.
static WINDOWS: [(&[u8], u64, &[u8]); 5] = [
    (b"k", 0, b"k#000000000000"),
    (b"k", 2, b"k#000000000002"),
    (b"meter 7", 120_345, b"meter 7#000000120345"),
    (b"w0001", 999_999_999_999, b"w0001#999999999999"),
    (
        LONGEST,
        10,
        b"0123456789012345678901234567890123456789#000000000010",
    ),
];

/// A set, how many windows it keeps, and its control's key.
static CONTROLS: [(&[u8], u16, &[u8]); 4] = [
    (b"k", 1, b"k#w0001"),
    (b"k", 13, b"k#w0013"),
    (b"meter 7", 1000, b"meter 7#w1000"),
    (
        LONGEST,
        999,
        b"0123456789012345678901234567890123456789#w0999",
    ),
];

/// Keys that are those of no window and of no control of the set k.
static OTHERS: [&[u8]; 14] = [
    b"k",
    b"k#",
    b"k#w0000",
    b"k#w1001",
    b"k#w001",
    b"k#w00001",
    b"k#W0001",
    b"k#00000000000",
    b"k#0000000000000",
    b"k#00000000000a",
    b"k#00000000000 ",
    b"j#000000000001",
    b"kk#000000000001",
    b"k##000000000001",
];

static SETS: [(&[u8], bool); 6] = [
    (b"k", true),
    (LONGEST, true),
    (TOO_LONG, false),
    (b"k#", false),
    (b"#", false),
    (b"meter 7", true),
];

fn key(alloc: Global, text: &[u8]) -> Option<Key> {
    match Key::read(alloc, text) {
        Ok(key) => key,
        Err(_) => None,
    }
}

// A window's key is this text, and is read as the window.
fn is_window(alloc: Global, set: &[u8], window: u64, text: &[u8]) -> Option<bool> {
    let set = key(alloc, set)?;
    if set.as_slice().len() > 40 || window >= 1_000_000_000_000 {
        return None;
    }
    let made = window_key(alloc, &set, window).ok()?;
    Some(
        made.as_slice() == text
            && read_window(&made, &set) == Some(window)
            && read_control(&made, &set).is_none(),
    )
}

fn is_control(alloc: Global, set: &[u8], n: u16, text: &[u8]) -> Option<bool> {
    let set = key(alloc, set)?;
    if set.as_slice().len() > 40 || n < 1 || n > 1000 {
        return None;
    }
    let made = control_key(alloc, &set, n).ok()?;
    Some(
        made.as_slice() == text
            && read_control(&made, &set) == Some(n)
            && read_window(&made, &set).is_none(),
    )
}

fn is_neither(alloc: Global, text: &[u8]) -> Option<bool> {
    let set = key(alloc, b"k")?;
    let other = key(alloc, text)?;
    Some(read_control(&other, &set).is_none() && read_window(&other, &set).is_none())
}

#[test]
fn a_window_has_its_key(rt: HostRuntime) {
    for (set, window, text) in &WINDOWS {
        assert!(rt; is_window(rt.alloc(), set, *window, text) == Some(true));
    }
}

#[test]
fn a_control_has_its_key(rt: HostRuntime) {
    for (set, n, text) in &CONTROLS {
        assert!(rt; is_control(rt.alloc(), set, *n, text) == Some(true));
    }
}

#[test]
fn other_keys_are_neither(rt: HostRuntime) {
    for text in &OTHERS {
        assert!(rt; is_neither(rt.alloc(), text) == Some(true));
    }
}

#[test]
fn a_set_has_a_short_key_without_a_sign(rt: HostRuntime) {
    for (text, good) in &SETS {
        assert!(rt; key(rt.alloc(), text).map(|k| is_set(&k)) == Some(*good));
    }
}
