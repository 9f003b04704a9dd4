// The mark of a row in its first byte.
ghost use Rattle.std.specs.Prelude.{◌≡◌, ◌+◌};
ghost use Rattle.ts_row.specs.Encoding.{mark_byte};
ghost use Rattle.ts_row.specs.Decoding.{is_mark, unmarked};

/// What is added to the first byte of a hidden row.
pub const MARK: u8 = 2;

/// Whether a first byte is a hidden row's.
pub(crate) fn is_mark(byte: u8) -> bool
    ensures { result ≡ is_mark byte }
{
    byte >= MARK
}

/// A first byte without the mark.
pub(crate) fn unmarked(byte: u8) -> u8
    ensures { result ≡ unmarked byte }
{
    if is_mark(byte) { byte - MARK } else { byte }
}

/// A first byte with this mark in place of its own.
pub(crate) fn remarked(byte: u8, hidden: bool) -> u8
    ensures { result ≡ unmarked byte + mark_byte hidden }
{
    let byte = unmarked(byte);
    if hidden { byte + MARK } else { byte }
}
