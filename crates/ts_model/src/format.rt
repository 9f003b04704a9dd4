// The format of a volume: what its rows may be.

/// The format of older volumes: no element is hidden, and no decimal has over 18 digits.
pub const OLD_FORMAT: u8 = 1;

/// The newest format, which a new volume has.
pub const FORMAT: u8 = 2;
