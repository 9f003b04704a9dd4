// Whether bytes are zeros, told of many at a time.
ghost use Rattle.std.specs.Prelude.{◌≡◌, ◌↔◌, ◌==◌, IsTrue, length, replicate};
ghost use Rattle.ts_row.specs.Decoding.{all_zero};

/// Zeros and nothing else.
pub fn is_zero(bytes: &[u8]) -> bool
    ensures ok { result ≡ all_zero bytes.now }
    ensures zeros { IsTrue result ↔ (bytes.now ≡ replicate (length bytes.now) 0) }
{
    greatest(bytes) == 0
}

// The greatest byte; 0 of none. Each byte is looked at, so that a processor takes sixteen at once.
fn greatest(bytes: &[u8]) -> u8
    ensures { (result == 0) ≡ all_zero bytes.now }
{
    let mut greatest = 0;
    for byte in bytes {
        greatest = greatest.max(*byte);
    }
    greatest
}
