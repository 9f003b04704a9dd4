ghost use Rattle.std.specs.Prelude.{◌≡◌, ◌<◌, ◌≤◌};
ghost use Rattle.std.specs.Int.{IsGcd};
ghost use Rattle.ts_pattern.specs.Patterns.{least_common_multiple};

// The least common multiple of two positive numbers.
pub(crate) fn common_multiple(a: u64, b: u64) -> u128
    requires { (0 < a) × (0 < b) }
    ensures value { result ≡ least_common_multiple a b }
    ensures some { 0 < result }
    ensures left { a ≤ result }
    ensures right { b ≤ result }
{
    let divisor = common_divisor(a, b);
    (a / divisor) as u128 * b as u128
}

// The greatest common divisor of two positive numbers.
fn common_divisor(a: u64, b: u64) -> u64
    requires { 0 < a }
    ensures divisor { IsGcd a b result }
    ensures some { 0 < result }
{
    let (mut x, mut y) = (a, b);
    while y != 0 {
        let rest = x % y;
        x = y;
        y = rest;
    }
    x
}
