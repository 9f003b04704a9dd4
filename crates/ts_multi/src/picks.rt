// The picks that a seed gives.
ghost use Rattle.std.specs.Prelude.{◌≡◌, ◌<◌, ◌+◌, ◌*◌, ◌%◌, IfOk};
ghost use Rattle.ts_multi.specs.Picks.{drawn, picks_of};

use std::alloc::{AllocError, Global};

/// The first `count` picks of a seed.
pub fn picks_of(alloc: Global, seed: u32, count: usize) -> Result<Vec<u32>, AllocError>
    ensures { IfOk result (λ v. v.items ≡ picks_of seed count) }
{
    let mut picks = Vec::with_capacity(alloc, count)?;
    let mut last = first_drawn(seed);
    for _index in 0..count {
        last = next_drawn(last);
        picks.push((last / 1000) as u32)?;
    }
    Ok(picks)
}

// The number drawn first, of a seed.
#[tactic(auto, unfolding(crate::specs::Picks::drawn))]
fn first_drawn(seed: u32) -> u64
    ensures value { result ≡ drawn seed 0 }
    ensures bound { result < 2147483648 }
{
    seed as u64 % 2_147_483_648
}

// The number drawn behind this one.
fn next_drawn(last: u64) -> u64
    requires { last < 2147483648 }
    ensures value { result ≡ (1103515245 * last + 12345) % 2147483648 }
    ensures bound { result < 2147483648 }
{
    (1_103_515_245 * last + 12_345) % 2_147_483_648
}
