// What a series is charged for its pages.
ghost use Rattle.std.specs.Prelude.{◌≡◌, ◌^◌, ◌<◌, ◌≤◌};
ghost use Rattle.std.specs.List.Sorted.{IsNonDecreasing};
ghost use Rattle.ts_space.specs.Charge.{regular_charge, irregular_charge};

/// The charge of a regular series, of which a page spans `r` offsets: how many pages its elements fall on.
pub fn charge_regular(offsets: &[u64], r: u64) -> u64
    requires rising { IsNonDecreasing offsets.now }
    requires span { 0 < r }
    ensures { result ≡ regular_charge r offsets.now }
{
    let mut charge = 0;
    let mut last = None;
    for offset in offsets {
        let page = *offset / r;
        if last != Some(page) {
            charge += 1;
        }
        last = Some(page);
    }
    charge
}

/// The charge of an irregular series of `n` elements, of which a page holds at most `q`: nothing for none, else one
/// less than twice as many pages as would do.
pub fn charge_irregular(n: u64, q: u64) -> u64
    requires elements { n ≤ 2 ^ 62 }
    requires page { 0 < q }
    ensures { result ≡ irregular_charge q n }
{
    if n == 0 {
        return 0;
    }
    2 * n.div_ceil(q) - 1
}
