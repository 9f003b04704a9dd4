// A sum of values of at most 28 digits, and their mean.
ghost use Rattle.std.specs.Prelude.{◌≡◌, ◌+◌, ◌*◌, ◌/◌, ◌^◌, ◌<◌, ◌≤◌, pos, ◌+ℤ◌, ◌*ℤ◌, unsigned_abs};
ghost use Rattle.ts_expr.specs.Sums.{most_values};
ghost use Rattle.ts_expr.specs.Aggregates.{rounded};

use std::marker::Model;

/// What the mean of integers is multiplied by: it has six digits after the point.
const PARTS: i128 = 1_000_000;

/// How many values there were, and their sum.
#[derive(Debug, Drop)]
pub struct Sums {
    count: u64,
    sum: i128,
}

impl Model for Sums {
    ghost use Rattle.ts_expr.specs.Sums.{Sums, AreSmall};

    ghost Value = { Sums };

    ghost view = { λ s. record { count = s.count; sum = s.sum } };

    ghost invariant = { λ s. AreSmall (record { count = s.count; sum = s.sum }) };
}

impl Sums {
    /// No value.
    pub fn new() -> Sums
        ensures { result ≡ record { count = 0; sum = pos 0 } }
    {
        Sums { count: 0, sum: 0 }
    }

    /// How many values there were.
    pub fn count(&self) -> u64
        ensures { result ≡ self.now.count }
    {
        self.count
    }

    /// Their sum.
    pub fn sum(&self) -> i128
        ensures { result ≡ self.now.sum }
    {
        self.sum
    }

    /// One more value.
    pub fn add(&mut self, number: i128)
        requires few { self.old.count < 2 ^ 32 }
        requires digits { unsigned_abs number < 10 ^ 28 }
        ensures { self.new ≡ record { count = self.old.count + 1; sum = self.old.sum +ℤ number } }
    {
        self.count += 1;
        self.sum += number;
    }

    /// So many more values, with this sum.
    pub fn add_many(&mut self, count: u64, sum: i128)
        requires few { self.old.count + count ≤ 2 ^ 32 }
        requires digits { unsigned_abs sum ≤ count * 10 ^ 28 }
        ensures { self.new ≡ record { count = self.old.count + count; sum = self.old.sum +ℤ sum } }
    {
        self.count += count;
        self.sum += sum;
    }

    /// The mean with six more digits after the point, a half rounded away from zero: by quotient and remainder, since
    /// the sum times a million need not fit.
    pub fn mean(&self) -> i128
        requires few { self.now.count ≤ 2 ^ 32 }
        requires some { 0 < self.now.count }
        ensures { result ≡ rounded (self.now.sum *ℤ pos 1_000_000) self.now.count }
    {
        let size = mean_size(self.sum.unsigned_abs(), self.count as u128);
        if self.sum < 0 {
            -(size as i128)
        } else {
            size as i128
        }
    }
}

// A million times a size, divided by a count, a half rounded up.
fn mean_size(size: u128, count: u128) -> u128
    requires some { 0 < count }
    requires few { count ≤ most_values }
    requires small { size ≤ count * 10 ^ 28 }
    ensures value { result ≡ (2 * (size * 1_000_000) + count) / (2 * count) }
    ensures small { result ≤ 10 ^ 35 }
{
    let whole = size / count;
    let rest = size % count;
    whole * 1_000_000 + (2 * (rest * 1_000_000) + count) / (2 * count)
}
