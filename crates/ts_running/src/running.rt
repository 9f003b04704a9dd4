// A running sum.
ghost use Rattle.std.specs.Prelude.{◌≡◌, [], ◌<◌, ◌≤◌, ◌*◌, ◌^◌, unsigned_abs, IfOk, IfSome};
ghost use Rattle.ts_running.specs.Rows.{window, after_push, sum_of, count_of, mean_of, number_of, tally_of, IsSmall};
ghost use Rattle.ts_running.specs.Rows.{IsWindow};

use circular_buffer::HeapCircularBuffer;
use std::alloc::{AllocError, Global};
use std::marker::Model;
use ts_expr::Sums;

/// The last values, a `None` for a place that has none, with their sum and their number.
#[derive(Drop)]
pub struct Running {
    values: HeapCircularBuffer<Option<i128>>,
    total: i128,
    count: u32,
}

impl Model for Running {
    ghost use Rattle.std.specs.Prelude.{◌≡◌, length};
    ghost use Rattle.ts_running.specs.Rows.{Window, window, total_of, count_of, IsWindow};

    ghost Value = { Window };

    ghost view = { λ r. window r.values.items r.values.capacity };

    ghost invariant = { λ r. IsWindow (window r.values.items r.values.capacity)
        × (r.total ≡ total_of r.values.items) × (r.count ≡ count_of r.values.items) };
}

impl Running {
    /// A window of `n` places, which are all empty.
    pub fn new(alloc: Global, n: u32) -> Result<Running, AllocError>
        requires { (1 ≤ n) × (n ≤ 65536) }
        ensures ok { IfOk result (λ running. running ≡ window [] n) }
    {
        let values = HeapCircularBuffer::with_capacity(alloc, n as usize)?;
        Ok(Running {
            values,
            total: 0,
            count: 0,
        })
    }

    /// Takes in a value, or a place without one. A full window gives up its oldest place.
    pub fn push(&mut self, value: Option<i128>)
        requires { IfSome value IsSmall }
        ensures ok { self.new ≡ after_push value self.old }
        ensures lawful { IsWindow self.new }
    {
        let oldest = self.values.push_back(value).unwrap_or(None);
        self.total = self.total + number(value) - number(oldest);
        self.count = self.count + tally(value) - tally(oldest);
    }

    /// The sum of the values in the window, if it has one.
    pub fn sum(&self) -> Option<i128>
        ensures value { result ≡ sum_of self.now.values }
        ensures small { IfSome result (λ sum. unsigned_abs sum ≤ count_of self.now.values * 10 ^ 28) }
    {
        if self.count == 0 {
            None
        } else {
            Some(self.total)
        }
    }

    /// The mean of the values in the window, if it has one, with six more digits after the point than they have; a half
    /// is rounded away from zero.
    pub fn mean(&self) -> Option<i128>
        ensures { result ≡ mean_of self.now.values }
    {
        let sum = self.sum()?;
        let mut sums = Sums::new();
        sums.add_many(u64::from(self.count), sum);
        Some(sums.mean())
    }

    /// How many places of the window have a value.
    pub fn count(&self) -> u32
        ensures { result ≡ count_of self.now.values }
    {
        self.count
    }
}

// What a place adds to the sum.
fn number(place: Option<i128>) -> i128
    ensures { result ≡ number_of place }
{
    place.unwrap_or(0)
}

// What a place adds to the number of values.
fn tally(place: Option<i128>) -> u32
    ensures { result ≡ tally_of place }
{
    u32::from(place.is_some())
}
