// The free pages, so that taking and freeing can be undone at two levels and need no copy.
ghost use Rattle.std.specs.Prelude.{◌≡◌, ◌+◌, ◌≤◌, ◌<◌, ◌∷◌, ◌++◌, [], length, take, drop, reverse, IfOk, OnOk, OnErr};

use std::alloc::{AllocError, Global};
use std::marker::Model;

/// Numbers of free pages, which of them could be taken when they were last kept, and which when they were last kept
/// for good.
#[derive(Drop)]
pub(crate) struct FreeList {
    numbers: Vec<u32>,
    // Where the parts end: of those kept for good, what isn't taken, what the open batch took, and what others took;
    // of those freed since and kept, what isn't taken, and what the open batch took.
    low: usize,
    kept: usize,
    base: usize,
    freed: usize,
    saved: usize,
}

impl Model for FreeList {
    ghost use Rattle.ts_store.specs.FreeList.{FreePages, ArePlaced, free_pages};

    ghost Value = { FreePages };

    ghost view = { λ l. free_pages l.low l.kept l.base l.freed l.saved l.numbers.items };

    ghost invariant = { λ l. ArePlaced l.low l.kept l.base l.freed l.saved l.numbers.items };
}

impl FreeList {
    pub(crate) fn new(alloc: Global) -> FreeList
        ensures { result ≡ record { free = []; kept = []; base = [] } }
    {
        FreeList {
            numbers: Vec::new(alloc),
            low: 0,
            kept: 0,
            base: 0,
            freed: 0,
            saved: 0,
        }
    }

    /// These numbers, all kept for good.
    pub(crate) fn of(numbers: Vec<u32>) -> FreeList
        ensures { result ≡ record { free = numbers.items; kept = numbers.items; base = numbers.items } }
    {
        let mut numbers = numbers;
        numbers.reverse();
        let count = numbers.len();
        FreeList {
            numbers,
            low: count,
            kept: count,
            base: count,
            freed: count,
            saved: count,
        }
    }

    pub(crate) fn len(&self) -> usize
        ensures { result ≡ length self.now.free }
    {
        self.low + (self.freed - self.base) + (self.numbers.len() - self.saved)
    }

    /// The numbers that can be taken, the next one last, in memory of their own.
    pub(crate) fn copy(&self, alloc: Global) -> Result<Vec<u32>, AllocError>
        ensures { IfOk result (λ numbers. reverse numbers.items ≡ self.now.free) }
    {
        let mut numbers = Vec::new(alloc);
        numbers.extend_from_slice(&self.numbers[..self.low])?;
        numbers.extend_from_slice(&self.numbers[self.base..self.freed])?;
        numbers.extend_from_slice(&self.numbers[self.saved..])?;
        Ok(numbers)
    }

    pub(crate) fn push(&mut self, no: u32) -> Result<(), AllocError>
        ensures ok { OnOk result (self.new.free ≡ no ∷ self.old.free) }
        ensures err { OnErr result (self.new.free ≡ self.old.free) }
        ensures kept { self.new.kept ≡ self.old.kept }
        ensures base { self.new.base ≡ self.old.base }
    {
        self.numbers.push(no)?;
        Ok(())
    }

    pub(crate) fn pop(&mut self) -> u32
        requires { 0 < length self.old.free }
        ensures taken { self.old.free ≡ result ∷ self.new.free }
        ensures kept { self.new.kept ≡ self.old.kept }
        ensures base { self.new.base ≡ self.old.base }
    {
        if self.saved < self.numbers.len() {
            return match self.numbers.pop() {
                Some(no) => no,
                None => unreachable!(),
            };
        }
        if self.base < self.freed {
            self.freed -= 1;
            return self.numbers[self.freed];
        }
        self.low -= 1;
        self.numbers[self.low]
    }

    /// What can be taken now is kept, but not for good.
    pub(crate) fn keep(&mut self)
        ensures free { self.new.free ≡ self.old.free }
        ensures kept { self.new.kept ≡ self.old.free }
        ensures base { self.new.base ≡ self.old.base }
    {
        let taken = self.saved - self.freed;
        close_gap(&mut self.numbers, self.freed, taken);
        self.freed = self.numbers.len();
        self.saved = self.freed;
        self.kept = self.low;
    }

    /// What can be taken now is kept for good.
    pub(crate) fn keep_for_good(&mut self)
        ensures free { self.new.free ≡ self.old.free }
        ensures kept { self.new.kept ≡ self.old.free }
        ensures base { self.new.base ≡ self.old.free }
    {
        let taken = self.saved - self.freed;
        close_gap(&mut self.numbers, self.freed, taken);
        let taken = self.base - self.low;
        close_gap(&mut self.numbers, self.low, taken);
        let count = self.numbers.len();
        self.low = count;
        self.kept = count;
        self.base = count;
        self.freed = count;
        self.saved = count;
    }

    /// What was kept can be taken again.
    pub(crate) fn restore(&mut self)
        ensures free { self.new.free ≡ self.old.kept }
        ensures kept { self.new.kept ≡ self.old.kept }
        ensures base { self.new.base ≡ self.old.base }
    {
        self.numbers.truncate(self.saved);
        self.freed = self.saved;
        self.low = self.kept;
    }

    /// What was kept for good can be taken again.
    pub(crate) fn roll_back(&mut self)
        ensures free { self.new.free ≡ self.old.base }
        ensures kept { self.new.kept ≡ self.old.base }
        ensures base { self.new.base ≡ self.old.base }
    {
        let count = self.base;
        self.numbers.truncate(count);
        self.low = count;
        self.kept = count;
        self.freed = count;
        self.saved = count;
    }
}

// Removes so many numbers from this place on.
fn close_gap(numbers: &mut Vec<u32>, at: usize, gap: usize)
    requires { at + gap ≤ length numbers.old.items }
    ensures { numbers.new.items ≡ take at numbers.old.items ++ drop (at + gap) numbers.old.items }
{
    numbers[at..].rotate_left(gap);
    numbers.truncate(numbers.len() - gap);
}
