// The place of a session's transaction.
ghost use Rattle.std.specs.Prelude.{◌≡◌, ◌≤◌, [], Some, None, is_some, IsSome, IfSome, OnOk, true, length, drop};
ghost use Rattle.std.specs.Prelude.{position, ◌+◌, ◌<◌};
ghost use Rattle.ts_multi.specs.Log.{with_noted, conflict_of, conflict_after};
ghost use Rattle.ts_multi.specs.Objects.{meets};

use crate::commit::Commit;
use crate::object::Touched;
use std::alloc::{AllocError, Global};
use std::marker::Model;
use std::mem;

/// The transaction of a session, if one is open.
#[derive(Drop)]
pub(crate) struct Slot {
    // How many commits there were at its Begin.
    begun: Option<usize>,
    // What its accepted commands touched.
    noted: Vec<Touched>,
}

impl Model for Slot {
    ghost use Rattle.std.specs.Prelude.{vec_capacity, length, nat_lt};
    ghost use Rattle.ts_multi.specs.Slot.{Standing, pending_of};

    ghost Value = { Standing };

    ghost view = { λ s. record {
      pending = pending_of s.begun s.noted.items;
      room =
          nat_lt (length s.noted.items) (vec_capacity s.noted);
    } };
}

impl Slot {
    /// Without a transaction; it takes no memory.
    pub(crate) fn new(alloc: Global) -> Slot
        ensures { result.pending ≡ None }
    {
        Slot {
            begun: None,
            noted: Vec::new(alloc),
        }
    }

    /// Whether a transaction is open.
    pub(crate) fn is_open(&self) -> bool
        ensures { result ≡ is_some self.now.pending }
    {
        self.begun.is_some()
    }

    /// Opens a transaction behind so many commits.
    pub(crate) fn begin(&mut self, commits: usize)
        ensures pending { self.new.pending ≡ Some (record { begun = commits; noted = [] }) }
        ensures room { self.old.room ≡ true → self.new.room ≡ true }
    {
        self.noted.clear();
        self.begun = Some(commits);
    }

    /// Ends the transaction.
    pub(crate) fn end(&mut self)
        ensures { self.new ≡ record self.old { pending = None } }
    {
        self.begun = None;
    }

    /// Makes room for a command more.
    pub(crate) fn reserve(&mut self) -> Result<(), AllocError>
        ensures ok { OnOk result (self.new.room ≡ true) }
        ensures others { self.new.pending ≡ self.old.pending }
    {
        self.noted.reserve(1)
    }

    /// Notes an accepted command.
    pub(crate) fn note(&mut self, touched: Touched)
        requires { self.old.room ≡ true }
        ensures { self.new.pending ≡ with_noted touched self.old.pending }
    {
        self.noted.push_reserved(touched);
    }

    /// Ends the transaction, and gives what its commands touched.
    pub(crate) fn take(&mut self) -> Vec<Touched>
        requires { IsSome self.old.pending }
        ensures noted { IfSome self.old.pending (λ p. result.items ≡ p.noted) }
        ensures pending { self.new.pending ≡ None }
    {
        self.begun = None;
        let alloc = *self.noted.allocator();
        mem::replace(&mut self.noted, Vec::new(alloc))
    }

    /// The number of the first commit behind the Begin that wrote an object which the transaction writes or names;
    /// commits are counted from 1.
    pub(crate) fn conflict(&self, commits: &[Commit]) -> Option<u32>
        requires { length commits.now ≤ 4294967295 }
        ensures { result ≡ conflict_of self.now.pending commits.now }
    {
        let begun = self.begun?;
        conflict_after(commits, begun, self.noted.as_slice())
    }
}

// The number of the first commit behind so many that wrote an object which one of these commands wrote or named.
fn conflict_after(commits: &[Commit], begun: usize, noted: &[Touched]) -> Option<u32>
    requires { length commits.now ≤ 4294967295 }
    ensures { result ≡ conflict_after begun noted.now commits.now }
{
    match first_meeting(commits, begun, noted) {
        Some(place) => Some((begun + 1 + place) as u32),
        None => None,
    }
}

// Its place behind these.
fn first_meeting(commits: &[Commit], begun: usize, noted: &[Touched]) -> Option<usize>
    ensures value { result ≡ position (λ wrote. meets wrote noted.now) (drop begun commits.now) }
    ensures within { IfSome result (λ place. begun + place < length commits.now) }
{
    commits
        .iter()
        .skip(begun)
        .position(|commit| commit.meets(noted))
}
