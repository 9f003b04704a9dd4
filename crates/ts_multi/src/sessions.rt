// The transactions of sessions, and the commits that stand in their way.
ghost use Rattle.std.specs.Prelude.{◌≡◌, ◌<◌, IsSome, is_some, None, IsOk, IfOk, OnOk, OnErr, true, map, length};
ghost use Rattle.std.specs.Prelude.{replicate};
ghost use Rattle.std.specs.List.{AllPass};
ghost use Rattle.ts_multi.specs.Log.{start, pending_at, after_begin, after_end, after_note, after_commit, with_commit};
ghost use Rattle.ts_multi.specs.Log.{conflict_of};

use crate::commit::Commit;
use crate::object::Touched;
use crate::slot::Slot;
use std::alloc::{AllocError, Global};
use std::marker::Model;

/// What each commit wrote, and what the open transaction of each session wrote and named. It keeps no catalogue.
#[derive(Drop)]
pub struct Sessions {
    commits: Vec<Commit>,
    slots: Vec<Slot>,
    // There is room for a step more, in each place.
    room: bool,
}

impl Model for Sessions {
    ghost use Rattle.std.specs.Prelude.{vec_capacity, map};
    ghost use Rattle.ts_multi.specs.Log.{Log};
    ghost use Rattle.ts_multi.specs.Slot.{IsKept};

    ghost Value = { Log };

    ghost view = { λ s. record {
      commits = s.commits.items;
      sessions = map (λ slot. slot.pending) s.slots.items;
      room =
          s.room;
    } };

    ghost invariant = { λ s. IsKept s.commits.items s.slots.items s.room (vec_capacity s.commits) };
}

impl Sessions {
    /// So many sessions without a transaction, and no commits.
    pub fn new(alloc: Global, count: usize) -> Result<Sessions, AllocError>
        ensures { IfOk result (λ s. s ≡ start count) }
    {
        Ok(Sessions {
            commits: Vec::new(alloc),
            slots: slots(alloc, count)?,
            room: false,
        })
    }

    /// Opens a transaction.
    pub fn begin(&mut self, session: usize)
        requires session { session < length self.old.sessions }
        requires closed { pending_at session self.old ≡ None }
        ensures { self.new ≡ after_begin session self.old }
    {
        let commits = self.commits.len();
        self.slots[session].begin(commits);
    }

    /// Ends a transaction without a commit.
    pub fn end(&mut self, session: usize)
        requires session { session < length self.old.sessions }
        requires open { IsSome (pending_at session self.old) }
        ensures { self.new ≡ after_end session self.old }
    {
        self.slots[session].end();
    }

    /// Whether the session has a transaction.
    pub fn is_open(&self, session: usize) -> bool
        requires { session < length self.now.sessions }
        ensures { result ≡ is_some (pending_at session self.now) }
    {
        self.slots[session].is_open()
    }

    /// Makes room for one call of `note`, `commit` or `commit_alone`.
    pub fn reserve(&mut self) -> Result<(), AllocError>
        ensures ok { OnOk result (self.new ≡ record self.old { room = true }) }
        ensures err { OnErr result (self.new ≡ self.old) }
        ensures memory { self.old.room ≡ true → IsOk result }
    {
        if self.room {
            return Ok(());
        }
        self.commits.reserve(1)?;
        reserve_each(&mut self.slots)?;
        self.room = true;
        Ok(())
    }

    /// Notes what an accepted command of a transaction touched.
    pub fn note(&mut self, session: usize, touched: Touched)
        requires session { session < length self.old.sessions }
        requires open { IsSome (pending_at session self.old) }
        requires room { self.old.room ≡ true }
        ensures { self.new ≡ after_note session touched self.old }
    {
        self.room = false;
        self.slots[session].note(touched);
    }

    /// Commits a transaction: one commit more, which wrote what its commands wrote.
    pub fn commit(&mut self, session: usize)
        requires session { session < length self.old.sessions }
        requires open { IsSome (pending_at session self.old) }
        requires room { self.old.room ≡ true }
        requires few { length self.old.commits < 4294967295 }
        ensures { self.new ≡ after_commit session self.old }
    {
        self.room = false;
        let noted = self.slots[session].take();
        self.commits.push_reserved(Commit::of_transaction(noted));
    }

    /// One commit more, of a command outside a transaction.
    pub fn commit_alone(&mut self, touched: Touched)
        requires room { self.old.room ≡ true }
        requires few { length self.old.commits < 4294967295 }
        ensures { self.new ≡ with_commit touched.wrote self.old }
    {
        self.room = false;
        self.commits.push_reserved(Commit::alone(touched));
    }

    /// The number of the first commit behind the Begin of the session's transaction that wrote an object which the
    /// transaction writes or names; commits are counted from 1.
    pub fn conflict(&self, session: usize) -> Option<u32>
        requires session { session < length self.now.sessions }
        requires open { IsSome (pending_at session self.now) }
        ensures { result ≡ conflict_of (pending_at session self.now) self.now.commits }
    {
        self.slots[session].conflict(self.commits.as_slice())
    }
}

// So many places without a transaction.
fn slots(alloc: Global, count: usize) -> Result<Vec<Slot>, AllocError>
    ensures { IfOk result (λ made. map (λ slot. slot.pending) made.items ≡ replicate count None) }
{
    let mut made = Vec::with_capacity(alloc, count)?;
    for _index in 0..count {
        made.push(Slot::new(alloc))?;
    }
    Ok(made)
}

// Makes room for a command more in each place.
fn reserve_each(slots: &mut [Slot]) -> Result<(), AllocError>
    ensures ok { OnOk result (AllPass (λ slot. slot.room) slots.new) }
    ensures others { map (λ slot. slot.pending) slots.new ≡ map (λ slot. slot.pending) slots.old }
{
    for slot in slots.iter_mut() {
        slot.reserve()?;
    }
    Ok(())
}
