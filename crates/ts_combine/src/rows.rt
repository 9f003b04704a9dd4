// Rows of an answer, which may have 1000000 of them.
ghost use Rattle.std.specs.Prelude.{◌≡◌, ◌+◌, ◌<◌, ◌≤◌, ◌^◌, [], ◌∷◌, ◌++◌, List, length, OnOk, IsTrue, ◌↔◌};
ghost use Rattle.std.specs.Prelude.{if◌then◌else◌};
ghost use Rattle.ts_combine.specs.Rows.{Gathers, IsTooLarge, IsRefusedFor};
ghost use Rattle.ts_base.specs.Answer.{AnswersList, most_rows, within_rows};

use std::alloc::{AllocError, Global};
use ts_base::{Refusal, Trouble};

/// The most rows of an answer.
const MOST_ROWS: u64 = 1_000_000;

/// Rows one after the other, which are kept as long as an answer may have them, and counted beyond.
#[derive(Drop)]
pub(crate) struct Rows<T> {
    kept: Vec<T>,
    count: u64,
}

impl<T: Copy + Drop> Rows<T> {
    /// No row.
    pub fn new(alloc: Global) -> Rows<T>
        ensures gathers { Gathers result [] }
    {
        Rows {
            kept: Vec::new(alloc),
            count: 0,
        }
    }

    /// One row more.
    pub fn push(&mut self, row: T) -> Result<(), AllocError>
        requires { self.old.count + 1 < 2 ^ 64 }
        ensures gathers { OnOk result ((all : List T) → Gathers self.old all → Gathers self.new (all ++ row ∷ [])) }
        ensures count { OnOk result (self.new.count ≡ self.old.count + 1) }
    {
        if self.count < MOST_ROWS {
            self.kept.push(row)?;
        }
        self.count += 1;
        Ok(())
    }

    /// One row more, if it is kept.
    pub fn push_if(&mut self, kept: bool, row: T) -> Result<(), AllocError>
        requires { self.old.count + 1 < 2 ^ 64 }
        ensures gathers { OnOk result ((all : List T) → Gathers self.old all
            → Gathers self.new (all ++ (if kept then row ∷ [] else []))) }
        ensures count { OnOk result (self.new.count ≤ self.old.count + 1) }
    {
        if kept {
            self.push(row)?;
        }
        Ok(())
    }

    /// Whether an answer may have so many rows more.
    pub fn may_have(&self, more: u64) -> bool
        requires { self.now.count + more < 2 ^ 64 }
        ensures { IsTrue result ↔ (self.now.count + more ≤ most_rows) }
    {
        self.count + more <= MOST_ROWS
    }

    /// So many rows more, which are too many to be kept.
    pub fn skip(&mut self, more: u64)
        requires fits { self.old.count + more < 2 ^ 64 }
        requires many { most_rows < self.old.count + more }
        ensures gathers { (all rows : List T) → length rows ≡ more → Gathers self.old all
            → Gathers self.new (all ++ rows) }
        ensures count { self.new.count ≡ self.old.count + more }
    {
        self.count += more;
    }

    /// All of them; TooLarge where they are too many.
    pub fn done(self) -> Result<Vec<T>, Trouble>
        ensures rows { (all : List T) → Gathers self all → AnswersList (within_rows all) result }
        ensures cause { IsRefusedFor IsTooLarge result }
    {
        if self.count > MOST_ROWS {
            return Err(Trouble::Refused(Refusal::TooLarge { rows: self.count }));
        }
        Ok(self.kept)
    }
}
