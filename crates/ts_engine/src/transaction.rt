// A transaction: its beginning, its commit and its rollback, and which commands it refuses.
ghost use Rattle.std.specs.Prelude.{◌≡◌, ◌≤◌, ◌++◌, None, Some, false, pos, IfOk, IfSome, IfErr, IsErrOf, OnOk, length};
ghost use Rattle.std.specs.Option.{option_map};
ghost use Rattle.ts_base.specs.declared.fault.StoreFault.TheVariants.{Failed as StoreFailed};
ghost use Rattle.ts_journal.specs.Journal.{entries_bytes};
ghost use Rattle.ts_store.specs.OpenBatch.{IsOver, to_commit, most_entries};
ghost use Rattle.ts_command.specs.Boundary.{boundary_of, is_writing};
ghost use Rattle.ts_answer.specs.Reply.{ok_line, number_line};
ghost use Rattle.ts_answer.specs.Answer.{most_accepted};
ghost use Rattle.ts_effects.specs.Charged.{CanCount};
ghost use Rattle.ts_engine.specs.Ended.{IsWant};
ghost use Rattle.ts_engine.specs.Transaction.{misplaced_in, accepted_in, counted_in, Begins, CommitsAll, RollsBackTo};

use crate::engine::Engine;
use crate::fault::StepFault;
use std::alloc::AllocError;
use ts_base::{Refusal, Reply, StoreFault};
use ts_command::{Boundary, Command};
use ts_disk::Volume;
use ts_model::Defs;
use ts_say::{say_ok, say_signed};
use ts_space::Space;

/// So many commands that write a transaction accepts at most: their changes have room in one record.
const MOST_ACCEPTED: u8 = 32;

/// What a rollback goes back to.
#[derive(Drop)]
pub(crate) struct Saved {
    /// The definitions and the directory when the transaction was begun.
    pub(crate) defs: Defs,
    pub(crate) space: Space,
    /// How many commands that write were accepted since.
    pub(crate) accepted: u8,
}

impl Engine {
    /// Why a command is refused before all else, by whether a transaction is open.
    pub(crate) fn misplaced(&self, command: &Command) -> Option<Refusal>
        ensures { result ≡ misplaced_in (boundary_of command.now) (is_writing command.now)
            (option_map (λ saved. saved.accepted) self.now.saved) }
    {
        let boundary = command.boundary();
        match &self.saved {
            None => misplaced_outside(boundary),
            Some(saved) => misplaced_inside(boundary, command.is_writing(), saved.accepted),
        }
    }

    /// Begins a transaction: copies what a rollback goes back to.
    pub fn begin(&mut self, out: &mut Reply) -> Result<(), StepFault>
        ensures said { OnOk result (out.new ≡ out.old ++ ok_line) }
        ensures ok { OnOk result (Begins self.old self.new) }
        ensures err { IfErr result (λ fault. IsWant fault × (self.new ≡ self.old)) }
    {
        say_ok(out)?;
        let saved = self.copy()?;
        self.saved = Some(saved);
        Ok(())
    }

    // The copies.
    fn copy(&self) -> Result<Saved, AllocError>
        ensures { IfOk result (λ saved. (saved.defs.definitions ≡ self.now.tables.definitions)
            × (saved.space.lists ≡ self.now.space.lists) × (saved.accepted ≡ 0)) }
    {
        let defs = self.defs.copy()?;
        let space = self.space.copy()?;
        Ok(Saved {
            defs,
            space,
            accepted: 0,
        })
    }

    /// Commits the transaction as one record, and tells how many of its commands that write were accepted.
    pub fn commit_all<V: Volume>(&mut self, vol: &mut V, out: &mut Reply) -> Result<(), StepFault>
        requires over { IsOver V.tells self.old.store (V.device vol.old) }
        requires short { length (entries_bytes (to_commit self.old.store)) ≤ most_entries }
        ensures said { OnOk result (out.new ≡ out.old ++ number_line (pos (accepted_in self.old.saved))) }
        ensures commits { CommitsAll V.tells result self.old self.new (V.device vol.old) (V.device vol.new) }
    {
        let said = self.say_accepted(out);
        self.finish(vol, said)?;
        self.saved = None;
        Ok(())
    }

    // Says how many commands that write were accepted.
    fn say_accepted(&self, out: &mut Reply) -> Result<(), StoreFault>
        ensures said { OnOk result (out.new ≡ out.old ++ number_line (pos (accepted_in self.now.saved))) }
        ensures cause { IsErrOf result StoreFailed → ⊥ }
    {
        let accepted = match &self.saved {
            Some(saved) => saved.accepted,
            None => 0,
        };
        say_signed(out, accepted as i64)?;
        Ok(())
    }

    /// Goes back to what was there when the transaction was begun, and says so.
    pub(crate) fn roll_back(&mut self, out: &mut Reply) -> Result<(), StepFault>
        requires can { IfSome self.old.saved (λ saved. CanCount saved.defs.definitions saved.space.lists) }
        ensures said { OnOk result (out.new ≡ out.old ++ ok_line) }
        ensures ok { OnOk result (IfSome self.old.saved (RollsBackTo self.old self.new)) }
        ensures err { IfErr result (λ fault. IsWant fault × (self.new ≡ self.old)) }
    {
        say_ok(out)?;
        self.give_up();
        Ok(())
    }

    /// Gives the transaction up: goes back to what was there when it was begun. It takes no memory.
    pub fn give_up(&mut self)
        requires can { IfSome self.old.saved (λ saved. CanCount saved.defs.definitions saved.space.lists) }
        ensures rolls { IfSome self.old.saved (RollsBackTo self.old self.new) }
        ensures none { self.old.saved ≡ None → self.new ≡ self.old }
    {
        let Some(saved) = self.saved.take() else {
            return;
        };
        let Saved { defs, space, .. } = saved;
        self.store.rollback();
        self.charges.count(&defs, &space);
        self.defs = defs;
        self.space = space;
    }

    /// Counts an accepted command: one that writes, where a transaction is open.
    pub fn count(&mut self, command: &Command)
        requires few { IfSome self.old.saved (λ saved. saved.accepted ≤ most_accepted) }
        ensures { self.new ≡ record self.old { saved = counted_in command.now self.old.saved } }
    {
        let more = command.is_writing() as u8;
        if let Some(saved) = &mut self.saved {
            saved.accepted += more;
        }
    }
}

// The same where none is open.
fn misplaced_outside(boundary: Option<Boundary>) -> Option<Refusal>
    ensures { result ≡ misplaced_in boundary false None }
{
    match boundary {
        Some(Boundary::Commits) | Some(Boundary::RollsBack) => Some(Refusal::NotOpen),
        Some(Boundary::Opens) | Some(Boundary::Alone) | None => None,
    }
}

// The same where one is open, with so many accepted commands.
fn misplaced_inside(boundary: Option<Boundary>, writes: bool, accepted: u8) -> Option<Refusal>
    ensures { result ≡ misplaced_in boundary writes (Some accepted) }
{
    match boundary {
        Some(Boundary::Opens) | Some(Boundary::Alone) => Some(Refusal::AlreadyOpen),
        Some(Boundary::Commits) | Some(Boundary::RollsBack) => None,
        None => {
            if writes && accepted >= MOST_ACCEPTED {
                return Some(Refusal::TransactionFull);
            }
            None
        }
    }
}
