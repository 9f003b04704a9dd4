// Items carried out one after the other: each reply is said once its command is durable, and before the next item
// begins.
ghost use Rattle.std.specs.Prelude.{◌≡◌, ◌≤◌, ◌<◌, [], ◌∷◌, Ok, Err, Some, IsErr, IfOk, OnOk, length, take};
ghost use Rattle.ts_disk.specs.Device.{Says};
ghost use Rattle.ts_items.specs.Items.{place_from};
ghost use Rattle.ts_items.specs.Reader.{item_of};
ghost use Rattle.ts_command.specs.Form.{HasForm};
ghost use Rattle.ts_command.specs.Grammar.{command_of, request_of, or_syntax};
ghost use Rattle.ts_opening.specs.Engine.{IsReady};
ghost use Rattle.ts_carriers.specs.Run.{Ran};
ghost use Rattle.ts_script_runs.specs.Script.{script, by_engine, requests_from, requests_at_end};

use std::alloc::Global;
use std::thread::Threads;
use ts_base::{Reply, Trouble};
use ts_carriers::RunFault;
use ts_command::{Command, Cut, Reader, read_command};
use ts_disk::Site;
use ts_opening::{Engine, StepFault};

const SYNTAX_LINE: &[u8] = b"error 1 Syntax\n";

const TOO_LONG_LINE: &[u8] = b"error 2 TooLong\n";

const UNENDED_LINE: &[u8] = b"error 3 Unended\n";

const MEMORY_LINE: &[u8] = b"error 90 Memory\n";

/// A script that is carried out: the engine of the volume, the statement that is read, and the reply in hand.
#[derive(Drop)]
pub(crate) struct Session {
    pub(crate) engine: Engine,
    pub(crate) reader: Reader,
    pub(crate) reply: Reply,
    pub(crate) alloc: Global,
}

// Says a line or a reply.
fn say<S: Site>(site: &mut S, line: &[u8]) -> Result<(), RunFault>
    ensures says { Says S.tells line.now result (S.device site.old) (S.device site.new) }
    ensures output { IsErr result → result ≡ Err RunFault.Output }
{
    match site.say(line) {
        Ok(()) => Ok(()),
        Err(_) => Err(RunFault::Output),
    }
}

impl Session {
    // Carries out a command and says its reply.
    fn carry_out_command<S: Site>(
        &mut self,
        rt: &(impl Threads + Sync),
        site: &mut S,
        command: &Command,
    ) -> Result<(), RunFault>
        requires ready { IsReady S.tells self.old.engine (S.device site.old) }
        requires form { HasForm command.now }
        ensures ran { Ran (by_engine S.tells) script (Ok command.now ∷ [])
            result self.old.engine self.new.engine (S.device site.old) (S.device site.new) }
        ensures reader { self.new.reader ≡ self.old.reader }
    {
        match self.engine.step(rt, site, command, &mut self.reply) {
            Ok(()) => say(site, self.reply.as_slice()),
            Err(StepFault::Memory(_)) => say(site, MEMORY_LINE),
            Err(StepFault::Disk) => Err(RunFault::Disk),
            Err(StepFault::Closed { .. }) => Err(RunFault::Disk),
        }
    }

    // Carries out a command that was read, and drops it.
    fn carry_out_read<S: Site>(
        &mut self,
        rt: &(impl Threads + Sync),
        site: &mut S,
        command: Command,
    ) -> Result<(), RunFault>
        requires ready { IsReady S.tells self.old.engine (S.device site.old) }
        requires form { HasForm command }
        ensures ran { Ran (by_engine S.tells) script (Ok command ∷ [])
            result self.old.engine self.new.engine (S.device site.old) (S.device site.new) }
        ensures reader { self.new.reader ≡ self.old.reader }
    {
        self.carry_out_command(rt, site, &command)
    }

    // Carries out the statement that was read.
    fn carry_out_statement<S: Site>(
        &mut self,
        rt: &(impl Threads + Sync),
        site: &mut S,
    ) -> Result<(), RunFault>
        requires ready { IsReady S.tells self.old.engine (S.device site.old) }
        ensures ran { Ran (by_engine S.tells) script (or_syntax (command_of self.old.reader.text) ∷ [])
            result self.old.engine self.new.engine (S.device site.old) (S.device site.new) }
        ensures reader { self.new.reader ≡ self.old.reader }
    {
        match read_command(self.alloc, self.reader.text()) {
            Ok(command) => self.carry_out_read(rt, site, command),
            Err(Trouble::Refused(_)) => say(site, SYNTAX_LINE),
            Err(Trouble::Memory(_)) => say(site, MEMORY_LINE),
        }
    }

    // Carries out the item that a cut ends.
    fn carry_out<S: Site>(
        &mut self,
        rt: &(impl Threads + Sync),
        site: &mut S,
        cut: Cut,
    ) -> Result<(), RunFault>
        requires ready { IsReady S.tells self.old.engine (S.device site.old) }
        ensures ran { Ran (by_engine S.tells) script (request_of (item_of cut self.old.reader.text) ∷ [])
            result self.old.engine self.new.engine (S.device site.old) (S.device site.new) }
        ensures reader { self.new.reader ≡ self.old.reader }
    {
        match cut {
            Cut::Statement => self.carry_out_statement(rt, site),
            Cut::TooLong => say(site, TOO_LONG_LINE),
            Cut::Unended => say(site, UNENDED_LINE),
        }
    }

    // Reads up to the end of an item, and carries the item out. How many bytes were read.
    fn carry_out_next<S: Site>(
        &mut self,
        rt: &(impl Threads + Sync),
        site: &mut S,
        bytes: &[u8],
    ) -> Result<usize, RunFault>
        requires ready { IsReady S.tells self.old.engine (S.device site.old) }
        ensures within { IfOk result (λ n. n ≤ length bytes.now) }
        ensures some { IfOk result (λ n. 0 < length bytes.now → 0 < n) }
        ensures ran { IfOk result
            (λ n. Ran (by_engine S.tells) script (requests_from self.old.reader.place (take n bytes.now))
            result self.old.engine self.new.engine (S.device site.old) (S.device site.new)) }
        ensures place { IfOk result (λ n. self.new.reader.place ≡ place_from self.old.reader.place (take n bytes.now)) }
        ensures fault { IsErr result → Ran (by_engine S.tells) script (requests_from self.old.reader.place bytes.now)
            result self.old.engine self.new.engine (S.device site.old) (S.device site.new) }
    {
        let fed = self.reader.feed(bytes);
        match fed.cut {
            None => Ok(fed.taken),
            Some(cut) => match self.carry_out(rt, site, cut) {
                Ok(()) => Ok(fed.taken),
                Err(fault) => Err(fault),
            },
        }
    }

    /// Carries out the items that end in a piece of the script.
    pub(crate) fn carry_out_piece<S: Site>(
        &mut self,
        rt: &(impl Threads + Sync),
        site: &mut S,
        piece: &[u8],
    ) -> Result<(), RunFault>
        requires ready { IsReady S.tells self.old.engine (S.device site.old) }
        ensures ran { Ran (by_engine S.tells) script (requests_from self.old.reader.place piece.now)
            result self.old.engine self.new.engine (S.device site.old) (S.device site.new) }
        ensures place { OnOk result (self.new.reader.place ≡ place_from self.old.reader.place piece.now) }
    {
        let mut rest = piece;
        while !rest.is_empty() {
            match self.carry_out_next(rt, site, rest) {
                Ok(count) => rest = &rest[count..],
                Err(fault) => return Err(fault),
            }
        }
        Ok(())
    }

    /// Says the reply to a statement that the end of the script cuts off.
    pub(crate) fn carry_out_end<S: Site>(&mut self, site: &mut S) -> Result<(), RunFault>
        requires ready { IsReady S.tells self.old.engine (S.device site.old) }
        ensures ran { Ran (by_engine S.tells) script (requests_at_end self.old.reader.place)
            result self.old.engine self.new.engine (S.device site.old) (S.device site.new) }
        ensures output { IsErr result → result ≡ Err RunFault.Output }
    {
        match self.reader.finish() {
            Some(_) => say(site, UNENDED_LINE),
            None => Ok(()),
        }
    }
}
