// The turns of sessions: each reply is said once its command is carried out, and before the next turn.
ghost use Rattle.std.specs.Prelude.{◌≡◌, ◌+◌, ◌≤◌, ◌<◌, ◌++◌, List, [], ◌∷◌, None, Ok, Err, IsErr, IfOk, length, map, replicate};
ghost use Rattle.std.specs.Prelude.{slice_index_or, slice_set};
ghost use Rattle.ts_disk.specs.Device.{Says};
ghost use Rattle.ts_items.specs.Items.{Item, items_to_end};
ghost use Rattle.ts_command.specs.Form.{HasForm};
ghost use Rattle.ts_command.specs.Grammar.{command_of, Request, request_of, or_syntax};
ghost use Rattle.ts_multi.specs.Log.{start};
ghost use Rattle.ts_multi.specs.Schedule.{order, total};
ghost use Rattle.ts_replies.specs.Acknowledged.{IsStep};
ghost use Rattle.ts_carriers.specs.Run.{SaysReply};
ghost use Rattle.ts_sessions.specs.Machine.{Machine};
ghost use Rattle.ts_sessions.specs.Steps.{session_line as the_line};
ghost use Rattle.ts_session_turns.specs.Hand.{hand, IsHandReady};
ghost use Rattle.ts_session_runs.specs.Carrier.{sessions, turn_of};
ghost use Rattle.ts_session_scripts.specs.Piece.{item_of_piece};
ghost use Rattle.ts_session_scripts.specs.Script.{requests_left};
ghost use Rattle.ts_session_runs.specs.Hall.{TurnsRan};

use crate::line::session_line;
use std::alloc::{AllocError, Global};
use std::thread::Threads;
use ts_base::{Bytes, Reply, Trouble};
use ts_carriers::RunFault;
use ts_command::{Command, read_command};
use ts_disk::Site;
use ts_multi::Sessions;
use ts_session_scripts::{Piece, Script, next_session, scripts_of};
use ts_session_turns::{Engine, StepFault, answer};
use ts_views::Views;

const SYNTAX_LINE: &[u8] = b"error 1 Syntax\n";

const TOO_LONG_LINE: &[u8] = b"error 2 TooLong\n";

const UNENDED_LINE: &[u8] = b"error 3 Unended\n";

const MEMORY_LINE: &[u8] = b"error 90 Memory\n";

/// What sessions have in hand beside the engine: what is left of their scripts, their views, the log of the commits,
/// and the reply in hand.
#[derive(Drop)]
pub(crate) struct Hall {
    pub(crate) scripts: Vec<Script>,
    pub(crate) views: Views,
    pub(crate) log: Sessions,
    pub(crate) reply: Reply,
    pub(crate) alloc: Global,
}

// Says a line or a reply.
fn say<S: Site>(site: &mut S, line: &[u8]) -> Result<(), RunFault>
    ensures says { Says S.tells line.now result (S.device site.old) (S.device site.new) }
    ensures output { IsErr result → result ≡ Err RunFault.Output }
{
    match site.say(line) {
        Ok(()) => Ok(()),
        Err(_) => Err(RunFault::Output),
    }
}

// Says a reply behind the line of its session.
fn say_reply<S: Site>(site: &mut S, who: usize, reply: &[u8]) -> Result<(), RunFault>
    requires most { who < 16 }
    ensures says { SaysReply S.tells (the_line (who + 1) ++ reply.now) result (S.device site.old) (S.device site.new) }
    ensures output { IsErr result → result ≡ Err RunFault.Output }
{
    say(site, session_line(who + 1))?;
    say(site, reply)
}

impl Hall {
    /// One session for each section, none of which has a transaction.
    pub(crate) fn new(alloc: Global, sections: &[Bytes]) -> Result<Hall, AllocError>
        ensures scripts { IfOk result (λ hall. hall.scripts.items ≡ map items_to_end sections.now) }
        ensures views { IfOk result (λ hall. hall.views ≡ replicate (length sections.now) None) }
        ensures log { IfOk result (λ hall. hall.log ≡ start (length sections.now)) }
    {
        Ok(Hall {
            scripts: scripts_of(alloc, sections)?,
            views: Views::new(alloc, sections.len())?,
            log: Sessions::new(alloc, sections.len())?,
            reply: Reply::new(alloc),
            alloc,
        })
    }

    // Says the reply to a request of a session for which nothing is done.
    fn say_line<S: Site>(
        &self,
        site: &mut S,
        engine: &Engine,
        who: usize,
        line: &[u8],
    ) -> Result<(), RunFault>
        requires within { who < length self.now.views }
        requires most { length self.now.views ≤ 16 }
        requires ready { IsHandReady S.tells (hand engine.now self.now.views self.now.log) (S.device site.old) }
        ensures { (request : Request) → ((m : Machine) → IsStep sessions m (turn_of who request) (the_line (who + 1) ++ line.now) m)
            → TurnsRan S.tells (turn_of who request ∷ []) result (hand engine.now self.now.views self.now.log)
            (hand engine.now self.now.views self.now.log) (S.device site.old) (S.device site.new) }
    {
        say_reply(site, who, line)
    }

    // Carries out a command of a session and says its reply.
    fn carry_out_command<S: Site>(
        &mut self,
        rt: &(impl Threads + Sync),
        site: &mut S,
        engine: &mut Engine,
        who: usize,
        command: &Command,
    ) -> Result<(), RunFault>
        requires within { who < length self.old.views }
        requires most { length self.old.views ≤ 16 }
        requires ready { IsHandReady S.tells (hand engine.old self.old.views self.old.log) (S.device site.old) }
        requires few { length self.old.log.commits < 4294967295 }
        requires form { HasForm command.now }
        ensures turn { TurnsRan S.tells (turn_of who (Ok command.now) ∷ []) result
            (hand engine.old self.old.views self.old.log) (hand engine.new self.new.views self.new.log)
            (S.device site.old) (S.device site.new) }
        ensures scripts { self.new.scripts ≡ self.old.scripts }
    {
        match answer(
            rt,
            engine,
            site,
            &mut self.views,
            &mut self.log,
            who,
            command,
            &mut self.reply,
        ) {
            Ok(()) => say_reply(site, who, self.reply.as_slice()),
            Err(StepFault::Memory(_)) => say_reply(site, who, MEMORY_LINE),
            Err(StepFault::Disk) => Err(RunFault::Disk),
            Err(StepFault::Closed { .. }) => Err(RunFault::Disk),
        }
    }

    // Carries out a command that was read, and drops it.
    fn carry_out_read<S: Site>(
        &mut self,
        rt: &(impl Threads + Sync),
        site: &mut S,
        engine: &mut Engine,
        who: usize,
        command: Command,
    ) -> Result<(), RunFault>
        requires within { who < length self.old.views }
        requires most { length self.old.views ≤ 16 }
        requires ready { IsHandReady S.tells (hand engine.old self.old.views self.old.log) (S.device site.old) }
        requires few { length self.old.log.commits < 4294967295 }
        requires form { HasForm command }
        ensures turn { TurnsRan S.tells (turn_of who (Ok command) ∷ []) result
            (hand engine.old self.old.views self.old.log) (hand engine.new self.new.views self.new.log)
            (S.device site.old) (S.device site.new) }
        ensures scripts { self.new.scripts ≡ self.old.scripts }
    {
        self.carry_out_command(rt, site, engine, who, &command)
    }

    // Carries out a statement of a session.
    fn carry_out_statement<S: Site>(
        &mut self,
        rt: &(impl Threads + Sync),
        site: &mut S,
        engine: &mut Engine,
        who: usize,
        text: &[u8],
    ) -> Result<(), RunFault>
        requires within { who < length self.old.views }
        requires most { length self.old.views ≤ 16 }
        requires ready { IsHandReady S.tells (hand engine.old self.old.views self.old.log) (S.device site.old) }
        requires few { length self.old.log.commits < 4294967295 }
        requires short { length text.now ≤ 65536 }
        ensures turn { TurnsRan S.tells (turn_of who (or_syntax (command_of text.now)) ∷ []) result
            (hand engine.old self.old.views self.old.log) (hand engine.new self.new.views self.new.log)
            (S.device site.old) (S.device site.new) }
        ensures scripts { self.new.scripts ≡ self.old.scripts }
    {
        match read_command(self.alloc, text) {
            Ok(command) => self.carry_out_read(rt, site, engine, who, command),
            Err(Trouble::Refused(_)) => self.say_line(site, engine, who, SYNTAX_LINE),
            Err(Trouble::Memory(_)) => self.say_line(site, engine, who, MEMORY_LINE),
        }
    }

    // Carries out an item of a session.
    fn carry_out<S: Site>(
        &mut self,
        rt: &(impl Threads + Sync),
        site: &mut S,
        engine: &mut Engine,
        who: usize,
        piece: Piece,
    ) -> Result<(), RunFault>
        requires within { who < length self.old.views }
        requires most { length self.old.views ≤ 16 }
        requires ready { IsHandReady S.tells (hand engine.old self.old.views self.old.log) (S.device site.old) }
        requires few { length self.old.log.commits < 4294967295 }
        ensures turn { TurnsRan S.tells (turn_of who (request_of (item_of_piece piece)) ∷ []) result
            (hand engine.old self.old.views self.old.log) (hand engine.new self.new.views self.new.log)
            (S.device site.old) (S.device site.new) }
        ensures scripts { self.new.scripts ≡ self.old.scripts }
    {
        match piece {
            Piece::Statement(statement) => {
                self.carry_out_statement(rt, site, engine, who, statement.text.as_slice())
            }
            Piece::TooLong => self.say_line(site, engine, who, TOO_LONG_LINE),
            Piece::Unended => self.say_line(site, engine, who, UNENDED_LINE),
        }
    }

    // Carries out the next item of a session.
    fn carry_out_next<S: Site>(
        &mut self,
        rt: &(impl Threads + Sync),
        site: &mut S,
        engine: &mut Engine,
        who: usize,
    ) -> Result<(), RunFault>
        requires within { who < length self.old.scripts.items }
        requires count { length self.old.scripts.items ≡ length self.old.views }
        requires most { length self.old.views ≤ 16 }
        requires ready { IsHandReady S.tells (hand engine.old self.old.views self.old.log) (S.device site.old) }
        requires few { length self.old.log.commits < 4294967295 }
        requires some { 0 < length (slice_index_or self.old.scripts.items who []) }
        ensures turn { (item : Item) (rest : List Item) → slice_index_or self.old.scripts.items who [] ≡ item ∷ rest
            → TurnsRan S.tells (turn_of who (request_of item) ∷ []) result
            (hand engine.old self.old.views self.old.log) (hand engine.new self.new.views self.new.log)
            (S.device site.old) (S.device site.new) }
        ensures scripts { (item : Item) (rest : List Item) → slice_index_or self.old.scripts.items who [] ≡ item ∷ rest
            → self.new.scripts.items ≡ slice_set self.old.scripts.items who rest }
    {
        let Some(piece) = self.scripts[who].take() else {
            unreachable!()
        };
        self.carry_out(rt, site, engine, who, piece)
    }

    /// Carries the turns of picks out: at each the next item of the session on which it falls, as long as one has an
    /// item left.
    pub(crate) fn carry_out_picks<S: Site>(
        &mut self,
        rt: &(impl Threads + Sync),
        site: &mut S,
        engine: &mut Engine,
        picks: &[u32],
    ) -> Result<(), RunFault>
        requires count { length self.old.scripts.items ≡ length self.old.views }
        requires most { length self.old.views ≤ 16 }
        requires ready { IsHandReady S.tells (hand engine.old self.old.views self.old.log) (S.device site.old) }
        requires few { length self.old.log.commits + total self.old.scripts.items < 4294967295 }
        ensures { TurnsRan S.tells (order (requests_left self.old.scripts.items) picks.now) result
            (hand engine.old self.old.views self.old.log) (hand engine.new self.new.views self.new.log)
            (S.device site.old) (S.device site.new) }
    {
        for pick in picks {
            let Some(who) = next_session(*pick, &self.scripts) else {
                return Ok(());
            };
            self.carry_out_next(rt, site, engine, who)?;
        }
        Ok(())
    }
}
