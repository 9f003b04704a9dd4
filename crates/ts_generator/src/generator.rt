// The generated commands, carried out one after the other: all are durable before anything is said.
ghost use Rattle.std.specs.Prelude.{◌≡◌, ◌+◌, ◌≤◌, ◌<◌, ◌^◌, ◌++◌, [], ◌∷◌, ℕ, List, if◌then◌else◌, not, IfOk, OnOk};
ghost use Rattle.std.specs.Prelude.{IfErr, ◌⊎◌, IsErr, codes, decimal};
ghost use Rattle.ts_command.specs.Form.{HasForm};
ghost use Rattle.ts_opening.specs.Engine.{IsReady};
ghost use Rattle.ts_opening.specs.Engine.{Stepped};
ghost use Rattle.ts_multi.specs.Picks.{drawn};
ghost use Rattle.ts_generator.specs.Generated.{generated, edits_before};
ghost use Rattle.ts_generator.specs.Generating.{GenRan, OpenedGen, RanQuietly, IsBehind, IsNextStep, IsUnmade, IsTally};
ghost use Rattle.ts_answer.specs.Outcomes.{ends_with_ok};

use crate::generated::{command_count, draw, first_drawn, make_command};
use std::alloc::{AllocError, Global};
use std::thread::Threads;
use ts_answer::ends_with_ok;
use ts_base::{Bytes, Reply};
use ts_command::Command;
use ts_disk::Site;
use ts_opening::{Engine, StepFault, unopened};
use ts_text::print_number;

/// Commands that are carried out: the engine of the volume, the last two replies, and how many of all end with an `ok`
/// line and how many don't.
#[derive(Drop)]
pub(crate) struct Generator {
    engine: Engine,
    before: Reply,
    reply: Reply,
    answered: u32,
    refused: u32,
    alloc: Global,
}

impl Generator {
    // No command was carried out yet.
    fn new(alloc: Global, engine: Engine) -> Generator
        ensures engine { result.engine ≡ engine }
        ensures tally { IsTally [] result.before result.reply result.answered result.refused }
        ensures none { result.answered + result.refused ≡ 0 }
    {
        Generator {
            engine,
            before: Reply::new(alloc),
            reply: Reply::new(alloc),
            answered: 0,
            refused: 0,
            alloc,
        }
    }

    // Carries out a command, and counts its reply.
    fn carry_out<S: Site>(
        &mut self,
        rt: &(impl Threads + Sync),
        site: &mut S,
        command: &Command,
    ) -> Result<(), StepFault>
        requires ready { IsReady S.tells self.old.engine (S.device site.old) }
        requires form { HasForm command.now }
        requires few { self.old.answered + self.old.refused < 2 ^ 31 }
        ensures stepped { Stepped S.tells command.now result self.new.reply self.old.engine self.new.engine
            (S.device site.old) (S.device site.new) }
        ensures tally { OnOk result ((rs : List (List ℕ))
            → IsTally rs self.old.before self.old.reply self.old.answered self.old.refused
            → IsTally (rs ++ self.new.reply ∷ []) self.new.before self.new.reply self.new.answered self.new.refused) }
        ensures total { OnOk result (self.new.answered + self.new.refused ≡ self.old.answered + self.old.refused + 1) }
    {
        std::mem::swap(&mut self.before, &mut self.reply);
        match self.engine.step(rt, site, command, &mut self.reply) {
            Ok(()) => {
                self.count();
                Ok(())
            }
            Err(fault) => Err(fault),
        }
    }

    // Counts the reply in hand.
    fn count(&mut self)
        requires few { self.old.answered + self.old.refused < 2 ^ 31 }
        ensures answered { self.new.answered ≡ self.old.answered + (if ends_with_ok self.old.reply then 1 else 0) }
        ensures refused { self.new.refused ≡ self.old.refused + (if not (ends_with_ok self.old.reply) then 1 else 0) }
        ensures others { self.new ≡ record self.old { answered = self.new.answered; refused = self.new.refused } }
    {
        if ends_with_ok(self.reply.as_slice()) {
            self.answered += 1;
        } else {
            self.refused += 1;
        }
    }

    // Carries out the command of a number, for which this was drawn.
    fn carry_out_next<S: Site>(
        &mut self,
        rt: &(impl Threads + Sync),
        site: &mut S,
        count: u32,
        number: u32,
        random: u64,
    ) -> Result<(), StepFault>
        requires ready { IsReady S.tells self.old.engine (S.device site.old) }
        requires count { count ≤ 1000000 }
        requires number { number < count + 8 }
        requires few { self.old.answered + self.old.refused < 2 ^ 31 }
        ensures next { OnOk result ((seed : ℕ) → random ≡ drawn seed (edits_before count (number + 1))
            → IsNextStep S.tells (generated count seed) number result self.old self.new (S.device site.old)
            (S.device site.new)) }
        ensures stopped { IfErr result (λ fault. (seed : ℕ) → random ≡ drawn seed (edits_before count (number + 1))
            → IsUnmade S.tells fault (S.device site.old) (S.device site.new)
            ⊎ IsNextStep S.tells (generated count seed) number result self.old self.new (S.device site.old)
            (S.device site.new)) }
    {
        match make_command(self.alloc, count, number, random) {
            Ok(command) => self.carry_out(rt, site, &command),
            Err(error) => Err(StepFault::Memory(error)),
        }
    }

    // Carries out all commands of a count and a seed.
    fn carry_out_all<S: Site>(
        &mut self,
        rt: &(impl Threads + Sync),
        site: &mut S,
        count: u32,
        seed: u32,
    ) -> Result<(), StepFault>
        requires count { count ≤ 1000000 }
        requires start { IsBehind S.tells [] self.old.engine (S.device site.old) self.old (S.device site.old) }
        ensures behind { OnOk result
            (IsBehind S.tells (generated count seed) self.old.engine (S.device site.old) self.new (S.device site.new)) }
        ensures stopped { IsErr result
            → RanQuietly S.tells (generated count seed) result self.old.engine self.new.engine (S.device site.old)
            (S.device site.new) }
    {
        let mut random = first_drawn(seed);
        let mut number = 0;
        while number < command_count(count) {
            random = draw(count, number, random);
            match self.carry_out_next(rt, site, count, number, random) {
                Ok(()) => number += 1,
                Err(fault) => return Err(fault),
            }
        }
        Ok(())
    }

    // What is said of all commands.
    fn summary(&self) -> Result<Bytes, AllocError>
        ensures { IfOk result (λ text. text ≡ self.now.before ++ self.now.reply
            ++ codes "done " ++ decimal self.now.answered ++ codes " " ++ decimal self.now.refused ++ codes "\n") }
    {
        let mut text = Bytes::from_slice(self.alloc, self.before.as_slice())?;
        text.extend_from_slice(self.reply.as_slice())?;
        text.extend_from_slice(b"done ")?;
        print_number(self.answered, &mut text)?;
        text.push(b' ')?;
        print_number(self.refused, &mut text)?;
        text.push(b'\n')?;
        Ok(text)
    }

    // Carries out all commands, and says what they come to.
    fn run<S: Site>(
        &mut self,
        rt: &(impl Threads + Sync),
        site: &mut S,
        count: u32,
        seed: u32,
    ) -> u8
        requires count { count ≤ 1000000 }
        requires start { IsBehind S.tells [] self.old.engine (S.device site.old) self.old (S.device site.old) }
        ensures ran { OpenedGen S.tells (generated count seed) self.old.engine result (S.device site.old)
            (S.device site.new) }
    {
        match self.carry_out_all(rt, site, count, seed) {
            Err(StepFault::Memory(_)) => 7,
            Err(StepFault::Disk) => 5,
            Err(StepFault::Closed { .. }) => 5,
            Ok(()) => match self.summary() {
                Err(_) => 7,
                Ok(text) => match site.say(text.as_slice()) {
                    Ok(()) => 0,
                    Err(_) => 4,
                },
            },
        }
    }
}

/// Opens the volume, carries out the commands of a count and a seed, and says what they come to. The program's status:
///
/// - 0: every command was carried out, and what they come to was said.
/// - 4: every command was carried out, but it could not be said whole.
/// - 5: a call of the volume failed.
/// - 6: exactly where the volume is no store, but for a fault or want of memory that came first.
/// - 7: there was no memory to open the volume, for a command or for what is said. Some first commands were carried out.
///
/// But for 0 and 4 nothing was said.
pub fn generate<S: Site>(
    rt: &(impl Threads + Sync),
    alloc: Global,
    site: &mut S,
    count: u32,
    seed: u32,
) -> u8
    requires count { count ≤ 1000000 }
    ensures ran { GenRan S.tells count seed result (S.device site.old) (S.device site.new) }
{
    match Engine::start(alloc, site) {
        Err(fault) => unopened(&fault),
        Ok(engine) => {
            let mut generator = Generator::new(alloc, engine);
            generator.run(rt, site, count, seed)
        }
    }
}
