// Patterns as texts: `{1 off,5 on,1 off},day`.
ghost use Rattle.std.specs.Prelude.{◌≡◌, ◌≢◌, ℕ, ◌+◌, ◌-◌, ◌*◌, ◌^◌, ◌<◌, ◌≤◌, ◌↔◌, List, [], ◌∷◌, ◌++◌, Ok, length};
ghost use Rattle.std.specs.Prelude.{IsTrue, IfOk, OnOk, OnErr};
ghost use Rattle.ts_text.specs.Place.{everywhere, RefusesInPlace};
ghost use Rattle.ts_text.specs.Phrase.{plain_front};
ghost use Rattle.ts_text.specs.Spelling.{AreItsTokens};
ghost use Rattle.ts_pattern.specs.Patterns.{total, flag_at, runs_of, is_pattern, are_counts, plan_of_written};
ghost use Rattle.ts_pattern.specs.Patterns.{read_plan, written_plan, printed_run, printed_runs, printed_plan, Plan};
ghost use Rattle.ts_base.specs.Answer.{Answers};
ghost use Rattle.ts_pattern.specs.Patterns;
ghost use Rattle.ts_pattern.specs.Spelling.{IsPatternText};

use crate::join::extend;
use crate::pattern::too_long;
use crate::read::written_pattern;
use crate::{MOST_INTERVALS, MOST_RUNS, Pattern, Run, WrittenPattern};
use std::alloc::{AllocError, Global};
use ts_base::{Bytes, Refusal, Trouble, Unit};
use ts_text::{Misfit, print_number};

impl Pattern {
    /// The pattern that a text writes.
    pub fn read(alloc: Global, text: &[u8]) -> Result<Pattern, Trouble>
        requires { length text.now < 2 ^ 32 }
        ensures { Answers (read_plan text.now) result }
    {
        match written_pattern(alloc, text) {
            Ok(written) => written.into_pattern(),
            Err(Misfit::At { left }) => {
                let place = text.len().saturating_sub(left) as u32;
                Err(Trouble::Refused(Refusal::BadPattern { place }))
            }
            Err(Misfit::Memory(error)) => Err(Trouble::Memory(error)),
        }
    }

    /// Puts the text of the pattern to the end, whole or not at all.
    pub fn print(&self, out: &mut Bytes) -> Result<(), AllocError>
        ensures ok { OnOk result (out.new ≡ out.old ++ printed_plan self.now) }
        ensures err { OnErr result (out.new ≡ out.old) }
    {
        let runs = self.runs();
        let mut text = Bytes::new(self.allocator());
        text.push(b'{')?;
        print_runs(runs, &mut text)?;
        text.extend_from_slice(b"},")?;
        text.extend_from_slice(unit_name(self.unit()))?;
        out.extend_from_slice(text.as_slice())
    }
}

impl WrittenPattern {
    /// The pattern with these runs merged.
    pub fn into_pattern(self) -> Result<Pattern, Trouble>
        ensures { Answers (plan_of_written (record { unit = self.unit; runs = self.runs.items })) result }
    {
        let length = total_length(&self.runs);
        if length > MOST_INTERVALS as u64 {
            return Err(too_long(length as u128, 0));
        }
        let runs = merged_runs(*self.runs.allocator(), &self.runs)?;
        if runs.len() > MOST_RUNS {
            return Err(too_long(length as u128, runs.len() as u32));
        }
        match Pattern::of_runs(self.unit, runs) {
            Some(pattern) => Ok(pattern),
            None => unreachable!(),
        }
    }
}

fn total_length(runs: &[Run]) -> u64
    requires { length runs.now < 2 ^ 32 }
    ensures { result ≡ total runs.now }
{
    let mut length: u64 = 0;
    for run in runs {
        length += run.count as u64;
    }
    length
}

// The runs with neighbours of one flag merged.
fn merged_runs(alloc: Global, runs: &[Run]) -> Result<Vec<Run>, AllocError>
    requires counts { IsTrue (are_counts runs.now) }
    requires small { total runs.now ≤ 527_040 }
    ensures { IfOk result (λ v. v.items ≡ runs_of (flag_at runs.now) (total runs.now)) }
{
    let mut merged = Vec::new(alloc);
    for run in runs {
        extend(&mut merged, run.on, run.count)?;
    }
    Ok(merged)
}

fn unit_name(unit: Unit) -> &'static [u8]
    ensures { result.now ≡ Patterns.unit_name unit }
{
    match unit {
        Unit::Second => b"second",
        Unit::Minute => b"minute",
        Unit::Hour => b"hour",
        Unit::Day => b"day",
        Unit::Week => b"week",
        Unit::Month => b"month",
        Unit::Year => b"year",
    }
}

fn print_runs(runs: &[Run], out: &mut Bytes) -> Result<(), AllocError>
    ensures { OnOk result (out.new ≡ out.old ++ printed_runs runs.now) }
{
    let mut rest = runs;
    while let [run, more @ ..] = rest {
        print_run(*run, out)?;
        if more.len() != 0 {
            out.push(b',')?;
        }
        rest = more;
    }
    Ok(())
}

fn print_run(run: Run, out: &mut Bytes) -> Result<(), AllocError>
    ensures { OnOk result (out.new ≡ out.old ++ printed_run run) }
{
    print_number(run.count, out)?;
    out.push(b' ')?;
    out.extend_from_slice(if run.on { b"on" } else { b"off" })
}

/// What is printed of a pattern is read as the same pattern.
pub fn printed_patterns_are_read()
    ensures { (p : Plan) → IsTrue (is_pattern p.runs) → read_plan (printed_plan p) ≡ Ok p }
{}

/// A text is read as a pattern exactly where it is that pattern's tokens with blanks between them.
pub fn pattern_texts_are_tokens()
    ensures { (text : List ℕ) → (p : Plan) → written_plan text ≡ Ok p ↔ IsPatternText p text }
{}

/// A pattern's text is its tokens with blanks between them; where a text is refused, whole tokens stand before the
/// place.
pub fn a_pattern_is_its_tokens()
    ensures { AreItsTokens plain_front [] written_plan }
{}

/// Where a text is refused as a pattern, what stands before the place goes on to a pattern's text; with the token that
/// stands at the place none does: whatever comes behind it that leaves it this token, the text is refused at this
/// place. Nothing is said of bytes that begin no token.
pub fn patterns_are_refused_in_place()
    ensures { RefusesInPlace (everywhere plain_front) written_plan }
{}
