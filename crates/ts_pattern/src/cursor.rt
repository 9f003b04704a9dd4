ghost use Rattle.std.specs.Prelude.{◌≡◌, ℕ, ◌+◌, ◌*◌, ◌%◌, ◌^◌, ◌<◌, ◌≤◌, length, take, slice_get, Some, IsTrue};
ghost use Rattle.std.specs.Prelude.{IsSome};
ghost use Rattle.ts_pattern.specs.Patterns.{total, later_flag, is_pattern};
ghost use Rattle.ts_pattern.specs.declared.run.Run.{Run};

use crate::Run;

/// A place in runs that repeat without end: the interval `at`, the flag of its run and how many intervals
/// of this run are left.
#[derive(Drop)]
pub(crate) struct Cursor<'a> {
    runs: &'a [Run],
    pub at: u32,
    index: usize,
    pub on: bool,
    pub rest: u32,
    ghost pattern: { IsTrue (is_pattern runs.now) },
    ghost within: { index < length runs.now },
    ghost some: { 0 < rest },
    ghost place: { total (take (index + 1) runs.now) ≡ at % total runs.now + rest },
    ghost flags: { (i : ℕ) → i < rest → later_flag runs.now (at + i) ≡ on },
}

impl<'a> Cursor<'a> {
    /// The place of an interval of the first round.
    pub fn new(runs: &'a [Run], at: u32) -> Cursor<'a>
        requires pattern { IsTrue (is_pattern runs.now) }
        requires within { at < total runs.now }
        ensures runs { result.runs.now ≡ runs.now }
        ensures at { result.at ≡ at }
    {
        let (index, rest) = run_around(runs, at);
        let run = run_at(runs, index);
        Cursor {
            runs,
            at,
            index,
            on: run.on,
            rest,
        }
    }

    /// How many of the next intervals are known to have the flag of this one, up to so many: those left of the run,
    /// or all of them where there is no other run.
    pub fn steady(&self, most: u32) -> u32
        requires { 0 < most }
        ensures some { 0 < result }
        ensures within { result ≤ most }
        ensures rest { 1 < length self.now.runs.now → result ≤ self.now.rest }
        ensures all { length self.now.runs.now ≡ 1 → result ≡ most }
        ensures flags { (i : ℕ) → i < result → later_flag self.now.runs.now (self.now.at + i) ≡ self.now.on }
    {
        if self.runs.len() == 1 {
            return most;
        }
        self.rest.min(most)
    }

    /// Goes on within the run, or to the start of the next one; any number of rounds where there is no other run.
    pub fn advance(&mut self, step: u32)
        requires fits { 1 < length self.old.runs.now → step ≤ self.old.rest }
        requires room { self.old.at + step < 2 ^ 32 }
        ensures at { self.new.at ≡ self.old.at + step }
        ensures runs { self.new.runs.now ≡ self.old.runs.now }
    {
        if self.runs.len() == 1 {
            self.go_round(step);
            return;
        }
        if step == self.rest {
            self.next_run();
            return;
        }
        self.rest -= step;
        self.at += step;
    }

    // Goes on within the only run, round after round.
    fn go_round(&mut self, step: u32)
        requires single { length self.old.runs.now ≡ 1 }
        requires room { self.old.at + step < 2 ^ 32 }
        ensures at { self.new.at ≡ self.old.at + step }
        ensures runs { self.new.runs.now ≡ self.old.runs.now }
    {
        let runs = self.runs;
        let at = self.at + step;
        let run = run_at(runs, 0);
        *self = Cursor {
            runs,
            at,
            index: 0,
            on: run.on,
            rest: run.count - at % run.count,
        };
    }

    // The index of the run after this one.
    fn next_index(&self) -> usize
        ensures within { result < length self.now.runs.now }
        ensures place { (self.now.at + self.now.rest) % total self.now.runs.now
            ≡ total (take result self.now.runs.now) }
    {
        if self.index + 1 == self.runs.len() {
            0
        } else {
            self.index + 1
        }
    }

    // Goes to the start of the next run.
    fn next_run(&mut self)
        requires room { self.old.at + self.old.rest < 2 ^ 32 }
        ensures at { self.new.at ≡ self.old.at + self.old.rest }
        ensures runs { self.new.runs.now ≡ self.old.runs.now }
    {
        let runs = self.runs;
        let at = self.at + self.rest;
        let index = self.next_index();
        let run = run_at(runs, index);
        *self = Cursor {
            runs,
            at,
            index,
            on: run.on,
            rest: run.count,
        };
    }
}

pub(crate) fn run_at(runs: &[Run], index: usize) -> Run
    requires { index < length runs.now }
    ensures { slice_get runs.now index ≡ Some result }
{
    runs[index]
}

// The index of the run that has an interval, and how many intervals of the run there are from it on.
fn run_around(runs: &[Run], at: u32) -> (usize, u32)
    requires { at < total runs.now }
    ensures within { result.0 < length runs.now }
    ensures some { 0 < result.1 }
    ensures end { total (take (result.0 + 1) runs.now) ≡ at + result.1 }
    ensures inside { (run : Run) → slice_get runs.now result.0 ≡ Some run → result.1 ≤ run.count }
{
    let mut before = at;
    for (index, run) in runs.iter().enumerate() {
        if before < run.count {
            return (index, run.count - before);
        }
        before -= run.count;
    }
    unreachable!()
}
