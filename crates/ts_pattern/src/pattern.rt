ghost use Rattle.std.specs.Prelude.{◌≡◌, ℕ, ◌+◌, ◌-◌, ◌*◌, ◌/◌, ◌<◌, ◌≤◌, ◌↔◌, not, length, IsTrue, IsSome, IfSome};
ghost use Rattle.std.specs.Prelude.{IfOk, Ok, map, ℤ, pos, unsigned_abs};
ghost use Rattle.std.specs.Int.{int_rem_euclid};
ghost use Rattle.ts_pattern.specs.Patterns.{total, flag_at, flag, is_pattern, turned, scaled, plan_of_flags};
ghost use Rattle.ts_pattern.specs.Patterns.{joined_flag, joined_length};
ghost use Rattle.ts_base.specs.Answer.{Answers};
ghost use Rattle.ts_pattern.specs.Line.{side_by_side};
ghost use Rattle.ts_base.specs.declared.refusal.Refusal.{Refusal};
ghost use Rattle.ts_base.specs.declared.fault.Trouble.{Trouble};

use crate::join::{Line, count_joined, join};
use crate::multiple::common_multiple;
use crate::runs::{checked_length, flag_of, has_on, scaled_runs, turned_runs};
use crate::units::{factor, is_made_of, smaller_unit};
use crate::{Junction, Run};
use std::alloc::{AllocError, Global};
use std::marker::Model;
use ts_base::{Refusal, Trouble, Unit};

/// The most intervals of a pattern.
pub const MOST_INTERVALS: u32 = 527_040;

/// The most runs of a pattern.
pub const MOST_RUNS: usize = 512;

/// Runs of intervals of one unit, repeated without end.
#[derive(Drop)]
pub struct Pattern {
    unit: Unit,
    runs: Vec<Run>,
    length: u32,
}

impl Model for Pattern {
    ghost use Rattle.std.specs.Prelude.{◌≡◌, ◌≤◌, ◌<◌, length, IsTrue};
    ghost use Rattle.ts_pattern.specs.Patterns.{Plan, total, is_pattern};

    ghost Value = { Plan };

    ghost view = { λ p. record { unit = p.unit; runs = p.runs.items } };

    ghost invariant = { λ p. (p.length ≡ total p.runs.items) × IsTrue (is_pattern p.runs.items) };
}

impl Pattern {
    ghost use Rattle.ts_pattern.specs.Patterns.{has_on, factor, is_made_of, smaller_unit, expanded_plan, joined_plan};
    ghost use Rattle.ts_pattern.specs.Patterns.{expanded_flag};
    ghost use Rattle.ts_pattern.specs.declared.junction.Junction.TheVariants.{And, Or};

    /// The pattern of merged runs.
    pub fn of_runs(unit: Unit, runs: Vec<Run>) -> Option<Pattern>
        ensures within { IsSome result ↔ IsTrue (is_pattern runs.items) }
        ensures value { IfSome result (λ p. p ≡ record { unit = unit; runs = runs.items }) }
    {
        let length = checked_length(&runs)?;
        Some(Pattern { unit, runs, length })
    }

    /// The unit of the intervals.
    pub fn unit(&self) -> Unit
        ensures { result ≡ self.now.unit }
    {
        self.unit
    }

    /// The merged runs.
    pub fn runs(&self) -> &[Run]
        ensures runs { result.now ≡ self.now.runs }
        ensures pattern { IsTrue (is_pattern result.now) }
    {
        &self.runs
    }

    /// The number of intervals after which the pattern repeats.
    pub fn length(&self) -> u32
        ensures value { result ≡ total self.now.runs }
        ensures pattern { IsTrue (is_pattern self.now.runs) }
    {
        self.length
    }

    /// The flag of an interval of the first round.
    pub fn on(&self, at: u32) -> bool
        requires { at < total self.now.runs }
        ensures { result ≡ flag_at self.now.runs at }
    {
        flag_of(&self.runs, at)
    }

    /// Whether some interval is on.
    pub fn has_on(&self) -> bool
        ensures { result ≡ has_on self.now.runs }
    {
        has_on(&self.runs)
    }

    /// What the runs were made with.
    pub(crate) fn allocator(&self) -> Global {
        *self.runs.allocator()
    }

    /// The same pattern once more.
    pub fn copy(&self) -> Result<Pattern, AllocError>
        ensures ok { IfOk result (λ p. p ≡ self.now) }
    {
        let runs = self.runs.as_slice().to_vec(*self.runs.allocator())?;
        Ok(Pattern {
            unit: self.unit,
            runs,
            length: self.length,
        })
    }

    /// The pattern with each flag turned.
    pub fn not_op(&self) -> Result<Pattern, AllocError>
        ensures ok { IfOk result (λ p. p ≡ record { unit = self.now.unit; runs = map turned self.now.runs }) }
        ensures flags { IfOk result (λ p. (k : ℤ) → flag p.runs k ≡ not (flag self.now.runs k)) }
        ensures length { IfOk result (λ p. total p.runs ≡ total self.now.runs) }
    {
        let runs = turned_runs(*self.runs.allocator(), &self.runs)?;
        Ok(Pattern {
            unit: self.unit,
            runs,
            length: self.length,
        })
    }

    /// The pattern in a smaller unit: each interval becomes as many intervals of that unit as it has.
    pub fn expand(&self, unit: Unit) -> Result<Pattern, Trouble>
        ensures answer { Answers (expanded_plan self.now unit) result }
        ensures flags { IfOk result (λ p. (k : ℤ)
            → flag p.runs k ≡ expanded_flag self.now.runs (factor self.now.unit unit) k) }
        ensures length { IfOk result (λ p. total p.runs ≡ total self.now.runs * factor self.now.unit unit) }
    {
        if !is_made_of(self.unit, unit) {
            return Err(Trouble::Refused(Refusal::UnitMismatch));
        }
        let parts = factor(self.unit, unit);
        let length = self.length as u64 * parts as u64;
        if length > MOST_INTERVALS as u64 {
            return Err(too_long(length as u128, 0));
        }
        let runs = scaled_runs(*self.runs.allocator(), &self.runs, parts)?;
        Ok(Pattern {
            unit,
            runs,
            length: length as u32,
        })
    }

    /// The pattern that is on where both are.
    pub fn and_op(&self, other: &Pattern) -> Result<Pattern, Trouble>
        ensures answer { Answers (joined_plan And self.now (pos 0) other.now (pos 0)) result }
        ensures flags { IfOk result (λ p. (k : ℤ) → flag p.runs k ≡ joined_flag And p.unit self.now (pos 0) other.now
            (pos 0) k) }
        ensures length { IfOk result (λ p. total p.runs ≡ joined_length p.unit self.now other.now) }
    {
        self.join_shifted(Junction::And, 0, other, 0)
    }

    /// The pattern that is on where one of the two is, or both.
    pub fn or_op(&self, other: &Pattern) -> Result<Pattern, Trouble>
        ensures answer { Answers (joined_plan Or self.now (pos 0) other.now (pos 0)) result }
        ensures flags { IfOk result (λ p. (k : ℤ) → flag p.runs k ≡ joined_flag Or p.unit self.now (pos 0) other.now
            (pos 0) k) }
        ensures length { IfOk result (λ p. total p.runs ≡ joined_length p.unit self.now other.now) }
    {
        self.join_shifted(Junction::Or, 0, other, 0)
    }

    /// The two patterns joined interval by interval of the smaller unit, where interval 0 of the result lies so many
    /// of these intervals after the first one of either pattern.
    pub fn join_shifted(
        &self,
        junction: Junction,
        shift: i64,
        other: &Pattern,
        other_shift: i64,
    ) -> Result<Pattern, Trouble>
        ensures answer { Answers (joined_plan junction self.now shift other.now other_shift) result }
        ensures flags { IfOk result (λ p. (k : ℤ)
            → flag p.runs k ≡ joined_flag junction p.unit self.now shift other.now other_shift k) }
        ensures length { IfOk result (λ p. total p.runs ≡ joined_length p.unit self.now other.now) }
    {
        let Some(unit) = smaller_unit(self.unit, other.unit) else {
            return Err(Trouble::Refused(Refusal::UnitMismatch));
        };
        let length = common_multiple(self.length_in(unit), other.length_in(unit));
        if length > MOST_INTERVALS as u128 {
            return Err(too_long(length, 0));
        }
        self.joined_in(unit, junction, shift, other, other_shift, length as u32)
    }

    // The two patterns joined, whose common length in that unit is known.
    fn joined_in(
        &self,
        unit: Unit,
        junction: Junction,
        shift: i64,
        other: &Pattern,
        other_shift: i64,
        length: u32,
    ) -> Result<Pattern, Trouble>
        requires left { IsTrue (is_made_of self.now.unit unit) }
        requires right { IsTrue (is_made_of other.now.unit unit) }
        requires left_fits { total self.now.runs * factor self.now.unit unit ≤ length }
        requires right_fits { total other.now.runs * factor other.now.unit unit ≤ length }
        requires small { length ≤ 527_040 }
        ensures answer { Answers
            (plan_of_flags unit (λ k. joined_flag junction unit self.now shift other.now other_shift
            (pos k)) length) result }
    {
        let left = self.runs_in(unit)?;
        let right = other.runs_in(unit)?;
        let left = Line {
            runs: &left,
            from: place_of(shift, self.length_in(unit)),
        };
        let right = Line {
            runs: &right,
            from: place_of(other_shift, other.length_in(unit)),
        };
        pattern_of_lines(*self.runs.allocator(), unit, junction, left, right, length)
    }

    // The length in a smaller unit.
    fn length_in(&self, unit: Unit) -> u64
        requires { IsTrue (is_made_of self.now.unit unit) }
        ensures value { result ≡ total self.now.runs * factor self.now.unit unit }
        ensures some { 0 < result }
        ensures pattern { IsTrue (is_pattern self.now.runs) }
    {
        self.length as u64 * factor(self.unit, unit) as u64
    }

    // The runs in a smaller unit.
    fn runs_in(&self, unit: Unit) -> Result<Vec<Run>, AllocError>
        requires made { IsTrue (is_made_of self.now.unit unit) }
        requires small { total self.now.runs * factor self.now.unit unit ≤ 527_040 }
        ensures value { IfOk result (λ v. v.items ≡ map (scaled (factor self.now.unit unit)) self.now.runs) }
        ensures length { IfOk result (λ v. total v.items ≡ total self.now.runs * factor self.now.unit unit) }
        ensures pattern { IfOk result (λ v. IsTrue (is_pattern v.items)) }
    {
        let runs = scaled_runs(*self.runs.allocator(), &self.runs, factor(self.unit, unit))?;
        Ok(runs)
    }
}

pub(crate) fn too_long(length: u128, runs: u32) -> Trouble
    ensures { result ≡ Trouble.Refused (Refusal.PatternTooLong length runs) }
{
    Trouble::Refused(Refusal::PatternTooLong { length, runs })
}

// The place of an interval within its round.
fn place_of(at: i64, length: u64) -> u32
    requires some { 0 < length }
    requires small { length ≤ 527_040 }
    ensures value { result ≡ unsigned_abs (int_rem_euclid at (pos length)) }
    ensures within { result < length }
{
    at.rem_euclid(length as i64) as u32
}

// The pattern of the first flags of two lines that are joined.
fn pattern_of_lines(
    alloc: Global,
    unit: Unit,
    junction: Junction,
    left: Line,
    right: Line,
    length: u32,
) -> Result<Pattern, Trouble>
    requires left { IsTrue (is_pattern left.runs.now) }
    requires right { IsTrue (is_pattern right.runs.now) }
    requires within { (left.from < total left.runs.now) × (right.from < total right.runs.now) }
    requires some { 0 < length }
    requires small { length ≤ 527_040 }
    ensures answer { Answers (plan_of_flags unit (side_by_side junction left.entry.runs.now left.entry.from right.entry.runs.now right.entry.from) length) result }
{
    match join(alloc, junction, left, right, length)? {
        Some(runs) => Ok(Pattern { unit, runs, length }),
        None => Err(too_long(length as u128, count_joined(junction, left, right, length))),
    }
}
