// The AND and the OR of two calendars, on the grid that they have in common.
ghost use Rattle.std.specs.Prelude.{◌≡◌, ℤ, IfOk, Some, Ok, Err, true};
ghost use Rattle.std.specs.Int.{int_max};
ghost use Rattle.ts_base.specs.Moment.{IsStamp};
ghost use Rattle.ts_base.specs.declared.unit.Unit as unit;
ghost use Rattle.ts_base.specs.declared.refusal.Refusal.TheVariants.{PastEnd};
ghost use Rattle.ts_base.specs.declared.fault.Trouble.TheVariants.{Refused};
ghost use Rattle.ts_base.specs.Answer.{Answers};
ghost use Rattle.ts_pattern.specs.Patterns.{joined_plan, joined_flag, joined_length, Plan, flag, has_on, total};
ghost use Rattle.ts_pattern.specs.Patterns.{smaller_unit};
ghost use Rattle.ts_pattern.specs.declared.junction.Junction.TheVariants.{And, Or};
ghost use Rattle.ts_calendar.specs.Calendars.{common_grid, joined_calendar, with_pattern, IsValid, IsJoin, IsNear};
ghost use Rattle.ts_calendar.specs.Calendars.{IsEarly};

use crate::dated::Dated;
use crate::steps::{first_step, start_in, steps_between};
use crate::{Calendar, CommonGrid};
use ts_base::{Refusal, Stamp, Trouble};
use ts_pattern::{Junction, smaller_unit};

impl Calendar {
    /// The grid that the intervals of both calendars lie on, in the smaller unit. UnitMismatch where neither unit is
    /// made of the other, NotAligned where no whole number of the smaller one leads from pattern start to pattern
    /// start.
    pub fn common_grid(&self, other: &Calendar) -> Result<CommonGrid, Refusal>
        ensures value { result ≡ common_grid self.now other.now }
        ensures near { IfOk result (λ g. IsNear g.steps) }
        ensures early { IfOk result (λ g. IsEarly g.unit self.now.patt_start) }
    {
        let Some(unit) = smaller_unit(self.pattern().unit(), other.pattern().unit()) else {
            return Err(Refusal::UnitMismatch);
        };
        match steps_between(unit, self.first(), other.patt_start()) {
            Some(steps) => Ok(CommonGrid { unit, steps }),
            None => Err(Refusal::NotAligned),
        }
    }

    /// The calendar that is on where both are. Some start of the common grid is always late enough, so PastEnd never
    /// comes.
    pub fn and_op(&self, other: &Calendar) -> Result<Calendar, Trouble>
        ensures answer { Answers (joined_calendar And self.now other.now) result }
        ensures join { IfOk result (IsJoin And self.now other.now) }
        ensures valid { IfOk result IsValid }
        ensures in_time { result ≡ Err (Refused PastEnd) → ⊥ }
    {
        self.joined(Junction::And, other)
    }

    /// The calendar that is on where one of the two is, or both. PastEnd never comes here either.
    pub fn or_op(&self, other: &Calendar) -> Result<Calendar, Trouble>
        ensures answer { Answers (joined_calendar Or self.now other.now) result }
        ensures join { IfOk result (IsJoin Or self.now other.now) }
        ensures valid { IfOk result IsValid }
        ensures in_time { result ≡ Err (Refused PastEnd) → ⊥ }
    {
        self.joined(Junction::Or, other)
    }

    fn joined(&self, junction: Junction, other: &Calendar) -> Result<Calendar, Trouble>
        ensures answer { Answers (joined_calendar junction self.now other.now) result }
        ensures join { IfOk result (IsJoin junction self.now other.now) }
        ensures valid { IfOk result IsValid }
        ensures in_time { result ≡ Err (Refused PastEnd) → ⊥ }
    {
        match self.common_grid(other) {
            Ok(grid) => self.joined_on(grid, junction, other),
            Err(why) => Err(Trouble::Refused(why)),
        }
    }

    // The two calendars joined on their common grid.
    fn joined_on(
        &self,
        grid: CommonGrid,
        junction: Junction,
        other: &Calendar,
    ) -> Result<Calendar, Trouble>
        requires grid { common_grid self.now other.now ≡ Ok grid }
        requires near { IsNear grid.steps }
        requires early { IsEarly grid.unit self.now.patt_start }
        ensures answer { Answers (joined_calendar junction self.now other.now) result }
        ensures join { IfOk result (IsJoin junction self.now other.now) }
        ensures valid { IfOk result IsValid }
        ensures in_time { result ≡ Err (Refused PastEnd) → ⊥ }
    {
        let start = later(self.start(), other.start());
        let first = self.first();
        let Some(shift) = first_step(grid.unit, first, start) else {
            unreachable!()
        };
        let Some(patt_start) = start_in(grid.unit, first, shift) else {
            unreachable!()
        };
        self.joined_at(
            junction,
            other,
            start,
            patt_start,
            shift,
            shift - grid.steps,
        )
    }

    // The two calendars joined from a pattern start on that lies so many intervals after either one's.
    fn joined_at(
        &self,
        junction: Junction,
        other: &Calendar,
        start: Stamp,
        patt_start: Stamp,
        shift: i64,
        other_shift: i64,
    ) -> Result<Calendar, Trouble>
        requires stamp { IsStamp patt_start }
        requires early { (u : unit.Unit) → smaller_unit self.now.pattern.unit other.now.pattern.unit ≡ Some u
            → IsEarly u patt_start }
        requires valid { (p : Plan) → joined_plan junction self.now.pattern shift other.now.pattern other_shift ≡ Ok p
            → has_on p.runs ≡ true → IsValid (record { start = start; patt_start = patt_start; pattern = p }) }
        ensures answer { Answers
            (with_pattern start patt_start
            (joined_plan junction self.now.pattern shift other.now.pattern other_shift)) result }
        ensures parts { IfOk result (λ c. (c.start ≡ start) × (c.patt_start ≡ patt_start)) }
        ensures unit { IfOk result (λ c. smaller_unit self.now.pattern.unit other.now.pattern.unit
            ≡ Some c.pattern.unit) }
        ensures flags { IfOk result (λ c. (k : ℤ) → flag c.pattern.runs k
            ≡ joined_flag junction c.pattern.unit self.now.pattern shift other.now.pattern other_shift k) }
        ensures length { IfOk result (λ c. total c.pattern.runs
            ≡ joined_length c.pattern.unit self.now.pattern other.now.pattern) }
    {
        match self
            .pattern()
            .join_shifted(junction, shift, other.pattern(), other_shift)
        {
            Ok(pattern) => {
                if !pattern.has_on() {
                    return Err(Trouble::Refused(Refusal::AllOff));
                }
                Ok(Calendar::of_valid(start, Dated::of(patt_start), pattern))
            }
            Err(trouble) => Err(trouble),
        }
    }
}

// The later of two stamps.
fn later(a: Stamp, b: Stamp) -> Stamp
    ensures { result ≡ int_max a b }
{
    if a.units() > b.units() { a } else { b }
}
