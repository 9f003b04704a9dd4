// What the definitions of intervals and steps come to.
ghost use Rattle.std.specs.Prelude.{◌≡◌, ◌↔◌, ℤ, ◌≤ℤ◌, ◌<ℤ◌, Some, None, IsSome};
ghost use Rattle.ts_base.specs.Moment.{IsStamp};
ghost use Rattle.ts_base.specs.declared.unit.Unit.{Unit};
ghost use Rattle.ts_calendar.specs.Calendars.{CalendarPlan, IsEarly, IsLaid, start_in, start_at, steps_between};
ghost use Rattle.ts_calendar.specs.Calendars.{first_step, IsFirstStep};

/// Intervals start one after the other, and between two that exist each one does.
pub fn starts_rise()
    ensures rising { (c : CalendarPlan) → IsLaid c → (i j s t : ℤ) → i <ℤ j → start_at c i ≡ Some s
        → start_at c j ≡ Some t → s <ℤ t }
    ensures whole { (c : CalendarPlan) → IsLaid c → (i j k : ℤ) → i ≤ℤ k → k ≤ℤ j → IsSome (start_at c i)
        → IsSome (start_at c j) → IsSome (start_at c k) }
{}

/// Steps lead from one stamp to another exactly where that interval starts there, and the first step is the first
/// interval that isn't before a stamp.
pub fn steps_lead_there()
    ensures between { (u : Unit) (from to k : ℤ) → IsStamp from → IsEarly u from → (steps_between u from to ≡ Some k)
        ↔ (start_in u from k ≡ Some to) }
    ensures apart { (u : Unit) (from to : ℤ) → IsStamp from → IsEarly u from → (steps_between u from to ≡ None)
        ↔ ((k : ℤ) → start_in u from k ≡ Some to → ⊥) }
    ensures first { (u : Unit) (from start k : ℤ) → IsStamp from → IsEarly u from → (first_step u from start ≡ Some k)
        ↔ IsFirstStep u from start k }
    ensures late { (u : Unit) (from start : ℤ) → IsStamp from → IsEarly u from → (first_step u from start ≡ None)
        ↔ ((k s : ℤ) → start_in u from k ≡ Some s → s <ℤ start) }
{}
