// What the list of on starts is, and the start of the interval that holds a stamp.
ghost use Rattle.std.specs.Prelude.{◌≡◌, ℕ, ◌<◌, ◌↔◌, ℤ, ◌<ℤ◌, slice_get, Some};
ghost use Rattle.ts_calendar.specs.Calendars.{CalendarPlan, IsLaid};
ghost use Rattle.ts_offset.specs.Grid.{IsOnStart, on_starts, IsHeldFrom, held_start};
ghost use Rattle.ts_base.specs.Moment.{IsStamp};

/// Each on start of a calendar is listed, once, and the later ones stand later.
pub fn on_starts_are_listed()
    ensures whole { (c : CalendarPlan) → IsLaid c → (s : ℤ) → IsOnStart c s
        ↔ ((n : ℕ) × (slice_get (on_starts c) n ≡ Some s)) }
    ensures rising { (c : CalendarPlan) → IsLaid c → (m n : ℕ) (s t : ℤ) → m < n → slice_get (on_starts c) m ≡ Some s
        → slice_get (on_starts c) n ≡ Some t → s <ℤ t }
{}

/// A stamp stands for the start of the on interval that holds it, and an on start for itself.
pub fn held_starts_are_starts()
    ensures held { (c : CalendarPlan) → IsLaid c → (t s : ℤ) → IsStamp t → (held_start c t ≡ Some s)
        ↔ IsHeldFrom c t s }
    ensures own { (c : CalendarPlan) → IsLaid c → (s : ℤ) → IsOnStart c s → held_start c s ≡ Some s }
{}
