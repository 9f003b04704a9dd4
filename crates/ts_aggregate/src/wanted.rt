// Which groups are asked for.
ghost use Rattle.std.specs.Prelude.{◌≡◌, ℤ, ◌<◌, ◌<ℤ◌, ◌+ℤ◌, [], Some, None, true, false, IfSome, IfNone, pos};
ghost use Rattle.ts_base.specs.Moment.{IsStamp};
ghost use Rattle.ts_pattern.specs.Patterns.{flag, is_monthly, total};
ghost use Rattle.ts_calendar.specs.Calendars.{IsBefore, IsLaid, IsNear, start_at, is_on};
ghost use Rattle.ts_offset.specs.Grid.{held_start};
ghost use Rattle.ts_aggregate.specs.Groups.{asked_start, IsBehind, IsGoingOn, IsSpan, Lasts};

use crate::span::{Reached, Span, is_before};
use std::marker::Model;
use ts_base::{Stamp, Unit};
use ts_calendar::Calendar;
use ts_offset::Counter;
use ts_pattern::Pattern;

/// The number of the greatest stamp.
const GREATEST: i64 = 25_340_230_079_999_999;

/// Groups of elements by the on intervals of a calendar: those that start from one stamp to another, both included.
#[derive(Drop)]
pub(crate) struct WantedIntervals<'a> {
    counter: &'a Counter,
    from: Stamp,
    to: Stamp,
    /// How long each interval lasts, where all of them last as long.
    length: Option<i64>,
}

impl<'a> Model for WantedIntervals<'a> {
    ghost use Rattle.std.specs.Prelude.{IfSome};
    ghost use Rattle.ts_aggregate.specs.Groups.{Lasts, WantedPlan};

    ghost Value = { WantedPlan };

    ghost view = { λ w. record { calendar = w.counter.now; from = w.from; to = w.to } };

    ghost invariant = { λ w. IfSome w.length (Lasts w.counter.now) };
}

impl<'a> WantedIntervals<'a> {
    /// These groups.
    pub(crate) fn new(counter: &'a Counter, from: Stamp, to: Stamp) -> WantedIntervals<'a>
        ensures { result ≡ record { calendar = counter.now; from = from; to = to } }
    {
        WantedIntervals {
            counter,
            from,
            to,
            length: interval_length(counter.calendar()),
        }
    }

    /// The stamps before the first on interval, to which no group belongs.
    pub(crate) fn first(&self) -> Reached
        ensures none { result.span.start ≡ None }
        ensures going { IsGoingOn self.now result.span [] }
        ensures behind { IsBehind self.now.calendar result }
    {
        let calendar = self.counter.calendar();
        let _laid = calendar.patt_start();
        Reached {
            span: Span {
                start: None,
                end: Some(calendar.start()),
            },
            interval: 0,
            next: None,
        }
    }

    /// The stamps from one on: up to the end of the on interval that holds it, or where none does, up to the next one.
    /// It lies behind those that were reached before.
    pub(crate) fn reach(&self, stamp: Stamp, from: Reached) -> Reached
        requires behind { IsBehind self.now.calendar from }
        requires late { IsBefore stamp from.span.end → ⊥ }
        ensures span { IsSpan self.now stamp result.span }
        ensures behind { IsBehind self.now.calendar result }
    {
        if let Some(interval) = from.next {
            if let Some(start) = from.span.end {
                let reached = self.next_to(interval, start);
                if reached.is_of(stamp) && is_on_at(self.counter.calendar(), interval, start) {
                    return reached;
                }
            }
        }
        self.seek(stamp, from.interval)
    }

    // An interval, reached from its neighbour.
    fn next_to(&self, interval: i64, start: Stamp) -> Reached
        requires { start_at self.now.calendar interval ≡ Some start }
        ensures start { result.span.start ≡ asked_start self.now (Some start) }
        ensures end { result.span.end ≡ start_at self.now.calendar (interval +ℤ pos 1) }
        ensures behind { IsBehind self.now.calendar result }
        ensures laid { IsLaid self.now.calendar }
    {
        let _laid = self.counter.calendar().patt_start();
        Reached {
            span: Span {
                start: self.asked(start),
                end: self.end_of(interval, start),
            },
            interval,
            next: Some(interval + 1),
        }
    }

    // The same wherever it lies, behind the last on interval that was reached.
    fn seek(&self, stamp: Stamp, last: i64) -> Reached
        ensures span { IsSpan self.now stamp result.span }
        ensures behind { IsBehind self.now.calendar result }
    {
        let calendar = self.counter.calendar();
        let interval = calendar.interval_around(stamp);
        if let Some(start) = on_start(calendar, interval) {
            return Reached {
                span: Span {
                    start: self.asked(start),
                    end: self.end_of(interval, start),
                },
                interval,
                next: next_of(interval, last),
            };
        }
        Reached {
            span: Span {
                start: None,
                end: self.counter.cal_stamp(stamp, 1),
            },
            interval: last,
            next: None,
        }
    }

    // The end of an interval that starts there.
    fn end_of(&self, interval: i64, start: Stamp) -> Option<Stamp>
        requires near { IsNear interval }
        requires start { start_at self.now.calendar interval ≡ Some start }
        ensures { result ≡ start_at self.now.calendar (interval +ℤ pos 1) }
    {
        match self.length {
            Some(length) => Stamp::of(start.units() + length),
            None => self.counter.calendar().start_of(interval + 1),
        }
    }

    // A start, if it is among those that are asked for.
    fn asked(&self, start: Stamp) -> Option<Stamp>
        ensures { result ≡ asked_start self.now (Some start) }
    {
        if start.units() < self.from.units() || self.to.units() < start.units() {
            return None;
        }
        Some(start)
    }

    /// The last stamp at which elements may belong to these groups.
    pub(crate) fn last(&self) -> Stamp
        ensures { (t s : ℤ) → IsStamp t → result <ℤ t → held_start self.now.calendar t ≡ Some s → self.now.to <ℤ s }
    {
        let calendar = self.counter.calendar();
        let interval = calendar.interval_around(self.to);
        if !calendar.is_on(interval) {
            return self.to;
        }
        last_before(calendar.start_of(interval + 1))
    }
}

// The start of an interval that is on, if it is; it is sought once.
fn on_start(calendar: &Calendar, interval: i64) -> Option<Stamp>
    ensures start { IfSome result (λ s. start_at calendar.now interval ≡ Some s) }
    ensures on { IfSome result (λ s. is_on calendar.now interval ≡ true) }
    ensures off { IfNone result (is_on calendar.now interval ≡ false) }
{
    let start = calendar.start_of(interval)?;
    if is_on_at(calendar, interval, start) {
        Some(start)
    } else {
        None
    }
}

// Whether an interval is on that starts there.
fn is_on_at(calendar: &Calendar, interval: i64, start: Stamp) -> bool
    requires { start_at calendar.now interval ≡ Some start }
    ensures { result ≡ is_on calendar.now interval }
{
    if start.units() < calendar.start().units() {
        return false;
    }
    is_flagged(calendar.pattern(), interval)
}

// The interval behind one, where that is the neighbour of the last one.
fn next_of(interval: i64, last: i64) -> Option<i64>
    requires { IsNear interval × IsNear (interval +ℤ pos 1) }
    ensures { IfSome result (λ k. k ≡ interval +ℤ pos 1) }
{
    if interval - 1 == last {
        Some(interval + 1)
    } else {
        None
    }
}

// How long each interval of a calendar lasts, where all of them last as long.
fn interval_length(calendar: &Calendar) -> Option<i64>
    ensures { IfSome result (Lasts calendar.now) }
{
    if is_monthly(calendar.pattern().unit()) {
        return None;
    }
    let next = calendar.start_of(1)?;
    Some(next.units() - calendar.patt_start().units())
}

fn is_monthly(unit: Unit) -> bool
    ensures { result ≡ is_monthly unit }
{
    matches!(unit, Unit::Month | Unit::Year)
}

// Whether an interval is on by the pattern; one run is of all intervals.
fn is_flagged(pattern: &Pattern, interval: i64) -> bool
    ensures { result ≡ flag pattern.now.runs interval }
{
    let runs = pattern.runs();
    if runs.len() == 1 {
        return runs[0].on;
    }
    let length = round_length(pattern);
    pattern.on(interval.rem_euclid(length as i64) as u32)
}

// The number of intervals after which a pattern repeats.
fn round_length(pattern: &Pattern) -> u32
    ensures value { result ≡ total pattern.now.runs }
    ensures some { 0 < result }
{
    pattern.length()
}

// The last stamp before an end, or the greatest where there is none.
fn last_before(end: Option<Stamp>) -> Stamp
    ensures { (t : ℤ) → IsStamp t → result <ℤ t → IsBefore t end → ⊥ }
{
    match end {
        Some(end) => Stamp::of(end.units() - 1).unwrap_or(end),
        None => greatest_stamp(),
    }
}

fn greatest_stamp() -> Stamp
    ensures { result ≡ pos 25_340_230_079_999_999 }
{
    let Some(stamp) = Stamp::of(GREATEST) else {
        unreachable!()
    };
    stamp
}
