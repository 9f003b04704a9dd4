// How far each element of a series on a grid reaches along a line.
ghost use Rattle.std.specs.Prelude.{◌≡◌, ◌≤◌, length};
ghost use Rattle.ts_combine.specs.Reach.{IsReach, IsNext, reach_end, index_at};

use crate::line::{Line, held_from};
use ts_calendar::Calendar;
use ts_row::Elem;

/// An element by its index, and the intervals of a line whose starts it holds: from number `low` up to, not including,
/// `high`. Behind the last element it begins and ends at the line's limit.
#[derive(Clone, Copy)]
pub(crate) struct Reach {
    pub index: usize,
    pub low: i64,
    pub high: i64,
}

impl Reach {
    /// Up to which interval the same element holds the starts from one on, or none does.
    pub fn end(&self, at: i64) -> i64
        ensures { result ≡ reach_end self.now at }
    {
        if at < self.low { self.low } else { self.high }
    }

    /// The element that holds the start of an interval, if this one does.
    pub fn index_at(&self, at: i64) -> Option<usize>
        ensures { result ≡ index_at self.now at }
    {
        if at >= self.low && at < self.high {
            Some(self.index)
        } else {
            None
        }
    }
}

/// The reach of an element.
pub(crate) fn reach_of(line: &Line, calendar: &Calendar, elems: &[Elem], index: usize) -> Reach
    requires { index ≤ length elems.now }
    ensures reach { IsReach calendar.now line.now.calendar.now line.now.limit elems.now result }
    ensures index { result.index ≡ index }
{
    let limit = line.limit;
    if index >= elems.len() {
        return Reach {
            index,
            low: limit,
            high: limit,
        };
    }
    let (low, high) = held_from(calendar, line.calendar, limit, elems[index].stamp);
    Reach { index, low, high }
}

/// The reach of the next element, where one is over at an interval, else the same.
pub(crate) fn next_reach(
    line: &Line,
    calendar: &Calendar,
    elems: &[Elem],
    reach: Reach,
    at: i64,
) -> Reach
    requires { IsReach calendar.now line.now.calendar.now line.now.limit elems.now reach }
    ensures reach { IsReach calendar.now line.now.calendar.now line.now.limit elems.now result }
    ensures next { IsNext elems.now at reach result }
{
    if reach.high <= at && reach.index < elems.len() {
        return reach_of(line, calendar, elems, reach.index + 1);
    }
    reach
}
