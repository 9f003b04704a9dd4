// Neighbouring stamps at which elements belong to one group.
ghost use Rattle.std.specs.Prelude.{◌↔◌, IsTrue};
ghost use Rattle.ts_calendar.specs.Calendars.{IsBefore};

use ts_base::Stamp;

/// Stamps up to an end at which elements belong to one group, or to none.
#[derive(Clone, Copy, Debug)]
pub(crate) struct Span {
    /// Where the group starts; None where they belong to none.
    pub start: Option<Stamp>,
    /// The first stamp that isn't one of them; None where they go on to the greatest.
    pub end: Option<Stamp>,
}

/// Stamps that were reached among those that follow one another.
#[derive(Clone, Copy, Debug)]
pub(crate) struct Reached {
    pub span: Span,
    /// The last on interval that was reached.
    pub interval: i64,
    /// The one that starts at the end of the stamps, where the last two were neighbours: the next may be one, too.
    pub next: Option<i64>,
}

impl Reached {
    /// Whether a stamp stands before their end.
    pub(crate) fn is_of(&self, stamp: Stamp) -> bool
        ensures { IsTrue result ↔ IsBefore stamp self.now.span.end }
    {
        is_before(stamp, self.span.end)
    }
}

/// Whether a stamp comes before an end, if there is one.
pub(crate) fn is_before(stamp: Stamp, end: Option<Stamp>) -> bool
    ensures { IsTrue result ↔ IsBefore stamp end }
{
    match end {
        Some(end) => stamp.units() < end.units(),
        None => true,
    }
}
