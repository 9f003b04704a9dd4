// Which elements of a regular series have a place so many on starts behind their own.
ghost use Rattle.std.specs.Prelude.{◌≡◌, ℤ, IfSome, IfNone, None};
ghost use Rattle.ts_calendar.specs.Calendars.{IsLaid};
ghost use Rattle.ts_combine.specs.Moved.{start_behind};
ghost use Rattle.ts_combine.specs.Series.{IsStartOf};
ghost use Rattle.ts_combined_rows.specs.Placed.{HasNoPlace, NoneBefore, NoneAfter};

use ts_base::Stamp;
use ts_offset::Grid;

/// The first on start that has a place from the origin on so many behind it; None where none has.
pub(crate) fn first_placed(grid: &Grid<'_>, by: i64) -> Option<Stamp>
    requires { IsLaid grid.now.calendar }
    ensures some { IfSome result (NoneBefore grid.now by) }
    ensures none { IfNone result ((stamp : ℤ) → IsStartOf grid.now stamp → HasNoPlace grid.now by stamp) }
{
    if by >= 0 {
        return Some(grid.origin());
    }
    grid.stamp_of(by.unsigned_abs())
}

/// The last on start that has a place up to a last offset so many behind it, or a later stamp; None where none has.
pub(crate) fn last_placed(grid: &Grid<'_>, by: i64, last: u64) -> Option<Stamp>
    requires { IsLaid grid.now.calendar }
    ensures some { IfSome result (NoneAfter grid.now by last) }
    ensures none { IfNone result ((stamp : ℤ) → IsStartOf grid.now stamp → start_behind grid.now by last stamp ≡ None) }
{
    if by <= 0 {
        return Some(Stamp::greatest());
    }
    let offset = last.checked_sub(by.unsigned_abs())?;
    match grid.stamp_of(offset) {
        Some(stamp) => Some(stamp),
        None => Some(Stamp::greatest()),
    }
}
