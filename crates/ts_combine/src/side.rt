use ts_calendar::Calendar;
use ts_offset::Shape;
use ts_row::Elem;

/// A series as it is combined: its elements that aren't hidden, in order of their stamps; how many columns their rows
/// have; how they lie; and where they lie on a grid, the calendar of that grid.
#[derive(Clone, Copy)]
pub struct Side<'a> {
    pub elems: &'a [Elem],
    pub columns: usize,
    pub shape: &'a Shape<'a>,
    pub calendar: Option<&'a Calendar>,
}
