use ts_base::Unit;

/// The grid of two calendars: their smaller unit, and how many of it lead from the first one's pattern start to the
/// second one's.
#[derive(Clone, Copy)]
pub struct CommonGrid {
    pub unit: Unit,
    pub steps: i64,
}
