//! Offsets: the on starts of a calendar, counted. A counter answers how many on starts lie between two stamps, which
//! one comes so many after a stamp, and which lie in a span. A grid borrows a counter and counts from an origin on;
//! offset and stamp are inverse to each other on all on starts from the origin. What is counted is a walk from interval
//! to interval (`specs/Grid`); the code counts whole rounds of the pattern by division and the rest by a binary search
//! among its on runs (`specs/Spans`), within the intervals that exist and aren't before the calendar's start
//! (`specs/Sums`); these sums are taken once for each counter, and the counts of its origin once for each grid. Stands
//! on ts_calendar; knows nothing of elements. Read `specs/Grid.antt`, then `grid.rt` and `sums.rt`.
#![tactic(auto)]

mod counted;
mod counter;
mod grid;
mod onward;
mod shape;
mod span;
mod starts;
mod sums;
mod walk;

pub use counter::Counter;
pub use grid::Grid;
pub use onward::StartsFrom;
pub use shape::Shape;
pub use starts::{held_starts_are_starts, on_starts_are_listed};
