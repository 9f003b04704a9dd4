//! Routines that read memory alone: patterns, calendars and their on starts, what a container is charged, its series,
//! how many elements a series has. Each says what the catalogue of each layout answers that has what is in memory,
//! whatever pages there are (`specs/Reading` of ts_answer). Stands on ts_define for names, on ts_layout for charges and
//! on ts_offset for counts of on starts. Read `readings.rt`, then `calendars.rt`.
#![tactic(auto)]

mod calendars;
mod readings;

pub use calendars::{cal_index, cal_range, cal_stamp, show_calendar, show_pattern};
pub use readings::{container_usage, count_elements, list_series};
