//! Calendars: intervals of one unit on the line of stamps, of which a pattern says which ones are on. Where an interval
//! starts, which one holds a stamp and which are on, which calendars are valid, the grid that two of them have in
//! common, their AND and OR, and their texts are `specs/Calendars`. All of it is closed arithmetic, by jiff's calendar
//! for months. That starts rise, and where steps lead, are laws (`laws.rt`). Stands on ts_pattern and ts_base; knows
//! nothing of series. Read `specs/Calendars.antt`, then `calendar.rt`.
#![tactic(auto)]

mod calendar;
mod civil;
mod dated;
mod grid;
mod join;
mod laws;
mod read;
mod steps;
mod text;
mod valid;

pub use calendar::Calendar;
pub use grid::CommonGrid;
pub use laws::{starts_rise, steps_lead_there};
pub use text::{
    CalendarText, PatternPart, calendar_texts_are_tokens, calendars_are_refused_in_place,
    printed_calendars_are_read,
};
