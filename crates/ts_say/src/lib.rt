//! What replies say: lines and rows, each added behind what was said before (`specs/Reply` of ts_answer has their
//! texts); after an error what was said before still stands in front of what was added. Of replies with many lines
//! `EntryLines` says each entry of a series straight from its bytes, `FoldedLines` what an aggregate list makes of
//! elements, and `say_line` and `say_joined` a row from its values; all keep the text of a day, of which many stamps
//! lie on one (`specs/Day`). Stands on ts_row, ts_pattern and ts_calendar for what they print, on ts_expr for the
//! digits of what lists make, and on ts_entry for who takes entries and elements; knows no catalogue and no page. Read
//! `say.rt`, `say_values.rt`, then `say_entries.rt`.
#![tactic(auto)]

mod day_text;
mod pairs;
mod say;
mod say_bytes;
mod say_calendars;
mod say_entries;
mod say_folds;
mod say_numbers;
mod say_rows;
mod say_values;

pub use day_text::DayText;
pub use say::{say_ok, say_refusal};
pub use say_calendars::{say_calendar, say_pattern, say_stamps};
pub use say_entries::EntryLines;
pub use say_folds::{FoldedLines, say_folded, say_series_folded};
pub use say_rows::{say_joined, say_line};
pub use say_values::{
    say_count, say_counts, say_element, say_found, say_row, say_series, say_signed, say_stamp,
};
