//! Patterns: runs of intervals that are on or off, repeated without end. What contracts see of a pattern is its unit
//! and its merged runs; NOT, AND, OR and the change to a smaller unit are exact at every interval (`specs/Patterns`),
//! within 527040 intervals and 512 runs. The code goes from run end to run end and never writes the flags out. Stands
//! on ts_text and ts_base; knows nothing of dates. Read `specs/Patterns.antt`, then `pattern.rt`.
#![tactic(auto)]

mod cursor;
mod join;
mod junction;
mod multiple;
mod pattern;
mod read;
mod run;
mod runs;
mod text;
mod units;

pub use junction::Junction;
pub use pattern::{MOST_INTERVALS, MOST_RUNS, Pattern};
pub use read::{WrittenPattern, pattern_in};
pub use run::Run;
pub use text::{
    a_pattern_is_its_tokens, pattern_texts_are_tokens, patterns_are_refused_in_place,
    printed_patterns_are_read,
};
pub use units::{factor, smaller_unit};
