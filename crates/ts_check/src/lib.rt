//! The check of a volume: it is read and judged as an opening judges it, by its journal, and nothing is written or
//! synced, whatever is pending. What is said is the report on the catalogue that it means, or its first bad page
//! (`specs/Report`); it is whole before anything of it is said. The element pages are read in lists, whose pages are
//! judged by several workers. Which page is bad is ts_volume's, and ts_container judges each; stands on these, on
//! ts_store and ts_recover for the pages that a journal gives, and on ts_parallel; knows no command. Read
//! `specs/Report.antt`, then `check.rt`.
#![tactic(auto)]

mod check;
mod page_list;
mod report;
mod survey;
mod verdict;

pub use check::check_volume;
pub use verdict::Verdict;
