//! Views: what one reads over other pages, and in which of them an image is kept. There are only tests: they stand
//! apart, since a crate that has tests of its own is proved twice. Stands on ts_views, which it tests, and on ts_model,
//! ts_space, ts_journal, ts_page and ts_base. Read `pages.rt`, then `views.rt`.
#![tactic(auto)]

#[cfg(test)]
mod pages;
#[cfg(test)]
mod views;
