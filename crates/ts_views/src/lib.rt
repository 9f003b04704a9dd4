//! Views: the catalogues of open transactions, each a snapshot that stands still while others commit.
//! A view reads its own changes, else the old images that it keeps, else the newest pages (`specs/Pages`). `Views` has
//! one for each session that has a transaction open, and `keep` puts the image of a page into each that lacks it
//! (`specs/View`). Where that was called for each page of a batch before its commit, the commit leaves what every view
//! reads (`specs/Laws`). `ViewPages` is a view as a keeper of pages, over another that is only read. Stands on
//! ts_command, ts_model, ts_space, ts_journal, ts_page and ts_base; knows nothing of the disk. Read `view.rt`,
//! `specs/Pages.antt`, `views.rt`, then `specs/Laws.antt`.
#![tactic(auto)]

mod laws;
mod view;
mod view_pages;
mod views;

pub use laws::{a_commit_leaves_a_view, a_commit_leaves_the_open_views};
pub use view::View;
pub use view_pages::ViewPages;
pub use views::Views;
