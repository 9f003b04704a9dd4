//! Pages of 4096 bytes: the head and the cells of one, and the contract of whatever keeps many. Of one page, what is
//! written is read again, and every other byte stays (`specs/Pages`, `specs/Cell`). Of many, each call says what
//! becomes of the pages by their numbers and of the list of those that can be taken (`specs/Pages`); `MemoryPages` is
//! that in memory. Stands on ts_base and ts_disk for the words of a fault; knows nothing of rows, series or journals.
//! Read `specs/Pages.antt`, `page.rt`, then `pages.rt`.
#![tactic(auto)]

mod field;
mod laws;
mod memory_pages;
mod page;
mod pages;
mod volume;

pub use laws::a_head_is_read_as_it_is_written;
pub use memory_pages::MemoryPages;
pub use page::{Head, Page};
pub use pages::Pages;
pub use volume::{FIRST_ELEMENT_PAGE, HEAD, LAST_REGION_PAGE, PAGE, REGION, REGION_BYTES};
