//! Clean pages in memory: at most so many, of which the one that was used last stands first. A page that is read or put
//! comes to the front, a new one pushes the last out of a full cache, and memory that runs out changes nothing
//! (`specs/Cache`). Stands on ts_page, and knows nothing of disks or journals: that its pages are those of a volume is
//! its caller's to keep. Read `specs/Cache.antt`, then `cache.rt`.
#![tactic(auto)]

mod cache;
mod laws;

pub use cache::PageCache;
pub use laws::{
    a_page_is_found_as_it_was_put, a_page_is_found_until_it_is_forgotten,
    a_put_drops_the_last_of_a_full_cache,
};
