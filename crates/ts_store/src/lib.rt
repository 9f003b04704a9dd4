//! A store: the pages of a volume under one open batch of changes. What is read is the batch, else the transaction,
//! else what the journal's records put over the pages, else the page in its place (`specs/OpenBatch`), of which a cache
//! keeps some. A batch is kept in the transaction, or dropped without a trace. A transaction is committed whole or not
//! at all, at any moment, or rolled back without a trace; nothing is written before its commit (`specs/Undisturbed`).
//! Stands on ts_cache's, ts_journal's and ts_recover's calls, and is a keeper of pages as ts_page says; knows nothing
//! of rows, series or definitions. Read `specs/OpenBatch.antt`, `store.rt`, then `on.rt`.
#![tactic(auto)]

mod free_list;
mod on;
mod store;

pub use on::On;
pub use store::Store;
