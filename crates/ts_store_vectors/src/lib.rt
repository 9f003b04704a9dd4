//! A store over a volume in memory: what is read of its batch, its transaction, its overlay, its cache and its pages,
//! and what a stop within a commit or a checkpoint leaves. There are only tests: they stand apart, since a crate that
//! has tests of its own is proved twice. Stands on ts_store and ts_cache, which it tests, and ts_recover, ts_page,
//! ts_disk and ts_base. Read `stores.rt`, then `often.rt`, `transactions.rt` and `cached.rt`.
#![tactic(auto)]

#[cfg(test)]
mod cached;
#[cfg(test)]
mod caches;
#[cfg(test)]
mod often;
#[cfg(test)]
mod stores;
#[cfg(test)]
mod transactions;
