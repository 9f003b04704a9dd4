//! Pages, batches and records: the bytes of a head, what a batch has, how a journal is read by its rules, what a stop
//! within a commit or a settling leaves, and how many calls long records take. There are only tests: they stand apart,
//! since a crate that has tests of its own is proved twice. Stands on ts_recover, ts_journal, ts_page and ts_disk, the
//! first three of which it tests. Read `volumes.rt`, then `records.rt`.
#![tactic(auto)]

#[cfg(test)]
mod batches;
#[cfg(test)]
mod journals;
#[cfg(test)]
mod long_record;
#[cfg(test)]
mod pages;
#[cfg(test)]
mod records;
#[cfg(test)]
mod volumes;
