//! Worked stores that are dumped: the script that is said is written by hand, makes the store again, and a dump of that
//! says it once more; a series with what it stands on, alone; statements in transactions; what a failing call leaves of
//! a dump; volumes that are none. There are only tests: they stand on ts_shell, which makes the stores, and on
//! ts_disk's volume in memory. Read `stores.rt`, then `dumps.rt`.
#![tactic(auto)]

#[cfg(test)]
mod dumps;
#[cfg(test)]
mod stores;
